// The rows of a table's file.
ghost use Rattle.std.specs.Prelude.{◌≡◌, ◌<◌, ◌≤◌, ◌+◌, ◌++◌, ◌∷◌, ◌&&◌, [], List, Ok, Err, IfOk, IfErr, IsErr, OnOk, None, true, false, length, map};
ghost use Rattle.std.specs.Bool.{MatchBool};
ghost use Rattle.std.specs.List.{list_any};
ghost use Rattle.csv.specs.Records.{fields_of};
ghost use Rattle.csv_tables.specs.KeyCells as spec_keys;
ghost use Rattle.csv_tables.specs.Seen.{seen_in, seen_with};
ghost use Rattle.sql_catalog.specs.Descriptor.{describe};
ghost use Rattle.sql_catalog.specs.declared.descriptor.KeyDescriptor.{KeyDescriptor};
ghost use Rattle.csv_tables.specs.Loaded.{Gives};
ghost use Rattle.csv_tables.specs.Checked as checked;
ghost use Rattle.csv_tables.specs.Tables as spec;

use crate::content::{Content, content_of};
use crate::differ::keys_differ;
use crate::header::fits_header;
use crate::keys_once::keyed_once;
use crate::records::Records;
use crate::refusal::TableRefusal;
use crate::rule::Rule;
use crate::seen::{SeenKey, nothing_seen, repeats};
use csv::ByteRecord;
use row_bag::{Bag, Row};
use shared_types::OutOfMemory;
use sql_ast::TableDecl;
use sql_catalog::{ColumnDescriptor, KeyDescriptor, TableDescriptor, describe};
use sql_value::{Cell, Level};
use sqlite_items::Items;
use std::alloc::Global;

/// The greatest number of rows of a table.
const MAX_ROWS: usize = 1_000_000;

// What the fields of a record hold, each by its column's type.
fn contents(
    alloc: Global,
    columns: &[ColumnDescriptor],
    fields: &ByteRecord,
) -> Result<Vec<Content>, OutOfMemory>
    ensures { IfOk result (λ xs. xs.items ≡ spec.contents_of columns.now (fields_of fields.now)) }
{
    let mut contents = Vec::with_capacity(alloc, columns.len())?;
    for i in 0..columns.len() {
        let Some(field) = fields.get(i) else {
            return Ok(contents);
        };
        contents.push(content_of(alloc, columns[i].data_type, field)?)?;
    }
    Ok(contents)
}

// The cells among what the fields of a record hold.
fn cells(alloc: Global, contents: Vec<Content>) -> Result<Items<Cell>, OutOfMemory>
    ensures { IfOk result (λ cs. cs ≡ spec.cells_of contents.items) }
{
    let mut cells = Vec::with_capacity(alloc, contents.len())?;
    for content in contents {
        match content {
            Content::Holds(cell) => cells.push(cell)?,
            Content::BadInteger | Content::TooLong | Content::BadUtf8 => {}
        }
    }
    Ok(Items::from_vec(cells))
}

// Whether a field of an INTEGER column is neither null nor a number in range.
fn has_bad_integer(contents: &[Content]) -> bool
    ensures { result ≡ list_any spec.is_bad_integer contents.now }
{
    contents
        .iter()
        .any(|content| matches!(content, Content::BadInteger))
}

// Whether a text has too many characters.
fn has_long_text(contents: &[Content]) -> bool
    ensures { result ≡ list_any spec.is_too_long contents.now }
{
    contents
        .iter()
        .any(|content| matches!(content, Content::TooLong))
}

// Whether a field of a VARCHAR column is not UTF-8.
fn has_bad_utf8(contents: &[Content]) -> bool
    ensures { result ≡ list_any spec.is_bad_utf8 contents.now }
{
    contents
        .iter()
        .any(|content| matches!(content, Content::BadUtf8))
}

// Whether a field holds null.
fn holds_null(content: &Content) -> bool
    ensures { result ≡ spec.holds_null content.now }
{
    match content {
        Content::Holds(cell) => matches!(cell, Cell::Null),
        Content::BadInteger | Content::TooLong | Content::BadUtf8 => false,
    }
}

// Whether a field holds null in a column that takes none.
fn is_refused_null(not_null: bool, content: &Content) -> bool
    ensures { result ≡ (not_null && spec.holds_null content.now) }
{
    not_null && holds_null(content)
}

// Whether null stands in a column that takes none.
fn has_refused_null(columns: &[ColumnDescriptor], contents: &[Content]) -> bool
    ensures { result ≡ spec.has_refused_null columns.now contents.now }
{
    for i in 0..columns.len().min(contents.len()) {
        if is_refused_null(columns[i].not_null, &contents[i]) {
            return true;
        }
    }
    false
}

// Whether the cells of a key equal those of an earlier row; else the keys are seen with them.
fn repeats_key(
    alloc: Global,
    table: &TableDescriptor,
    before: &Bag,
    seen: &mut Vec<SeenKey>,
    contents: &[Content],
) -> Result<bool, OutOfMemory>
    requires { seen.old.items ≡ map (seen_in before.now) table.now.keys }
    ensures found { IfOk result (λ b. b ≡ list_any (spec_keys.repeats before.now contents.now) table.now.keys) }
    ensures after { IfOk result (λ b. b ≡ false → seen.new.items ≡ map (seen_with contents.now) (map (seen_in before.now) table.now.keys)) }
{
    repeats(alloc, seen, &contents)
}

// The rule of the least number that a record of these contents breaks after these rows; where it
// breaks none, the keys are seen with its cells.
#[tactic(auto, unfolding(crate::specs::Tables::broken_by))]
fn broken_by(
    alloc: Global,
    table: &TableDescriptor,
    before: &Bag,
    seen: &mut Vec<SeenKey>,
    contents: &[Content],
) -> Result<Option<Rule>, OutOfMemory>
    requires { seen.old.items ≡ map (seen_in before.now) table.now.keys }
    ensures rule { IfOk result (λ b. b ≡ spec.broken_by table.now before.now contents.now) }
    ensures after { IfOk result (λ b. b ≡ None → seen.new.items ≡ map (seen_with contents.now) (map (seen_in before.now) table.now.keys)) }
{
    if has_bad_integer(contents) {
        Ok(Some(Rule::BadInteger))
    } else if has_long_text(contents) {
        Ok(Some(Rule::TooLong))
    } else if has_refused_null(table.columns.as_slice(), contents) {
        Ok(Some(Rule::NullInNotNull))
    } else if repeats_key(alloc, table, before, seen, contents)? {
        Ok(Some(Rule::DuplicateKey))
    } else if has_bad_utf8(contents) {
        Ok(Some(Rule::BadUtf8))
    } else if MAX_ROWS <= before.len() {
        Ok(Some(Rule::TooManyRows))
    } else {
        Ok(None)
    }
}

// The refusal of the record that follows as many rows, by a rule.
fn refusal(before: usize, rule: Rule) -> TableRefusal
    requires { before ≤ 1000000 }
    ensures { result ≡ TableRefusal.Broken rule (before + 1) }
{
    TableRefusal::Broken {
        rule,
        record_number: before as u64 + 1,
    }
}

// The row of a record that follows these rows; the keys are then seen with its cells.
fn row_after(
    alloc: Global,
    table: &TableDescriptor,
    before: &Bag,
    seen: &mut Vec<SeenKey>,
    fields: &ByteRecord,
) -> Result<Row, TableRefusal>
    requires few { length before.now ≤ 1000000 }
    requires seen { seen.old.items ≡ map (seen_in before.now) table.now.keys }
    ensures row { Gives (spec.row_after table.now before.now (fields_of fields.now)) result }
    ensures few { IfOk result (λ row. length before.now < 1000000) }
    ensures seen { IfOk result (λ row. seen.new.items ≡ map (seen_in (before.now ++ row ∷ [])) table.now.keys) }
{
    if fields.len() != table.columns.len() {
        return Err(refusal(before.len(), Rule::FieldCount));
    }
    let contents = contents(alloc, table.columns.as_slice(), fields)?;
    match broken_by(alloc, table, before, seen, &contents)? {
        Some(rule) => Err(refusal(before.len(), rule)),
        None => Ok(Row {
            cells: cells(alloc, contents)?,
            level: Level::Yes,
        }),
    }
}

// Takes the records up to the first that breaks a rule other than that of keys, whose fields are
// then there, and tells whether there is one.
fn take_rows(
    alloc: Global,
    keyless: &TableDescriptor,
    records: &mut Records,
    fields: &mut ByteRecord,
    rows: &mut Bag,
) -> Result<bool, OutOfMemory>
    requires keys { keyless.now.keys ≡ [] }
    requires rows { rows.old ≡ [] }
    ensures few { OnOk result (length rows.new ≤ 1000000) }
    ensures rows { IfOk result (λ stopped. checked.TakesRows keyless.now records.old rows.new (checked.left stopped (fields_of fields.new) records.new)) }
    ensures stops { IfOk result (λ stopped. stopped ≡ true → IsErr (spec.row_after keyless.now rows.new (fields_of fields.new))) }
{
    let mut seen = Vec::new(alloc);
    while records.next(fields)? {
        match row_after(alloc, keyless, &*rows, &mut seen, fields) {
            Ok(row) => rows.push(row)?,
            Err(TableRefusal::Broken { .. }) => return Ok(true),
            Err(TableRefusal::Memory) => return Err(OutOfMemory),
        }
    }
    Ok(false)
}

// The keys with the cells of these rows. It fails at the first row whose cells of a key equal those
// of an earlier one.
fn seen_after(
    alloc: Global,
    keys: &[KeyDescriptor],
    rows: &Bag,
) -> Result<Vec<SeenKey>, TableRefusal>
    requires { length rows.now ≤ 1000000 }
    ensures seen { IfOk result (λ v. checked.keys_checked keys.now [] rows.now ≡ Ok v.items) }
    ensures refused { IfErr result (λ e. Gives (checked.keys_checked keys.now [] rows.now) (Err e)) }
{
    let mut seen = nothing_seen(alloc, keys, rows.len())?;
    for i in 0..rows.len() {
        if repeats(alloc, &mut seen, &rows.at(i))? {
            return Err(refusal(i, Rule::DuplicateKey));
        }
    }
    Ok(seen)
}

// The rows of the records, up to the first that breaks a rule. The keys are checked once the rows
// stand: by hashes, and where those leave it open, row by row.
fn rows(alloc: Global, table: TableDescriptor, records: &mut Records) -> Result<Bag, TableRefusal>
    ensures { Gives (spec.rows_after table [] records.old) result }
{
    let TableDescriptor { columns, keys } = table;
    let keyless = TableDescriptor {
        columns,
        keys: Items::new(alloc),
    };
    let mut fields = ByteRecord::new(alloc);
    let mut rows = Bag::new(alloc);
    let stopped = take_rows(alloc, &keyless, records, &mut fields, &mut rows)?;
    if !stopped && keys_differ(alloc, keys.as_slice(), &rows)? {
        return Ok(rows);
    }
    let mut seen = seen_after(alloc, keys.as_slice(), &rows)?;
    if !stopped {
        return Ok(rows);
    }
    let table = TableDescriptor {
        columns: keyless.columns,
        keys,
    };
    match row_after(alloc, &table, &rows, &mut seen, &fields) {
        Ok(_) => unreachable!(),
        Err(refusal) => Err(refusal),
    }
}

// Takes the header, and tells whether its fields are for the table's columns, in declared order.
fn takes_header(
    alloc: Global,
    table: &TableDescriptor,
    records: &mut Records,
) -> Result<bool, OutOfMemory>
    ensures { IfOk result (λ fits. MatchBool fits (spec.under_header table.now records.old ≡ spec.rows_after table.now [] records.new) (spec.under_header table.now records.old ≡ Err (spec.at_header Rule.Header))) }
{
    let mut header = ByteRecord::new(alloc);
    if !records.next(&mut header)? {
        return Ok(false);
    }
    fits_header(alloc, table.columns.as_slice(), &header)
}

// The rows of the records behind the header. A key that is declared again is checked once.
fn read_rows(
    alloc: Global,
    table: TableDescriptor,
    records: &mut Records,
) -> Result<Bag, TableRefusal>
    ensures { Gives (spec.under_header table records.old) result }
{
    if !takes_header(alloc, &table, records)? {
        return Err(TableRefusal::Broken {
            rule: Rule::Header,
            record_number: 0,
        });
    }
    let table = keyed_once(alloc, table)?;
    rows(alloc, table, records)
}

/// The rows of a table's file, in the file's order. It fails at the first record that breaks a
/// rule, with the rule of the least number that this record breaks, and for want of memory.
pub fn read_table(alloc: Global, decl: &TableDecl, bytes: &[u8]) -> Result<Bag, TableRefusal>
    ensures { Gives (spec.table_rows (describe decl.now.elements) bytes.now) result }
{
    let table = describe(alloc, decl)?;
    let mut records = Records::new(alloc, bytes);
    read_rows(alloc, table, &mut records)
}
