// What refuses a schema.
ghost use Rattle.std.specs.Prelude.{◌≡◌, ◌++◌, ◌∷◌, [], ◌||◌, Ok, Err, IfOk, IsErrOf, Some, None, map, nat_lt, count_by};
ghost use Rattle.std.specs.List.{list_any};
ghost use Rattle.sql_ast.specs.Shown as shown;
ghost use Rattle.sql_ast.specs.Declarations as schema;
ghost use Rattle.sql_catalog.specs.Catalog as catalog;
ghost use Rattle.sql_ast.specs.Names.{contains, has_twins};
ghost use Rattle.sql_catalog.specs.Nesting.{readers_of};
ghost use Rattle.sql_catalog.specs.declared.refusal.SchemaRefusal.TheVariants as SchemaRefusal;

use crate::key::{Key, column_names, keys};
use crate::limits::{are_too_many, one_is_over_limits};
use crate::name_list::note;
use crate::name_set::{NameSet, has_twins, lacks_one};
use crate::nesting::{is_recursive, one_nests_over};
use crate::reader::{Reader, readers};
use crate::refusal::SchemaRefusal;
use shared_types::OutOfMemory;
use sql_ast::{Names, TableDecl, ViewDecl};
use sql_text::Name;
use sqlite_items::Items;
use std::alloc::Global;

// How deep views may nest.
const MAX_DEPTH: usize = 16;

// The names of tables, in order.
fn table_names(alloc: Global, tables: &[TableDecl]) -> Result<Names, OutOfMemory>
    ensures { IfOk result (λ names. names ≡ schema.table_names tables.now) }
{
    let mut names = Items::new(alloc);
    for table in tables {
        note(alloc, &table.name, &mut names)?;
    }
    Ok(names)
}

// The names of tables and views.
fn known_names(
    alloc: Global,
    tables: &[TableDecl],
    views: &[ViewDecl],
) -> Result<Names, OutOfMemory>
    ensures { IfOk result (λ names. names ≡ schema.known_names (schema.declares tables.now (map shown.view views.now))) }
{
    let mut names = table_names(alloc, tables)?;
    for view in views {
        note(alloc, &view.name, &mut names)?;
    }
    Ok(names)
}

// Whether a view reads a name that is not known.
fn one_reads_unknown(known: &NameSet, views: &[Reader]) -> bool
    ensures { result ≡ catalog.reads_unknown known.now views.now }
{
    views
        .iter()
        .any(|view| lacks_one(known, view.reads.as_slice()))
}

// Whether a view reads a name that is not among the known ones.
fn reads_unknown(alloc: Global, known: &[Name], views: &[Reader]) -> Result<bool, OutOfMemory>
    ensures { IfOk result (λ found. found ≡ catalog.reads_unknown known.now views.now) }
{
    let known = NameSet::of(alloc, known)?;
    Ok(one_reads_unknown(&known, views))
}

// Whether two columns of a table are equal.
fn has_twin_columns(alloc: Global, table: &TableDecl) -> Result<bool, OutOfMemory>
    ensures { IfOk result (λ found. found ≡ catalog.has_twin_columns table.now) }
{
    let names = column_names(alloc, table.elements.as_slice())?;
    has_twins(alloc, names.as_slice())
}

// Whether two columns of one of the tables are equal.
fn tables_have_twins(alloc: Global, tables: &[TableDecl]) -> Result<bool, OutOfMemory>
    ensures { IfOk result (λ found. found ≡ list_any catalog.has_twin_columns tables.now) }
{
    for table in tables {
        if has_twin_columns(alloc, table)? {
            return Ok(true);
        }
    }
    Ok(false)
}

// Whether two names of the list of one of the views are equal.
fn views_have_twins(alloc: Global, views: &[ViewDecl]) -> Result<bool, OutOfMemory>
    ensures { IfOk result (λ found. found ≡ catalog.has_twin_list (map shown.view views.now)) }
{
    for view in views {
        if has_twins(alloc, view.columns.as_slice())? {
            return Ok(true);
        }
    }
    Ok(false)
}

// Whether two tables or views, two columns of a table, or two names in a view's list are equal.
fn has_duplicate(
    alloc: Global,
    known: &[Name],
    tables: &[TableDecl],
    views: &[ViewDecl],
) -> Result<bool, OutOfMemory>
    ensures { IfOk result (λ found. found ≡ (has_twins known.now || (list_any catalog.has_twin_columns tables.now || catalog.has_twin_list (map shown.view views.now)))) }
{
    if has_twins(alloc, known)? || tables_have_twins(alloc, tables)? {
        return Ok(true);
    }
    views_have_twins(alloc, views)
}

// Whether a key names a column that is not among these, or one column twice.
fn is_bad_key(alloc: Global, columns: &NameSet, key: &Key) -> Result<bool, OutOfMemory>
    ensures { IfOk result (λ bad. bad ≡ catalog.is_bad_key columns.now key.now) }
{
    if lacks_one(columns, key.columns.as_slice()) {
        return Ok(true);
    }
    has_twins(alloc, key.columns.as_slice())
}

// Whether one of the keys is bad.
fn one_is_bad(alloc: Global, columns: &NameSet, keys: &[Key]) -> Result<bool, OutOfMemory>
    ensures { IfOk result (λ bad. bad ≡ list_any (catalog.is_bad_key columns.now) keys.now) }
{
    for key in keys {
        if is_bad_key(alloc, columns, key)? {
            return Ok(true);
        }
    }
    Ok(false)
}

// Whether one of the keys of a table with these columns is bad.
fn has_bad_one(alloc: Global, columns: &[Name], keys: &[Key]) -> Result<bool, OutOfMemory>
    ensures { IfOk result (λ bad. bad ≡ list_any (catalog.is_bad_key columns.now) keys.now) }
{
    let columns = NameSet::of(alloc, columns)?;
    one_is_bad(alloc, &columns, keys)
}

// How many of the keys are primary.
fn primary_count(keys: &[Key]) -> usize
    ensures { result ≡ count_by catalog.is_primary keys.now }
{
    keys.iter().filter(|key| key.primary).count()
}

// Whether a key of a table is bad, or the table has two primary keys.
fn has_bad_key(alloc: Global, table: &TableDecl) -> Result<bool, OutOfMemory>
    ensures { IfOk result (λ bad. bad ≡ catalog.has_bad_key table.now) }
{
    let columns = column_names(alloc, table.elements.as_slice())?;
    let keys = keys(alloc, table.elements.as_slice())?;
    if has_bad_one(alloc, columns.as_slice(), keys.as_slice())? {
        return Ok(true);
    }
    Ok(primary_count(keys.as_slice()) > 1)
}

// Whether a key of one of the tables is bad, or one has two primary keys.
fn one_has_bad_key(alloc: Global, tables: &[TableDecl]) -> Result<bool, OutOfMemory>
    ensures { IfOk result (λ bad. bad ≡ list_any catalog.has_bad_key tables.now) }
{
    for table in tables {
        if has_bad_key(alloc, table)? {
            return Ok(true);
        }
    }
    Ok(false)
}

// Whether there are over 64 tables or over 64 views, a table is over its limits, or views nest over
// 16 deep.
fn passes_limits(alloc: Global, tables: &[TableDecl], views: &[Reader]) -> Result<bool, OutOfMemory>
    ensures { IfOk result (λ over. over ≡ catalog.passes_limits tables.now views.now) }
{
    if are_too_many(tables.len(), views.len()) || one_is_over_limits(alloc, tables)? {
        return Ok(true);
    }
    one_nests_over(alloc, views, MAX_DEPTH)
}

// Refuses tables and views, whose names and reads these are, by the first cause that holds of them.
fn refuse_by(
    alloc: Global,
    known: &[Name],
    reads: &[Reader],
    tables: &[TableDecl],
    views: &[ViewDecl],
) -> Result<(), SchemaRefusal>
    requires known { known.now ≡ schema.known_names (schema.declares tables.now (map shown.view views.now)) }
    requires reads { reads.now ≡ readers_of (map shown.view views.now) }
    ensures valid { IfOk result (λ _. catalog.fault (schema.declares tables.now (map shown.view views.now)) ≡ None) }
    ensures unknown_table { IsErrOf result SchemaRefusal.UnknownTable → catalog.fault (schema.declares tables.now (map shown.view views.now)) ≡ Some 6 }
    ensures recursive_view { IsErrOf result SchemaRefusal.RecursiveView → catalog.fault (schema.declares tables.now (map shown.view views.now)) ≡ Some 7 }
    ensures duplicate_name { IsErrOf result SchemaRefusal.DuplicateName → catalog.fault (schema.declares tables.now (map shown.view views.now)) ≡ Some 8 }
    ensures bad_key { IsErrOf result SchemaRefusal.BadKey → catalog.fault (schema.declares tables.now (map shown.view views.now)) ≡ Some 9 }
    ensures limits { IsErrOf result SchemaRefusal.Limits → catalog.fault (schema.declares tables.now (map shown.view views.now)) ≡ Some 10 }
{
    if reads_unknown(alloc, known, reads)? {
        return Err(SchemaRefusal::UnknownTable);
    }
    if is_recursive(alloc, reads)? {
        return Err(SchemaRefusal::RecursiveView);
    }
    if has_duplicate(alloc, known, tables, views)? {
        return Err(SchemaRefusal::DuplicateName);
    }
    if one_has_bad_key(alloc, tables)? {
        return Err(SchemaRefusal::BadKey);
    }
    if passes_limits(alloc, tables, reads)? {
        return Err(SchemaRefusal::Limits);
    }
    Ok(())
}

/// Refuses tables and views by the first cause that holds of them.
pub fn refuse(alloc: Global, tables: &[TableDecl], views: &[ViewDecl]) -> Result<(), SchemaRefusal>
    ensures valid { IfOk result (λ _. catalog.fault (schema.declares tables.now (map shown.view views.now)) ≡ None) }
    ensures unknown_table { IsErrOf result SchemaRefusal.UnknownTable → catalog.fault (schema.declares tables.now (map shown.view views.now)) ≡ Some 6 }
    ensures recursive_view { IsErrOf result SchemaRefusal.RecursiveView → catalog.fault (schema.declares tables.now (map shown.view views.now)) ≡ Some 7 }
    ensures duplicate_name { IsErrOf result SchemaRefusal.DuplicateName → catalog.fault (schema.declares tables.now (map shown.view views.now)) ≡ Some 8 }
    ensures bad_key { IsErrOf result SchemaRefusal.BadKey → catalog.fault (schema.declares tables.now (map shown.view views.now)) ≡ Some 9 }
    ensures limits { IsErrOf result SchemaRefusal.Limits → catalog.fault (schema.declares tables.now (map shown.view views.now)) ≡ Some 10 }
{
    let known = known_names(alloc, tables, views)?;
    let reads = readers(alloc, views)?;
    refuse_by(alloc, known.as_slice(), reads.as_slice(), tables, views)
}
