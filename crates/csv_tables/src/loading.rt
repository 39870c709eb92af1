// The tables of a catalog, from their files.
ghost use Rattle.std.specs.Prelude.{◌≡◌, ◌≤◌, IfOk, Err};
ghost use Rattle.std.specs.String.{string_bytes};
ghost use Rattle.io_edge.specs.Outcome.{Comes};
ghost use Rattle.csv_tables.specs.TableFile.{path_of, refused, table_of, table_read};
ghost use Rattle.csv_tables.specs.Load.{tables_of};
ghost use Rattle.csv_tables.specs.Loaded.{Answers, loaded, RoseIfReadFault};
ghost use Rattle.csv_tables.specs.Fits.{FitsSchema, FitsTable};

use crate::refusal::{DataRefusal, TableRefusal};
use crate::rule::Rule;
use crate::table::read_table;
use io_edge::{Files, fetch_file};
use row_bag::{Table, Tables};
use shared_types::{OutOfMemory, Text};
use sql_ast::TableDecl;
use sql_catalog::Catalog;
use sqlite_items::Items;
use std::alloc::Global;

/// The greatest number of bytes of a table's file.
const MAX_BYTES: usize = 67_108_864;

// The name of a table's file in a directory.
fn path(alloc: Global, dir: &str, name: &Text) -> Result<String, OutOfMemory>
    ensures { IfOk result (λ s. string_bytes s ≡ path_of dir.now name.now) }
{
    let name = name.to_utf8(alloc)?;
    Ok(format!(in alloc; "{dir}/{name}.csv")?)
}

// The refusal of a table by a rule, at a record.
fn refuse(
    alloc: Global,
    decl: &TableDecl,
    rule: Rule,
    record_number: u64,
) -> Result<Table, DataRefusal>
    ensures { Answers (Err (refused decl.now (record { rule = rule; record_number = record_number }))) (loaded result) }
{
    Err(DataRefusal::Refused {
        number: rule.number(),
        table: decl.name.copy(alloc)?,
        row: record_number,
    })
}

// The table that the bytes of its file hold; the bytes are none where they are too many.
fn table_from(
    alloc: Global,
    decl: &TableDecl,
    bytes: Option<Items<u8>>,
) -> Result<Table, DataRefusal>
    ensures { Answers (table_of decl.now bytes) (loaded result) }
{
    let Some(bytes) = bytes else {
        return refuse(alloc, decl, Rule::TooManyRows, 0);
    };
    match read_table(alloc, decl, bytes.as_slice()) {
        Ok(bag) => Ok(Table {
            name: decl.name.copy(alloc)?,
            bag,
        }),
        Err(
            TableRefusal::Broken {
                rule,
                record_number,
            },
        ) => refuse(alloc, decl, rule, record_number),
        Err(TableRefusal::Memory) => Err(DataRefusal::Memory),
    }
}

// The table that its file in a directory holds.
fn load_table<F: Files>(
    alloc: Global,
    decl: &TableDecl,
    dir: &str,
    files: &mut F,
) -> Result<Table, DataRefusal>
    ensures comes { Comes (F.told files.old) (F.told files.new) (λ fs. table_read decl.now dir.now fs) (loaded result) }
    ensures later { F.faults files.old ≤ F.faults files.new }
    ensures failed { RoseIfReadFault result (F.faults files.old) (F.faults files.new) }
    ensures fits { IfOk result (λ t. FitsTable decl.now t) }
{
    let path = path(alloc, dir, &decl.name)?;
    let bytes = fetch_file(alloc, files, path.as_str(), MAX_BYTES)?;
    table_from(alloc, decl, bytes)
}

/// The tables of a catalog, in declared order, from their files. The name of a table's file is
/// the directory, `/`, the table's name in UTF-8, and `.csv`. The files are read in declared
/// order. It fails with `Refused` at the first table whose file breaks a rule, with the first
/// record that breaks one and the least number of the rules that this record breaks, with
/// `ReadFault` where a read fails, and with `Memory` where memory runs out.
pub fn load<F: Files>(
    alloc: Global,
    catalog: &Catalog,
    dir: &str,
    files: &mut F,
) -> Result<Tables, DataRefusal>
    ensures comes { Comes (F.told files.old) (F.told files.new) (λ fs. tables_of catalog.now.tables dir.now fs) (loaded result) }
    ensures later { F.faults files.old ≤ F.faults files.new }
    ensures failed { RoseIfReadFault result (F.faults files.old) (F.faults files.new) }
    ensures fits { IfOk result (λ ts. FitsSchema catalog.now.tables ts) }
{
    let mut tables = Tables::new(alloc);
    for decl in catalog.tables().as_slice() {
        let table = load_table(alloc, decl, dir, files)?;
        tables.push(table)?;
    }
    Ok(tables)
}
