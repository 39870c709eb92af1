// What a graph knows of a declared table.
ghost use Rattle.std.specs.Prelude.{◌≡◌, ◌++◌, IfOk, OnOk, filter, map, suc};
ghost use Rattle.sql_faults.specs.Columns as columns;
ghost use Rattle.qgm_translation_laws.specs.Sources as spec;
ghost use Rattle.qgm_build.specs.Schema.{base_of};

use qgm_build_terms::after;
use qgm_core::BaseTable;
use shared_types::{OutOfMemory, Text};
use sql_ast::{DataType, TableDecl};
use sql_catalog::{ColumnDescriptor, KeyDescriptor, TableDescriptor, describe};
use sql_value::SqlType;
use sqlite_items::Items;
use std::alloc::Global;

// The type of what is declared so.
fn type_of_declared(of: &DataType) -> SqlType
    ensures { result ≡ columns.type_of_declared of.now }
{
    match of {
        DataType::Integer | DataType::Int => SqlType::Integer,
        DataType::Varchar(_) => SqlType::Varchar,
    }
}

// The types of columns.
fn column_types(alloc: Global, columns: &[ColumnDescriptor]) -> Result<Items<SqlType>, OutOfMemory>
    ensures { IfOk result (λ types. types ≡ map spec.column_type columns.now) }
{
    let mut types = Items::new(alloc);
    for column in columns {
        types.push(type_of_declared(&column.data_type))?;
    }
    Ok(types)
}

// The places of a key's columns, from 1.
fn key_places(alloc: Global, key: &KeyDescriptor) -> Result<Items<usize>, OutOfMemory>
    ensures { IfOk result (λ places. places ≡ spec.key_places key.now) }
{
    let mut places = Items::new(alloc);
    for place in key.places.as_slice() {
        places.push(after(*place)?)?;
    }
    Ok(places)
}

// Adds PRIMARY KEY, if it is among these.
fn add_primary(
    alloc: Global,
    keys: &[KeyDescriptor],
    out: &mut Items<Items<usize>>,
) -> Result<(), OutOfMemory>
    ensures { OnOk result (out.new ≡ out.old ++ map spec.key_places (filter spec.is_primary keys.now)) }
{
    for key in keys {
        if key.primary {
            out.push(key_places(alloc, key)?)?;
        }
    }
    Ok(())
}

// Adds each UNIQUE among these.
fn add_unique(
    alloc: Global,
    keys: &[KeyDescriptor],
    out: &mut Items<Items<usize>>,
) -> Result<(), OutOfMemory>
    ensures { OnOk result (out.new ≡ out.old ++ map spec.key_places (filter spec.is_unique keys.now)) }
{
    for key in keys {
        if !key.primary {
            out.push(key_places(alloc, key)?)?;
        }
    }
    Ok(())
}

// The places of the columns that hold no null.
fn not_null(alloc: Global, columns: &[ColumnDescriptor]) -> Result<Items<usize>, OutOfMemory>
    ensures { IfOk result (λ places. places ≡ spec.not_null_from 1 columns.now) }
{
    let mut places = Items::new(alloc);
    let mut k = 1;
    for column in columns {
        if column.not_null {
            places.push(k)?;
        }
        k = after(k)?;
    }
    Ok(places)
}

// The keys of a table, PRIMARY KEY before each UNIQUE.
fn all_keys(alloc: Global, keys: &[KeyDescriptor]) -> Result<Items<Items<usize>>, OutOfMemory>
    ensures { IfOk result (λ all. all ≡ map spec.key_places (filter spec.is_primary keys.now) ++ map spec.key_places (filter spec.is_unique keys.now)) }
{
    let mut all = Items::new(alloc);
    let primary = add_primary(alloc, keys, &mut all);
    let unique = add_unique(alloc, keys, &mut all);
    primary.and(unique)?;
    Ok(all)
}

// A table of this name that is described so.
fn table_of(alloc: Global, name: &Text, found: &TableDescriptor) -> Result<BaseTable, OutOfMemory>
    ensures { IfOk result (λ b. b ≡ spec.stored_table name.now found.now) }
{
    let name = name.copy(alloc)?;
    let types = column_types(alloc, found.columns.as_slice())?;
    let keys = all_keys(alloc, found.keys.as_slice())?;
    let not_null = not_null(alloc, found.columns.as_slice())?;
    Ok(BaseTable {
        name,
        types,
        keys,
        not_null,
    })
}

/// A declared table: its columns, its keys, PRIMARY KEY before each UNIQUE, and its not-null columns.
pub(crate) fn base_table(alloc: Global, table: &TableDecl) -> Result<BaseTable, OutOfMemory>
    ensures { IfOk result (λ b. b ≡ base_of table.now) }
{
    let found = describe(alloc, table)?;
    table_of(alloc, &table.name, &found)
}
