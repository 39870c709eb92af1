// How many columns the tables and the views of a schema have.
ghost use Rattle.std.specs.Prelude.{◌≡◌, ◌++◌, IfOk, OnOk, length, map};
ghost use Rattle.sql_ast.specs.Declarations.{columns_of};
ghost use Rattle.qgm_translation_laws.specs.Typing.{known_types};
ghost use Rattle.qgm_build.specs.Schema.{named_table, named_view, schema_named};

use qgm_build_terms::{Named, after};
use shared_types::OutOfMemory;
use sql_ast::{Element, TableDecl};
use sql_catalog::Catalog;
use sql_check::Views;
use sql_faults::{TypedColumn, ViewHead};
use std::alloc::Global;

// How many columns a table has.
fn table_columns(elements: &[Element]) -> Result<usize, OutOfMemory>
    ensures { IfOk result (λ n. n ≡ length (columns_of elements.now)) }
{
    let mut n = 0;
    for element in elements {
        match element {
            Element::Column(_) => n = after(n)?,
            Element::PrimaryKey(_) | Element::Unique(_) => {}
        }
    }
    Ok(n)
}

// How many of these columns have a known type.
fn known_columns(columns: &[TypedColumn]) -> Result<usize, OutOfMemory>
    ensures { IfOk result (λ n. n ≡ length (known_types columns.now)) }
{
    let mut n = 0;
    for column in columns {
        if column.sort.is_some() {
            n = after(n)?;
        }
    }
    Ok(n)
}

// Adds tables.
fn add_tables(alloc: Global, tables: &[TableDecl], out: &mut Vec<Named>) -> Result<(), OutOfMemory>
    ensures { OnOk result (out.new.items ≡ out.old.items ++ map named_table tables.now) }
{
    for table in tables {
        let columns = table_columns(table.elements.as_slice())?;
        let name = table.name.copy(alloc)?;
        out.push(Named { name, columns })?;
    }
    Ok(())
}

// Adds views.
fn add_views(alloc: Global, views: &[ViewHead], out: &mut Vec<Named>) -> Result<(), OutOfMemory>
    ensures { OnOk result (out.new.items ≡ out.old.items ++ map named_view views.now) }
{
    for view in views {
        let columns = known_columns(view.columns.as_slice())?;
        let name = view.name.copy(alloc)?;
        out.push(Named { name, columns })?;
    }
    Ok(())
}

/// The tables of a schema, and then its views.
pub(crate) fn named_of(
    alloc: Global,
    catalog: &Catalog,
    views: &Views,
) -> Result<Vec<Named>, OutOfMemory>
    ensures { IfOk result (λ v. v.items ≡ schema_named catalog.now views.now) }
{
    let mut out = Vec::new(alloc);
    add_tables(alloc, catalog.tables.as_slice(), &mut out)?;
    add_views(alloc, views.heads.list.as_slice(), &mut out)?;
    Ok(out)
}
