// The tables and views that a query may name, and their columns.
ghost use Rattle.std.specs.Prelude.{◌≡◌, ◌++◌, map, option_map, IfOk, OnOk};
ghost use Rattle.sql_ast.specs.Declarations as schema;
ghost use Rattle.sql_faults.specs.Shown as shown;
ghost use Rattle.sql_faults.specs.Views as heads;

use crate::column::{Columns, TypedColumn, copied};
use crate::types::type_of_declared;
use crate::view::ViewHead;
use shared_types::OutOfMemory;
use sql_ast::Element;
use sql_catalog::Catalog;
use sql_text::Name;
use sqlite_items::Items;
use std::alloc::Global;

/// The tables of a catalog, and its views with their columns.
#[derive(Clone, Copy)]
pub(crate) struct Known<'a> {
    pub catalog: &'a Catalog,
    pub views: &'a [ViewHead],
}

// The columns that a table declares, with their types.
fn table_columns(alloc: Global, elements: &[Element]) -> Result<Columns, OutOfMemory>
    ensures { IfOk result (λ columns. columns ≡ map heads.typed (schema.columns_of elements.now)) }
{
    let mut columns = Items::new(alloc);
    for element in elements {
        match element {
            Element::Column(column) => columns.push(TypedColumn {
                name: Some(column.name.copy(alloc)?),
                sort: Some(type_of_declared(&column.data_type)),
            })?,
            Element::PrimaryKey(_) | Element::Unique(_) => {}
        }
    }
    Ok(columns)
}

// The first of these views that has the name.
fn view_named<'a>(views: &'a [ViewHead], name: &Name) -> Option<&'a ViewHead>
    ensures { option_map (λ v. v.now.columns) result ≡ heads.view_named views.now name.now }
{
    for view in views {
        if view.name == *name {
            return Some(view);
        }
    }
    None
}

// The columns of a table or view; none where the name is neither.
pub(crate) fn columns_of(
    alloc: Global,
    known: &Known<'_>,
    name: &Name,
) -> Result<Option<Columns>, OutOfMemory>
    ensures { IfOk result (λ found. found ≡ shown.heads known.now name.now) }
{
    match known.catalog.table(name) {
        Some(table) => Ok(Some(table_columns(alloc, table.elements.as_slice())?)),
        None => match view_named(known.views, name) {
            Some(view) => Ok(Some(copied(alloc, view.columns.as_slice())?)),
            None => Ok(None),
        },
    }
}
