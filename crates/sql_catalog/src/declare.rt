// From a schema's tree to its catalog.
ghost use Rattle.std.specs.Prelude.{◌≡◌, ◌++◌, ◌∷◌, [], Ok, Err, IfOk, IsErrOf, OnOk, map, reverse};
ghost use Rattle.sql_ast.specs.Declarations.{tables_of, views_of};
ghost use Rattle.sql_ast.specs.Shown as shown;
ghost use Rattle.sql_catalog.specs.Catalog.{all_of, declared};
ghost use Rattle.sql_catalog.specs.Shown.{catalog};
ghost use Rattle.sql_catalog.specs.declared.refusal.SchemaRefusal.TheVariants as SchemaRefusal;

use crate::catalog::{Catalog, TableList, ViewList};
use crate::faults::refuse;
use crate::refusal::SchemaRefusal;
use shared_types::OutOfMemory;
use sql_ast::{Schema, Statement};
use sqlite_items::Items;
use std::alloc::Global;

// The items, last first.
fn reversed<T: Drop>(alloc: Global, items: Items<T>) -> Result<Items<T>, OutOfMemory>
    ensures { IfOk result (λ all. all ≡ reverse items) }
{
    let mut left = items;
    let mut all = Items::new(alloc);
    while let Some(item) = left.pop() {
        all.push(item)?;
    }
    Ok(all)
}

// Adds the table or the view that a statement declares at the end of its list.
fn add(
    statement: Statement,
    tables: &mut TableList,
    views: &mut ViewList,
) -> Result<(), OutOfMemory>
    ensures tables { OnOk result (tables.new ≡ tables.old ++ tables_of (shown.statement statement ∷ [])) }
    ensures views { OnOk result (map shown.view views.new ≡ map shown.view views.old ++ views_of (shown.statement statement ∷ [])) }
{
    match statement {
        Statement::Table(table) => Ok(tables.push(table)?),
        Statement::View(view) => Ok(views.push(view)?),
    }
}

// The tables and views of a schema, each in declared order.
fn split(alloc: Global, schema: Schema) -> Result<Catalog, OutOfMemory>
    ensures { IfOk result (λ c. catalog c ≡ all_of (shown.schema schema)) }
{
    let mut left = reversed(alloc, schema.statements)?;
    let mut tables = Items::new(alloc);
    let mut views = Items::new(alloc);
    while let Some(statement) = left.pop() {
        add(statement, &mut tables, &mut views)?;
    }
    Ok(Catalog { tables, views })
}

/// The catalog that a schema declares: its tables and its views. Else it is the first refusal that
/// holds: `UnknownTable`, `RecursiveView`, `DuplicateName`, `BadKey`, `Limits`. `Memory` may come in
/// place of any of these.
pub fn build(alloc: Global, schema: Schema) -> Result<Catalog, SchemaRefusal>
    ensures built { IfOk result (λ c. declared (shown.schema schema) ≡ Ok (catalog c)) }
    ensures unknown_table { IsErrOf result SchemaRefusal.UnknownTable → declared (shown.schema schema) ≡ Err 6 }
    ensures recursive_view { IsErrOf result SchemaRefusal.RecursiveView → declared (shown.schema schema) ≡ Err 7 }
    ensures duplicate_name { IsErrOf result SchemaRefusal.DuplicateName → declared (shown.schema schema) ≡ Err 8 }
    ensures bad_key { IsErrOf result SchemaRefusal.BadKey → declared (shown.schema schema) ≡ Err 9 }
    ensures limits { IsErrOf result SchemaRefusal.Limits → declared (shown.schema schema) ≡ Err 10 }
{
    let catalog = split(alloc, schema)?;
    refuse(alloc, catalog.tables.as_slice(), catalog.views.as_slice())?;
    Ok(catalog)
}
