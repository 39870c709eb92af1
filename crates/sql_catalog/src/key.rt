// The columns and keys of a declared table.
ghost use Rattle.std.specs.Prelude.{◌≡◌, ◌++◌, ◌∷◌, [], IfOk, OnOk};
ghost use Rattle.sql_ast.specs.Declarations.{columns_of, names_of, types_of};
ghost use Rattle.sql_catalog.specs.Keys.{key, column_keys, keys_of};

use crate::name_list::note;
use shared_types::OutOfMemory;
use sql_ast::{ColumnConstraint, ColumnDecl, DataType, Element, Names};
use sql_text::Name;
use sqlite_items::Items;
use std::alloc::Global;

/// A key of a table (SQL-92, 11.7).
#[derive(Drop)]
pub struct Key {
    /// Whether it is declared by PRIMARY KEY, and not by UNIQUE.
    pub primary: bool,
    /// The names of its columns.
    pub columns: Names,
}

/// The names of the columns among a table's elements, in order.
pub fn column_names(alloc: Global, elements: &[Element]) -> Result<Names, OutOfMemory>
    ensures { IfOk result (λ names. names ≡ names_of (columns_of elements.now)) }
{
    let mut names = Items::new(alloc);
    for element in elements {
        match element {
            Element::Column(column) => note(alloc, &column.name, &mut names)?,
            Element::PrimaryKey(_) | Element::Unique(_) => {}
        }
    }
    Ok(names)
}

/// The types of the columns among a table's elements, in order.
pub fn column_types(alloc: Global, elements: &[Element]) -> Result<Items<DataType>, OutOfMemory>
    ensures { IfOk result (λ all. all ≡ types_of (columns_of elements.now)) }
{
    let mut all = Items::new(alloc);
    for element in elements {
        match element {
            Element::Column(column) => all.push(column.data_type)?,
            Element::PrimaryKey(_) | Element::Unique(_) => {}
        }
    }
    Ok(all)
}

// Adds the key that is one column.
fn add_column_key(
    alloc: Global,
    primary: bool,
    name: &Name,
    all: &mut Items<Key>,
) -> Result<(), OutOfMemory>
    ensures { OnOk result (all.new ≡ all.old ++ key primary (name.now ∷ []) ∷ []) }
{
    let mut columns = Items::new(alloc);
    note(alloc, name, &mut columns)?;
    all.push(Key { primary, columns })?;
    Ok(())
}

// Adds the key of these columns.
fn add_key(
    alloc: Global,
    primary: bool,
    names: &[Name],
    all: &mut Items<Key>,
) -> Result<(), OutOfMemory>
    ensures { OnOk result (all.new ≡ all.old ++ key primary names.now ∷ []) }
{
    let mut columns = Items::new(alloc);
    for name in names {
        note(alloc, name, &mut columns)?;
    }
    all.push(Key { primary, columns })?;
    Ok(())
}

// Adds the keys that the constraints after a column declare, in order.
fn add_column_keys(
    alloc: Global,
    column: &ColumnDecl,
    all: &mut Items<Key>,
) -> Result<(), OutOfMemory>
    ensures { OnOk result (all.new ≡ all.old ++ column_keys column.now.name column.now.constraints) }
{
    for constraint in column.constraints.as_slice() {
        match constraint {
            ColumnConstraint::NotNull => {}
            ColumnConstraint::PrimaryKey => add_column_key(alloc, true, &column.name, all)?,
            ColumnConstraint::Unique => add_column_key(alloc, false, &column.name, all)?,
        }
    }
    Ok(())
}

// Adds the keys that an element declares, in order.
fn add_keys(alloc: Global, element: &Element, all: &mut Items<Key>) -> Result<(), OutOfMemory>
    ensures { OnOk result (all.new ≡ all.old ++ keys_of (element.now ∷ [])) }
{
    match element {
        Element::Column(column) => add_column_keys(alloc, column, all),
        Element::PrimaryKey(names) => add_key(alloc, true, names.as_slice(), all),
        Element::Unique(names) => add_key(alloc, false, names.as_slice(), all),
    }
}

/// The keys that a table's elements declare, in order.
pub fn keys(alloc: Global, elements: &[Element]) -> Result<Items<Key>, OutOfMemory>
    ensures { IfOk result (λ all. all ≡ keys_of elements.now) }
{
    let mut all = Items::new(alloc);
    for element in elements {
        add_keys(alloc, element, &mut all)?;
    }
    Ok(all)
}
