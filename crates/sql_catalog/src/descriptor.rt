// What a table declares, as those who read it need it.
ghost use Rattle.std.specs.Prelude.{◌≡◌, ◌++◌, ◌∷◌, [], ◌&&◌, IfOk, OnOk, map};
ghost use Rattle.sql_catalog.specs.Descriptor as spec;
ghost use Rattle.sql_ast.specs.Declarations.{columns_of, names_of};

use crate::key::{Key, column_names, keys};
use shared_types::OutOfMemory;
use sql_ast::{ColumnConstraint, ColumnDecl, DataType, Element, TableDecl};
use sql_text::Name;
use sqlite_items::Items;
use std::alloc::Global;

/// A column of a table (SQL-92, 4.8).
#[derive(Drop)]
pub struct ColumnDescriptor {
    pub name: Name,
    pub data_type: DataType,
    /// Whether it is declared NOT NULL, or is one of the primary key's columns.
    pub not_null: bool,
}

/// A key of a table (SQL-92, 4.10.2).
#[derive(Drop)]
pub struct KeyDescriptor {
    /// Whether it is declared by PRIMARY KEY, and not by UNIQUE.
    pub primary: bool,
    /// The places of its columns in the table, from 0.
    pub places: Items<usize>,
}

/// The columns of a table in order, and its keys in the order of the text (SQL-92, 4.9).
#[derive(Drop)]
pub struct TableDescriptor {
    pub columns: Items<ColumnDescriptor>,
    pub keys: Items<KeyDescriptor>,
}

// Whether NOT NULL is one of the constraints.
fn is_marked(constraints: &[ColumnConstraint]) -> bool
    ensures { result ≡ spec.is_marked constraints.now }
{
    for constraint in constraints {
        match constraint {
            ColumnConstraint::NotNull => return true,
            ColumnConstraint::PrimaryKey | ColumnConstraint::Unique => {}
        }
    }
    false
}

// Whether a column of this name is one of a primary key.
fn in_primary(keys: &[Key], name: &Name) -> bool
    ensures { result ≡ spec.in_primary keys.now name.now }
{
    for key in keys {
        if key.primary && key.columns.as_slice().contains(name) {
            return true;
        }
    }
    false
}

fn describe_column(
    alloc: Global,
    keys: &[Key],
    column: &ColumnDecl,
) -> Result<ColumnDescriptor, OutOfMemory>
    ensures { IfOk result (λ d. d ≡ spec.describe_column keys.now column.now) }
{
    let not_null = is_marked(column.constraints.as_slice()) || in_primary(keys, &column.name);
    Ok(ColumnDescriptor {
        name: column.name.copy(alloc)?,
        data_type: column.data_type,
        not_null,
    })
}

// Adds the column that an element is, if it is one.
fn add_column(
    alloc: Global,
    keys: &[Key],
    element: &Element,
    all: &mut Items<ColumnDescriptor>,
) -> Result<(), OutOfMemory>
    ensures { OnOk result (all.new ≡ all.old ++ map (spec.describe_column keys.now) (columns_of (element.now ∷ []))) }
{
    match element {
        Element::Column(column) => {
            all.push(describe_column(alloc, keys, column)?)?;
            Ok(())
        }
        Element::PrimaryKey(_) | Element::Unique(_) => Ok(()),
    }
}

fn describe_columns(
    alloc: Global,
    keys: &[Key],
    elements: &[Element],
) -> Result<Items<ColumnDescriptor>, OutOfMemory>
    ensures { IfOk result (λ all. all ≡ map (spec.describe_column keys.now) (columns_of elements.now)) }
{
    let mut all = Items::new(alloc);
    for element in elements {
        add_column(alloc, keys, element, &mut all)?;
    }
    Ok(all)
}

// The place, from 0, of the first of the names that is this one; their number where none is.
fn place_of(names: &[Name], name: &Name) -> usize
    ensures { result ≡ spec.place_of names.now name.now }
{
    for i in 0..names.len() {
        if names[i] == *name {
            return i;
        }
    }
    names.len()
}

fn describe_key(alloc: Global, names: &[Name], key: &Key) -> Result<KeyDescriptor, OutOfMemory>
    ensures { IfOk result (λ d. d ≡ spec.describe_key names.now key.now) }
{
    let mut places = Items::new(alloc);
    for column in key.columns.as_slice() {
        places.push(place_of(names, column))?;
    }
    Ok(KeyDescriptor {
        primary: key.primary,
        places,
    })
}

fn describe_keys(
    alloc: Global,
    names: &[Name],
    keys: &[Key],
) -> Result<Items<KeyDescriptor>, OutOfMemory>
    ensures { IfOk result (λ all. all ≡ map (spec.describe_key names.now) keys.now) }
{
    let mut all = Items::new(alloc);
    for key in keys {
        all.push(describe_key(alloc, names, key)?)?;
    }
    Ok(all)
}

// The keys of a table's elements, each column by its place.
fn placed_keys(
    alloc: Global,
    elements: &[Element],
    keys: &[Key],
) -> Result<Items<KeyDescriptor>, OutOfMemory>
    ensures { IfOk result (λ all. all ≡ map (spec.describe_key (names_of (columns_of elements.now))) keys.now) }
{
    let names = column_names(alloc, elements)?;
    describe_keys(alloc, names.as_slice(), keys)
}

/// What a table declares. A name of a key that is no column of the table, which a table of a
/// catalog has not, has the place after the last.
pub fn describe(alloc: Global, table: &TableDecl) -> Result<TableDescriptor, OutOfMemory>
    ensures { IfOk result (λ d. d ≡ spec.describe table.now.elements) }
{
    let elements = table.elements.as_slice();
    let declared = keys(alloc, elements)?;
    let columns = describe_columns(alloc, declared.as_slice(), elements)?;
    let keys = placed_keys(alloc, elements, declared.as_slice())?;
    Ok(TableDescriptor { columns, keys })
}
