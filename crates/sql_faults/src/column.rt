// Columns and ranges with their types.
ghost use Rattle.std.specs.Prelude.{◌≡◌, ◌++◌, IfOk, OnOk};
ghost use Rattle.sql_faults.specs.Columns as spec;
ghost use Rattle.sql_faults.specs.Numbers.{number};
ghost use Rattle.sql_faults.specs.Rules as rule;
ghost use Rattle.sql_faults.specs.Scopes as scope;

use crate::fault::{Fault, fault_if};
use shared_types::OutOfMemory;
use sql_text::Name;
use sql_value::SqlType;
use sqlite_items::Items;
use std::alloc::Global;

/// A column: its name, if it has one, and its type, where that is known.
#[derive(Drop)]
pub struct TypedColumn {
    pub name: Option<Name>,
    pub sort: Option<SqlType>,
}

/// A table of a FROM under its range name, with its columns (SQL-92, 6.3).
#[derive(Drop)]
pub struct TypedRange {
    pub name: Name,
    pub columns: Items<TypedColumn>,
}

/// Columns, in order.
pub type Columns = Items<TypedColumn>;

// An equal name, or none.
fn copied_name(alloc: Global, name: &Option<Name>) -> Result<Option<Name>, OutOfMemory>
    ensures { IfOk result (λ x. x ≡ name.now) }
{
    match name {
        Some(name) => Ok(Some(name.copy(alloc)?)),
        None => Ok(None),
    }
}

// Adds equal columns at the end.
pub(crate) fn push_copies(
    alloc: Global,
    out: &mut Columns,
    columns: &[TypedColumn],
) -> Result<(), OutOfMemory>
    ensures { OnOk result (out.new ≡ out.old ++ columns.now) }
{
    for column in columns {
        out.push(TypedColumn {
            name: copied_name(alloc, &column.name)?,
            sort: column.sort,
        })?;
    }
    Ok(())
}

// Equal columns.
pub(crate) fn copied(alloc: Global, columns: &[TypedColumn]) -> Result<Columns, OutOfMemory>
    ensures { IfOk result (λ out. out ≡ columns.now) }
{
    let mut out = Items::new(alloc);
    push_copies(alloc, &mut out, columns)?;
    Ok(out)
}

// The first of these names; none where there is none.
fn first_name(alloc: Global, names: &[Name]) -> Result<Option<Name>, OutOfMemory>
    ensures { IfOk result (λ name. name ≡ spec.first_name names.now) }
{
    match names {
        [] => Ok(None),
        [name, ..] => Ok(Some(name.copy(alloc)?)),
    }
}

// The names after the first.
fn other_names(names: &[Name]) -> &[Name]
    ensures { result.now ≡ spec.other_names names.now }
{
    match names {
        [] => names,
        [_, others @ ..] => others,
    }
}

// Columns under the names of a list.
fn listed(alloc: Global, names: &[Name], columns: &[TypedColumn]) -> Result<Columns, OutOfMemory>
    ensures { IfOk result (λ out. out ≡ spec.listed names.now columns.now) }
{
    let mut out = Items::new(alloc);
    let mut rest = names;
    for column in columns {
        out.push(TypedColumn {
            name: first_name(alloc, rest)?,
            sort: column.sort,
        })?;
        rest = other_names(rest);
    }
    Ok(out)
}

// Columns renamed by a column list, where one is written.
pub(crate) fn renamed(
    alloc: Global,
    names: &[Name],
    columns: Columns,
) -> Result<Columns, OutOfMemory>
    ensures { IfOk result (λ out. out ≡ spec.renamed names.now columns) }
{
    if names.is_empty() {
        Ok(columns)
    } else {
        listed(alloc, names, columns.as_slice())
    }
}

// The type of the first column.
pub(crate) fn first_type(columns: &[TypedColumn]) -> Option<SqlType>
    ensures { result ≡ scope.first_type columns.now }
{
    match columns {
        [] => None,
        [column, ..] => column.sort,
    }
}

// The fault of columns that aren't exactly one.
pub(crate) fn not_one(columns: &[TypedColumn]) -> Option<Fault>
    ensures { number result ≡ rule.not_one columns.now }
{
    fault_if(columns.len() != 1, Fault::Degree)
}

// The most columns of a query.
const MAX_COLUMNS: usize = 1024;

// The fault of a query's number of columns.
pub(crate) fn too_wide(columns: &[TypedColumn]) -> Option<Fault>
    ensures { number result ≡ rule.too_wide columns.now }
{
    fault_if(columns.len() > MAX_COLUMNS, Fault::Degree)
}
