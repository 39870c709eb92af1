// The limits of a schema.
ghost use Rattle.std.specs.Prelude.{◌≡◌, ◌||◌, not, nat_lt, length, IfOk, map};
ghost use Rattle.std.specs.List.{list_any, list_all};
ghost use Rattle.sql_catalog.specs.Catalog as catalog;

use crate::key::column_types;
use shared_types::OutOfMemory;
use sql_ast::{DataType, TableDecl};
use sql_text::Name;
use std::alloc::Global;

// The most tables of a schema, views of a schema, and columns of a table.
const MAX_TABLES: usize = 64;

const MAX_VIEWS: usize = 64;

const MAX_COLUMNS: usize = 64;

// The greatest length of a VARCHAR.
const MAX_LENGTH: i64 = 4096;

// Whether a character is a letter A to Z or a to z, a digit or `_`.
fn is_plain(c: char) -> bool
    ensures { result ≡ catalog.is_plain c }
{
    c.is_ascii_uppercase() || c.is_ascii_lowercase() || c.is_ascii_digit() || c == '_'
}

// Whether each character of a name is plain.
fn is_plain_name(name: &Name) -> bool
    ensures { result ≡ list_all catalog.is_plain name.now }
{
    name.as_slice().iter().all(|c| is_plain(*c))
}

// Whether a type is no VARCHAR, or its length is 1 to 4,096.
fn fits_length(data_type: DataType) -> bool
    ensures { result ≡ catalog.fits_length data_type }
{
    match data_type {
        DataType::Integer => true,
        DataType::Int => true,
        DataType::Varchar(length) => 1 <= length && length <= MAX_LENGTH,
    }
}

// Whether the length of one of the types does not fit.
fn has_other_length(types: &[DataType]) -> bool
    ensures { result ≡ list_any (λ d. not (catalog.fits_length d)) types.now }
{
    types.iter().any(|data_type| !fits_length(*data_type))
}

// Whether a table has no column or over 64, a VARCHAR of a length that does not fit, or a name with
// a character that is not plain.
fn is_over_limits(alloc: Global, table: &TableDecl) -> Result<bool, OutOfMemory>
    ensures { IfOk result (λ over. over ≡ catalog.is_over_limits table.now) }
{
    let types = column_types(alloc, table.elements.as_slice())?;
    Ok(
        types.is_empty()
            || types.len() > MAX_COLUMNS
            || has_other_length(types.as_slice())
            || !is_plain_name(&table.name),
    )
}

/// Whether one of the tables is over its limits.
pub fn one_is_over_limits(alloc: Global, tables: &[TableDecl]) -> Result<bool, OutOfMemory>
    ensures { IfOk result (λ over. over ≡ list_any catalog.is_over_limits tables.now) }
{
    for table in tables {
        if is_over_limits(alloc, table)? {
            return Ok(true);
        }
    }
    Ok(false)
}

/// Whether there are over 64 tables or over 64 views.
pub fn are_too_many(tables: usize, views: usize) -> bool
    ensures { result ≡ (nat_lt 64 tables || nat_lt 64 views) }
{
    tables > MAX_TABLES || views > MAX_VIEWS
}
