// What a name finds among columns.
ghost use Rattle.std.specs.Prelude.{◌≡◌, option_map};
ghost use Rattle.sql_meaning.specs.Scopes.{is_named};
ghost use Rattle.sql_faults.specs.Found as spec;
ghost use Rattle.sql_faults.specs.Numbers.{number};
ghost use Rattle.sql_faults.specs.Rules.{one_of};
ghost use Rattle.sql_faults.specs.Scopes as scope;

use crate::column::{TypedColumn, TypedRange};
use crate::fault::Fault;
use crate::from_ranges::FromRanges;
use sql_ast::Column;
use sql_text::Name;
use sql_value::SqlType;

/// What a name finds among columns: no column, one of this type, or several, the first of this type.
#[derive(Clone, Copy)]
pub(crate) enum Found {
    Nothing,
    One(Option<SqlType>),
    Several(Option<SqlType>),
}

// Whether a column has this name.
pub(crate) fn has_name(name: &Name, column: &TypedColumn) -> bool
    ensures { result ≡ scope.has_name name.now column.now }
{
    match &column.name {
        Some(own) => own == name,
        None => false,
    }
}

// What is found among some columns and then among others.
pub(crate) fn joined(a: Found, b: Found) -> Found
    ensures { result ≡ spec.joined a b }
{
    match (a, b) {
        (Found::Nothing, found) => found,
        (Found::One(sort), Found::Nothing) => Found::One(sort),
        (Found::One(sort), Found::One(_) | Found::Several(_)) => Found::Several(sort),
        (Found::Several(sort), _) => Found::Several(sort),
    }
}

// What a name finds among these columns.
#[tactic(auto, using(crate::proofs::Finds::found_steps))]
fn among(columns: &[TypedColumn], name: &Name) -> Found
    ensures { result ≡ spec.found (scope.columns_named name.now columns.now) }
{
    let mut found = Found::Nothing;
    for column in columns {
        if has_name(name, column) {
            found = joined(found, Found::One(column.sort));
        }
    }
    found
}

// The first range of a name.
pub(crate) fn range_in<'a>(ranges: &'a [TypedRange], name: &Name) -> Option<&'a TypedRange>
    ensures { option_map (λ r. r.now) result ≡ scope.range_in name.now ranges.now }
{
    ranges.iter().find(|range| range.name == *name)
}

// What `r.c` finds in a FROM; none where it has no range r.
fn qualified(ranges: &[TypedRange], range: &Name, name: &Name) -> Option<Found>
    ensures { result ≡ option_map (λ r. spec.found (scope.columns_named name.now r.columns)) (scope.range_in range.now ranges.now) }
{
    match range_in(ranges, range) {
        Some(range) => Some(among(range.columns.as_slice(), name)),
        None => None,
    }
}

// What `c` finds in a FROM; none where it has no such column.
fn unqualified(tables: &FromRanges, name: &Name) -> Option<Found>
    ensures { result ≡ spec.found_any (spec.found (scope.named_in name.now tables.now)) }
{
    match tables.find(name) {
        Found::Nothing => None,
        Found::One(sort) => Some(Found::One(sort)),
        Found::Several(sort) => Some(Found::Several(sort)),
    }
}

// What a column's name finds in a FROM; none where it doesn't mean that FROM.
pub(crate) fn found_in(tables: &FromRanges, column: &Column) -> Option<Found>
    ensures { result ≡ spec.found_in column.now tables.now }
{
    match &column.range {
        Some(range) => qualified(tables.ranges(), range, &column.name),
        None => unqualified(tables, &column.name),
    }
}

// The fault of what was found.
#[tactic(auto, using(crate::proofs::Finds::fault_found))]
pub(crate) fn found_fault(found: Found) -> Option<Fault>
    ensures { number result ≡ spec.found_fault found }
{
    match found {
        Found::Nothing => Some(Fault::UnknownColumn),
        Found::One(_) => None,
        Found::Several(_) => Some(Fault::Ambiguous),
    }
}

// The type of what was found.
pub(crate) fn found_type(found: Found) -> Option<SqlType>
    ensures { result ≡ spec.found_type found }
{
    match found {
        Found::Nothing => None,
        Found::One(sort) => sort,
        Found::Several(sort) => sort,
    }
}
