// The scopes that enclose a place, and what names mean in them.
ghost use Rattle.std.specs.Prelude.{◌≡◌, Some, List, option_map};
ghost use Rattle.std.specs.List.{list_any};
ghost use Rattle.sql_faults.specs.Faults as fault;
ghost use Rattle.sql_faults.specs.Found as found;
ghost use Rattle.sql_faults.specs.Numbers.{number};
ghost use Rattle.sql_faults.specs.Rules as rule;
ghost use Rattle.sql_faults.specs.Scopes as spec;
ghost use Rattle.sql_faults.specs.Scopes.{is_some};
ghost use Rattle.sql_faults.specs.Shown.{scopes};

use crate::column::{TypedColumn, TypedRange};
use crate::fault::{Fault, fault_if, lesser};
use crate::found::{Found, found_fault, found_in, found_type, range_in};
use crate::from_ranges::FromRanges;
use crate::site::Site;
use crate::typed::Typed;
use sql_ast::Column;
use sql_text::Name;

/// The scopes that enclose a place, the innermost first.
#[derive(Clone, Copy)]
pub(crate) enum Scopes<'a> {
    Outermost,
    /// The tables of a FROM.
    Plain(&'a FromRanges, &'a Scopes<'a>),
    /// The tables of a grouped block with its GROUP BY: what its list and HAVING see.
    Grouped(&'a FromRanges, &'a [Column], &'a Scopes<'a>),
    /// The same scopes within an aggregate's argument, where every column may be named.
    Released(&'a Scopes<'a>),
}

// Whether two range names may be one: they are equal, or one isn't written.
fn agree(a: &Option<Name>, b: &Option<Name>) -> bool
    ensures { result ≡ spec.agree a.now b.now }
{
    match (a, b) {
        (Some(a), Some(b)) => *a == *b,
        (None, _) => true,
        (Some(_), None) => true,
    }
}

// Whether two names of columns of one FROM mean the same column.
fn is_same(a: &Column, b: &Column) -> bool
    ensures { result ≡ spec.is_same a.now b.now }
{
    a.name == b.name && agree(&a.range, &b.range)
}

// Whether a column is one of GROUP BY.
fn is_grouping(by: &[Column], column: &Column) -> bool
    ensures { result ≡ list_any (spec.is_same column.now) by.now }
{
    by.iter().any(|other| is_same(column, other))
}

// Whether a column is none of GROUP BY.
fn is_barred(by: &[Column], column: &Column) -> bool
    ensures { result ≡ spec.is_barred (Some by.now) column.now }
{
    !is_grouping(by, column)
}

/// What a column's name means: what it finds in the innermost scope that it means, and whether that
/// scope bars it.
#[derive(Clone, Copy)]
pub(crate) struct Target {
    pub found: Found,
    pub barred: bool,
}

// What a column's name means in these scopes.
#[tactic(auto, using(crate::proofs::Targets::target_steps))]
pub(crate) fn target_of(column: &Column, inner: &Scopes<'_>) -> Target
    ensures found { result.found ≡ found.found (spec.meant column.now (scopes inner.now)) }
    ensures barred { result.barred ≡ spec.is_name_barred column.now (spec.scope_of column.now (scopes inner.now)) }
{
    match inner {
        Scopes::Outermost => Target {
            found: Found::Nothing,
            barred: false,
        },
        Scopes::Plain(tables, outer) => match found_in(tables, column) {
            Some(found) => Target {
                found,
                barred: false,
            },
            None => target_of(column, outer),
        },
        Scopes::Grouped(tables, by, outer) => match found_in(tables, column) {
            Some(found) => Target {
                found,
                barred: is_barred(by, column),
            },
            None => target_of(column, outer),
        },
        Scopes::Released(outer) => Target {
            found: target_of(column, outer).found,
            barred: false,
        },
    }
}

// Whether a column's name means the FROM of the innermost block.
#[tactic(auto, using(crate::proofs::Targets::own_steps))]
pub(crate) fn is_own(column: &Column, inner: &Scopes<'_>) -> bool
    ensures { result ≡ spec.is_own column.now (scopes inner.now) }
{
    match inner {
        Scopes::Outermost => false,
        Scopes::Plain(tables, _) => found_in(tables, column).is_some(),
        Scopes::Grouped(tables, _, _) => found_in(tables, column).is_some(),
        Scopes::Released(outer) => is_own(column, outer),
    }
}

// Whether a column of GROUP BY means the column of a name of a range.
fn means(other: &Column, range: &Name, name: &Name) -> bool
    ensures { result ≡ spec.is_same (record { range = Some range.now; name = name.now }) other.now }
{
    let agrees = match &other.range {
        Some(own) => *range == *own,
        None => true,
    };
    *name == other.name && agrees
}

// Whether the column of a name of a range is one of GROUP BY.
fn is_grouped(by: &[Column], range: &Name, name: &Name) -> bool
    ensures { result ≡ list_any (spec.is_same (record { range = Some range.now; name = name.now })) by.now }
{
    by.iter().any(|other| means(other, range, name))
}

// Whether a column of a range is none of GROUP BY.
fn is_column_barred(by: &[Column], range: &Name, column: &TypedColumn) -> bool
    ensures { result ≡ spec.is_column_barred (Some by.now) range.now column.now.name }
{
    match &column.name {
        Some(name) => !is_grouped(by, range, name),
        None => true,
    }
}

// Whether a column of a range is none of GROUP BY.
fn is_range_barred(by: &[Column], range: &TypedRange) -> bool
    ensures { result ≡ spec.is_range_barred (Some by.now) range.now }
{
    range
        .columns
        .as_slice()
        .iter()
        .any(|column| is_column_barred(by, &range.name, column))
}

// Whether a column of these ranges is none of GROUP BY.
pub(crate) fn is_star_barred(by: &[Column], ranges: &[TypedRange]) -> bool
    ensures { result ≡ list_any (spec.is_range_barred (Some by.now)) ranges.now }
{
    ranges.iter().any(|range| is_range_barred(by, range))
}

/// What `r.*` means: the range r of the innermost scope that has one, and whether that scope bars one
/// of its columns.
#[derive(Clone, Copy)]
pub(crate) struct Star<'a> {
    pub range: Option<&'a TypedRange>,
    pub barred: bool,
}

// What `r.*` means in these scopes.
#[tactic(auto, using(crate::proofs::Targets::star_steps))]
pub(crate) fn star_of<'a>(name: &Name, inner: &Scopes<'a>) -> Star<'a>
    ensures range { option_map (λ r. r.now) result.range ≡ spec.range_of name.now (scopes inner.now) }
    ensures scope { is_some result.range ≡ is_some (spec.scope_with name.now (scopes inner.now)) }
    ensures barred { result.barred ≡ spec.is_star_barred name.now (spec.scope_with name.now (scopes inner.now)) }
{
    match inner {
        Scopes::Outermost => Star {
            range: None,
            barred: false,
        },
        Scopes::Plain(tables, outer) => match range_in(tables.ranges(), name) {
            Some(range) => Star {
                range: Some(range),
                barred: false,
            },
            None => star_of(name, outer),
        },
        Scopes::Grouped(tables, by, outer) => match range_in(tables.ranges(), name) {
            Some(range) => Star {
                range: Some(range),
                barred: is_range_barred(by, range),
            },
            None => star_of(name, outer),
        },
        Scopes::Released(outer) => Star {
            range: star_of(name, outer).range,
            barred: false,
        },
    }
}

// The fault of a column in an aggregate's argument, where it isn't of the aggregate's own block.
fn column_misplaced(place: Site, column: &Column, inner: &Scopes<'_>) -> Option<Fault>
    ensures { number result ≡ rule.column_misplaced place column.now (scopes inner.now) }
{
    match place {
        Site::Listed | Site::Filtered => None,
        Site::Argument => fault_if(!is_own(column, inner), Fault::AggregatePlace),
    }
}

// The fault of a column of GROUP BY, in its block's scope.
#[tactic(auto, using(crate::proofs::Finds::fault_found))]
fn grouping_column_fault(column: &Column, inner: &Scopes<'_>) -> Option<Fault>
    ensures { number result ≡ rule.lesser (rule.one_of (spec.meant column.now (scopes inner.now))) (rule.grouping_outer column.now (scopes inner.now)) }
{
    let outer = fault_if(!is_own(column, inner), Fault::Grouping);
    lesser(found_fault(target_of(column, inner).found), outer)
}

// The fault of GROUP BY, in its block's scope.
#[tactic(auto, using(crate::proofs::Orders::fault_steps))]
pub(crate) fn grouping_fault(by: &[Column], inner: &Scopes<'_>) -> Option<Fault>
    ensures { number result ≡ fault.grouping_fault by.now (scopes inner.now) }
{
    let mut least = None;
    for column in by {
        least = lesser(least, grouping_column_fault(column, inner));
    }
    least
}

// The fault of a name that means this, which may not stand at its place.
fn target_fault(target: Target, misplaced: Option<Fault>) -> Option<Fault>
    ensures { number result ≡ rule.lesser (found.found_fault target.found) (rule.lesser (rule.fault_if target.barred 12) (number misplaced)) }
{
    let ungrouped = fault_if(target.barred, Fault::Grouping);
    lesser(found_fault(target.found), lesser(ungrouped, misplaced))
}

// A column at a place.
#[tactic(auto, using(crate::proofs::Finds::fault_found, crate::proofs::Finds::type_found))]
pub(crate) fn column(place: Site, name: &Column, inner: &Scopes<'_>) -> Typed
    ensures sort { result.sort ≡ spec.first_type (spec.meant name.now (scopes inner.now)) }
    ensures fault { number result.fault ≡ fault.column_fault place name.now (scopes inner.now) }
{
    let target = target_of(name, inner);
    Typed {
        sort: found_type(target.found),
        fault: target_fault(target, column_misplaced(place, name, inner)),
    }
}
