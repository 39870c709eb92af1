// Where the grouping columns of a block stand in its row (SQL-92, 7.7).
ghost use Rattle.std.specs.Prelude.{◌≡◌, ◌++◌, ◌+◌, ◌<◌, ◌^◌, length, map, IfOk, OnOk};
ghost use Rattle.std.specs.List.{flat_map};
ghost use Rattle.sql_names.specs.Places as places;
ghost use Rattle.sql_names.specs.Ranges.{shape};

use crate::place::is_named;
use crate::range::Range;
use crate::scope::Scope;
use shared_types::{OutOfMemory, Text};
use sql_ast::Column;
use sqlite_items::Items;
use std::alloc::Global;

// `r.c` or `c` of GROUP BY means a column.
fn means(d: &Column, range: &Text, column: &Option<Text>) -> bool
    ensures { result ≡ places.means d.now (range.now, column.now) }
{
    is_named(&d.name, column)
        && match &d.range {
            None => true,
            Some(name) => *name == *range,
        }
}

// Adds the places of the columns of a range that a column of GROUP BY means, where its first column
// is at a place.
fn push_meant(
    d: &Column,
    range: &Range,
    first: usize,
    out: &mut Items<usize>,
) -> Result<(), OutOfMemory>
    requires { first + length range.now.columns < 2 ^ 64 }
    ensures { OnOk result (out.new ≡ out.old ++ places.places_from first d.now (map (λ column. (range.now.name, column)) range.now.columns)) }
{
    let mut place = first;
    for column in range.columns.as_slice() {
        if means(d, &range.name, column) {
            out.push(place)?;
        }
        place += 1;
    }
    Ok(())
}

// The same of these ranges.
#[tactic(auto, using(crate::proofs::Meant::from_append))]
fn push_all_meant(
    d: &Column,
    ranges: &[Range],
    first: usize,
    out: &mut Items<usize>,
) -> Result<(), OutOfMemory>
    requires { first + places.width (shape ranges.now) < 2 ^ 64 }
    ensures { OnOk result (out.new ≡ out.old ++ places.places_from first d.now (places.columns_in (shape ranges.now))) }
{
    match ranges.split_first() {
        None => Ok(()),
        Some((range, rest)) => {
            push_meant(d, range, first, out)?;
            push_all_meant(d, rest, first + range.columns.len(), out)
        }
    }
}

// Adds the places of all columns that a column of GROUP BY means.
#[tactic(auto, using(crate::proofs::Meant::from_none))]
fn push_places(d: &Column, scope: &Scope, out: &mut Items<usize>) -> Result<(), OutOfMemory>
    ensures { OnOk result (out.new ≡ out.old ++ places.places_meant d.now (places.columns_in scope.now)) }
{
    let _all = scope.width();
    push_all_meant(d, scope.ranges(), 0, out)
}

// The places of grouping columns, for each of these in turn.
fn all_places(alloc: Global, by: &[Column], scope: &Scope) -> Result<Items<usize>, OutOfMemory>
    ensures { IfOk result (λ out. out ≡ flat_map (λ d. places.places_meant d (places.columns_in scope.now)) by.now) }
{
    let mut out = Items::new(alloc);
    for d in by {
        push_places(d, scope, &mut out)?;
    }
    Ok(out)
}

/// The places of grouping columns, where GROUP BY is written.
pub(crate) fn grouping_places(
    alloc: Global,
    by: &[Column],
    scope: &Scope,
) -> Result<Option<Items<usize>>, OutOfMemory>
    ensures { IfOk result (λ found. found ≡ places.grouping_places by.now scope.now) }
{
    match by {
        [] => Ok(None),
        [_, ..] => Ok(Some(all_places(alloc, by, scope)?)),
    }
}
