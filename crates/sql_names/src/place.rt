// Which column of which scope a name stands for.
ghost use Rattle.std.specs.Prelude.{◌≡◌, ◌+◌, IfOk, Some};
ghost use Rattle.sql_meaning.specs.Scopes.{is_named};
ghost use Rattle.sql_names.specs.Places as spec;
ghost use Rattle.sql_names.specs.Shapes.{shapes, span};

use crate::scope::Shapes;
use crate::span::Span;
use shared_types::{OutOfMemory, Text};
use sql_ast::Column;

/// A column: the scope, from the innermost, and the place in its row, both from 0.
#[derive(Clone, Copy)]
pub(crate) struct ColumnPlace {
    pub scope: usize,
    pub place: usize,
}

/// A column has this name.
pub(crate) fn is_named(name: &Text, column: &Option<Text>) -> bool
    ensures { result ≡ is_named name.now column.now }
{
    match column {
        Some(other) => *other == *name,
        None => false,
    }
}

/// The place of the first column of a name.
pub(crate) fn place_named(name: &Text, columns: &[Option<Text>]) -> Option<usize>
    ensures { result ≡ spec.place_named name.now columns.now }
{
    columns.iter().position(|column| is_named(name, column))
}

// In this scope.
fn here(place: usize) -> Option<ColumnPlace>
    ensures { result ≡ spec.here (Some place) }
{
    Some(ColumnPlace { scope: 0, place })
}

// One scope further out. It counts as a want of memory where no computer holds as many scopes.
fn next_scope(scope: usize) -> Result<usize, OutOfMemory>
    ensures { IfOk result (λ next. next ≡ scope + 1) }
{
    match scope.checked_add(1) {
        Some(next) => Ok(next),
        None => Err(OutOfMemory),
    }
}

// The same one scope further out.
fn place_outward(place: Option<ColumnPlace>) -> Result<Option<ColumnPlace>, OutOfMemory>
    ensures { IfOk result (λ found. found ≡ spec.place_outward place) }
{
    match place {
        None => Ok(None),
        Some(p) => Ok(Some(ColumnPlace {
            scope: next_scope(p.scope)?,
            place: p.place,
        })),
    }
}

// The first column of a name in the innermost scope that has one.
fn unqualified(name: &Text, s: &Shapes<'_>) -> Result<Option<ColumnPlace>, OutOfMemory>
    ensures { IfOk result (λ found. found ≡ spec.unqualified name.now (shapes s.now)) }
{
    match s {
        Shapes::Outermost => Ok(None),
        Shapes::Inside(scope, outer) => match scope.place_of(name) {
            Some(place) => Ok(here(place)),
            None => place_outward(unqualified(name, outer)?),
        },
    }
}

// The same columns one scope further out.
fn outward(found: Option<Span<'_>>) -> Result<Option<Span<'_>>, OutOfMemory>
    ensures { IfOk result (λ s. span s ≡ spec.outward (span found.entry)) }
{
    match found {
        None => Ok(None),
        Some(s) => Ok(Some(Span {
            scope: next_scope(s.scope)?,
            first: s.first,
            columns: s.columns,
        })),
    }
}

/// The columns of the range of a name in the innermost scope that has one. It fails only for want of
/// memory.
pub(crate) fn span_of<'a>(name: &Text, s: &Shapes<'a>) -> Result<Option<Span<'a>>, OutOfMemory>
    ensures { IfOk result (λ found. span found ≡ spec.span_of name.now (shapes s.now)) }
{
    match s {
        Shapes::Outermost => Ok(None),
        Shapes::Inside(scope, outer) => match scope.span_of(name) {
            Some(found) => Ok(Some(found)),
            None => outward(span_of(name, outer)?),
        },
    }
}

// The first column of a name in a span.
#[tactic(auto, using(crate::proofs::Positions::named_within))]
fn at_span(name: &Text, s: Span<'_>) -> Option<ColumnPlace>
    ensures { result ≡ spec.at_span (record { scope = s.entry.scope; first = s.entry.first; columns = s.entry.columns.now }) (spec.place_named name.now s.entry.columns.now) }
{
    match place_named(name, s.columns) {
        Some(place) => Some(ColumnPlace {
            scope: s.scope,
            place: s.first + place,
        }),
        None => None,
    }
}

// The first column of a name in a span, where there is one.
fn in_span(name: &Text, found: Option<Span<'_>>) -> Option<ColumnPlace>
    ensures { result ≡ spec.in_span name.now (span found.entry) }
{
    match found {
        None => None,
        Some(s) => at_span(name, s),
    }
}

/// What `r.c` or `c` stands for (SQL-92, 6.4). It fails only for want of memory.
pub(crate) fn place_of(column: &Column, s: &Shapes<'_>) -> Result<Option<ColumnPlace>, OutOfMemory>
    ensures { IfOk result (λ found. found ≡ spec.place_of column.now.range column.now.name (shapes s.now)) }
{
    match &column.range {
        Some(range) => Ok(in_span(&column.name, span_of(range, s)?)),
        None => unqualified(&column.name, s),
    }
}
