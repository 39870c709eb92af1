// The answer of a query.
ghost use Rattle.std.specs.Prelude.{◌≡◌};
ghost use Rattle.sql_value.specs.Cells.{error_of, worst_of};
ghost use Rattle.row_bag.specs.Errors as errors;
ghost use Rattle.row_bag.specs.RowRefs.{lent};
ghost use Rattle.row_bag.specs.Verdict as spec;

use crate::bag::Bag;
use crate::ordered::OrderedBag;
use crate::outcome::Verdict;
use crate::row::{Row, RowRef};
use sql_value::{Cell, Kind, Level};

/// The greatest one of the errors that there are.
pub fn worst_of(a: Option<Kind>, b: Option<Kind>) -> Option<Kind>
    ensures { result ≡ worst_of a b }
{
    match (a, b) {
        (Some(j), Some(k)) => Some(if j <= k { k } else { j }),
        (Some(j), None) => Some(j),
        (None, other) => other,
    }
}

/// The error that a cell is.
pub fn error_of(cell: &Cell) -> Option<Kind>
    ensures { result ≡ error_of cell.now }
{
    match cell {
        Cell::Err(kind) => Some(*kind),
        Cell::Int(_) | Cell::Text(_) | Cell::Null => None,
    }
}

/// The error that a level is.
pub fn error_at(level: Level) -> Option<Kind>
    ensures { result ≡ errors.error_at level }
{
    match level {
        Level::Cardinality => Some(Kind::Cardinality),
        Level::Division => Some(Kind::Division),
        Level::Overflow => Some(Kind::Overflow),
        Level::No | Level::Yes => None,
    }
}

/// The greatest error among cells.
pub fn error_in(cells: &[Cell]) -> Option<Kind>
    ensures { result ≡ errors.error_in cells.now }
{
    let mut found = None;
    for cell in cells {
        found = worst_of(found, error_of(cell));
    }
    found
}

/// A row is there: its level isn't `Level::No`.
pub fn is_there(row: &Row) -> bool
    ensures { result ≡ spec.is_there row.now }
{
    row.lent().is_there()
}

// The greatest error of a row that is there; none of a row that isn't.
fn error_of_row(row: RowRef<'_>) -> Option<Kind>
    ensures { result ≡ spec.error_of_row (lent row.entry) }
{
    if row.is_there() {
        worst_of(error_at(row.level), error_in(row.cells))
    } else {
        None
    }
}

/// The greatest error among the levels and the cells of the rows that are there.
pub fn error_among(rows: &Bag) -> Option<Kind>
    ensures { result ≡ errors.error_among errors.error_in rows.now }
{
    let mut found = None;
    for i in 0..rows.len() {
        found = worst_of(found, error_of_row(rows.at(i)));
    }
    found
}

/// The rows that are there, in their order. It takes no memory.
pub fn those_there(bag: Bag) -> Bag
    ensures { result ≡ spec.those_there bag }
{
    let mut bag = bag;
    bag.keep_there();
    bag
}

/// The answer of a query with these rows: where a row is at an error level or has an error cell,
/// the greatest such error and no row, and else the rows. A row at `Level::No` isn't there: it
/// gives no error, and is let go. It takes no memory.
pub fn verdict(bag: Bag) -> Verdict
    ensures { result ≡ spec.verdict bag }
{
    match error_among(&bag) {
        Some(kind) => Verdict::Error(kind),
        None => Verdict::Rows(OrderedBag::new(those_there(bag))),
    }
}
