// What a column holds in a row.
ghost use Rattle.std.specs.Prelude.{◌≡◌, IfOk};
ghost use Rattle.std.specs.Cmp.{IsTotalOrder};
ghost use Rattle.sql_value.specs.Cells as spec;

use crate::character_string::CharacterString;
use shared_types::{OutOfMemory, Text};
use sqlite_items::Items;
use std::alloc::Global;
use std::cmp::Ordering;

/// A runtime error, by its SQLSTATE. The kinds ascend in this order.
#[derive(Clone, Copy, Debug, PartialEq, Eq, PartialOrd, Ord)]
pub enum Kind {
    /// 21000: a subquery in place of a value has more than one row.
    Cardinality,
    /// 22012: division by zero.
    Division,
    /// 22003: a number out of range.
    Overflow,
}

/// A cell: a number of 64 bits, a text, null, or an error.
#[derive(Drop)]
pub enum Cell {
    Int(i64),
    Text(CharacterString),
    Null,
    Err(Kind),
}

/// The names of output columns, in order; a column may have none.
pub type OutNames = Items<Option<Text>>;

// The error that a cell is.
pub(crate) fn error_of(cell: &Cell) -> Option<Kind>
    ensures { result ≡ spec.error_of cell.now }
{
    match cell {
        Cell::Err(kind) => Some(*kind),
        Cell::Int(_) | Cell::Text(_) | Cell::Null => None,
    }
}

// The greatest error among two cells.
pub(crate) fn worst(a: &Cell, b: &Cell) -> Option<Kind>
    ensures { result ≡ spec.worst a.now b.now }
{
    match (error_of(a), error_of(b)) {
        (Some(j), Some(k)) => Some(if j <= k { k } else { j }),
        (Some(j), None) => Some(j),
        (None, other) => other,
    }
}

// The order of two cells.
fn compared(a: &Cell, b: &Cell) -> Ordering
    ensures { result ≡ spec.cell_compare a.now b.now }
{
    match (a, b) {
        (Cell::Null, Cell::Null) => Ordering::Equal,
        (Cell::Null, Cell::Int(_) | Cell::Text(_) | Cell::Err(_)) => Ordering::Less,
        (Cell::Int(_) | Cell::Text(_) | Cell::Err(_), Cell::Null) => Ordering::Greater,
        (Cell::Int(m), Cell::Int(n)) => m.cmp(n),
        (Cell::Int(_), Cell::Text(_) | Cell::Err(_)) => Ordering::Less,
        (Cell::Text(_) | Cell::Err(_), Cell::Int(_)) => Ordering::Greater,
        (Cell::Text(s), Cell::Text(t)) => s.cmp(t),
        (Cell::Text(_), Cell::Err(_)) => Ordering::Less,
        (Cell::Err(_), Cell::Text(_)) => Ordering::Greater,
        (Cell::Err(j), Cell::Err(k)) => j.cmp(k),
    }
}

/// The order of two cells: null first, then numbers ascending, then texts by code point and
/// without padding, then errors by kind. It is total, and cells that tie are equal.
pub fn cell_order(a: &Cell, b: &Cell) -> Ordering
    ensures order { result ≡ spec.cell_compare a.now b.now }
    ensures total { IsTotalOrder spec.cell_compare }
    ensures ties { (x : Cell) → (y : Cell) → spec.cell_compare x y ≡ Ordering.Equal → x ≡ y }
{
    compared(a, b)
}

/// An equal cell. It fails only for want of memory.
pub fn copy(alloc: Global, a: &Cell) -> Result<Cell, OutOfMemory>
    ensures { IfOk result (λ c. c ≡ a.now) }
{
    Ok(match a {
        Cell::Int(number) => Cell::Int(*number),
        Cell::Text(text) => Cell::Text(text.copy(alloc)?),
        Cell::Null => Cell::Null,
        Cell::Err(kind) => Cell::Err(*kind),
    })
}
