// Comparison, null-safe equality, and the test for null.
ghost use Rattle.std.specs.Prelude.{◌≡◌};
ghost use Rattle.sql_value.specs.Comparison as spec;

use crate::cell::{Cell, cell_order, worst};
use crate::truth::{Truth, decided, error, unknown};
use shared_types::CmpOp;
use std::cmp::Ordering;

// Whether an operator holds of two values in this order.
fn passes(op: CmpOp, order: Ordering) -> bool
    ensures { result ≡ spec.passes op order }
{
    match op {
        CmpOp::Eq => order.is_eq(),
        CmpOp::Ne => order.is_ne(),
        CmpOp::Lt => order.is_lt(),
        CmpOp::Le => order.is_le(),
        CmpOp::Gt => order.is_gt(),
        CmpOp::Ge => order.is_ge(),
    }
}

/// A comparison (SQL-92 8.2): numbers by value, texts by code point and without padding. An error
/// among the operands gives the greatest of them; else it is unknown where the operands are not
/// two numbers or two texts, so where one is null.
pub fn compare(op: CmpOp, a: &Cell, b: &Cell) -> Truth
    ensures { result ≡ spec.compare op a.now b.now }
{
    if let Some(kind) = worst(a, b) {
        return error(kind);
    }
    if let (Cell::Int(m), Cell::Int(n)) = (a, b) {
        return decided(passes(op, m.cmp(n)));
    }
    if let (Cell::Text(s), Cell::Text(t)) = (a, b) {
        return decided(passes(op, s.cmp(t)));
    }
    unknown()
}

/// Equality for which null equals null. An error among the operands gives the greatest of them;
/// else it is true where both are null or both are equal values, and else false.
pub fn same(a: &Cell, b: &Cell) -> Truth
    ensures { result ≡ spec.same a.now b.now }
{
    match worst(a, b) {
        Some(kind) => error(kind),
        None => decided(cell_order(a, b).is_eq()),
    }
}

/// `a IS NULL` (SQL-92 8.6): true of null, false of a number and of a text; an error stays.
pub fn is_null(a: &Cell) -> Truth
    ensures { result ≡ spec.is_null a.now }
{
    match a {
        Cell::Err(kind) => error(*kind),
        Cell::Null => decided(true),
        Cell::Int(_) | Cell::Text(_) => decided(false),
    }
}
