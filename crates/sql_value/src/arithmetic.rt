// Arithmetic, and texts put together.
ghost use Rattle.std.specs.Prelude.{◌≡◌, IfOk};
ghost use Rattle.sql_value.specs.Arithmetic as spec;

use crate::cell::{Cell, Kind, worst};
use crate::character_string::CharacterString;
use shared_types::OutOfMemory;
use std::alloc::Global;

// A result, or the error that there is none within 64 bits.
fn fitted(number: Option<i64>) -> Cell
    ensures { result ≡ spec.fitted number }
{
    match number {
        Some(number) => Cell::Int(number),
        None => Cell::Err(Kind::Overflow),
    }
}

// A quotient of numbers.
fn quotient(m: i64, n: i64) -> Cell
    ensures { result ≡ spec.quotient m n }
{
    if n == 0 {
        Cell::Err(Kind::Division)
    } else {
        fitted(m.checked_div(n))
    }
}

/// `a + b` (SQL-92 6.12). An error among the operands gives the greatest of them; else operands
/// that are not both numbers give null; else a sum out of range is the error Overflow.
pub fn add(a: &Cell, b: &Cell) -> Cell
    ensures { result ≡ spec.add a.now b.now }
{
    if let Some(kind) = worst(a, b) {
        return Cell::Err(kind);
    }
    let (Cell::Int(m), Cell::Int(n)) = (a, b) else {
        return Cell::Null;
    };
    fitted(m.checked_add(*n))
}

/// `a - b` (SQL-92 6.12), with errors and null as in [`add`].
pub fn sub(a: &Cell, b: &Cell) -> Cell
    ensures { result ≡ spec.sub a.now b.now }
{
    if let Some(kind) = worst(a, b) {
        return Cell::Err(kind);
    }
    let (Cell::Int(m), Cell::Int(n)) = (a, b) else {
        return Cell::Null;
    };
    fitted(m.checked_sub(*n))
}

/// `a * b` (SQL-92 6.12), with errors and null as in [`add`].
pub fn mul(a: &Cell, b: &Cell) -> Cell
    ensures { result ≡ spec.mul a.now b.now }
{
    if let Some(kind) = worst(a, b) {
        return Cell::Err(kind);
    }
    let (Cell::Int(m), Cell::Int(n)) = (a, b) else {
        return Cell::Null;
    };
    fitted(m.checked_mul(*n))
}

/// `a / b`, truncated toward zero (SQL-92 6.12), with errors and null as in [`add`]. A number by
/// zero is the error Division; the least number by -1 is the error Overflow.
pub fn div(a: &Cell, b: &Cell) -> Cell
    ensures { result ≡ spec.div a.now b.now }
{
    if let Some(kind) = worst(a, b) {
        return Cell::Err(kind);
    }
    let (Cell::Int(m), Cell::Int(n)) = (a, b) else {
        return Cell::Null;
    };
    quotient(*m, *n)
}

/// `-a` (SQL-92 6.12). An error stays; else what is no number gives null; the least number is
/// the error Overflow.
pub fn neg(a: &Cell) -> Cell
    ensures { result ≡ spec.neg a.now }
{
    match a {
        Cell::Int(number) => fitted(number.checked_neg()),
        Cell::Text(_) | Cell::Null => Cell::Null,
        Cell::Err(kind) => Cell::Err(*kind),
    }
}

/// `a || b` (SQL-92 6.13): the characters of the first text and then those of the second. An
/// error among the operands gives the greatest of them; else operands that are not both texts
/// give null. It fails only for want of memory.
pub fn concat(alloc: Global, a: &Cell, b: &Cell) -> Result<Cell, OutOfMemory>
    ensures { IfOk result (λ cell. cell ≡ spec.concat a.now b.now) }
{
    if let Some(kind) = worst(a, b) {
        return Ok(Cell::Err(kind));
    }
    let (Cell::Text(s), Cell::Text(t)) = (a, b) else {
        return Ok(Cell::Null);
    };
    Ok(Cell::Text(CharacterString::joined(alloc, s, t)?))
}
