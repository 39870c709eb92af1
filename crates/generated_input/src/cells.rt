// Numbers that follow one another, and the cells and rows that are made of them.
ghost use Rattle.std.specs.Prelude.{◌≡◌, ◌<◌, ◌+◌, ◌%◌, ◌^◌, pos, IfOk};
ghost use Rattle.generated_input.specs.Made as spec;

use itoa::Buffer;
use row_bag::Row;
use shared_types::OutOfMemory;
use sql_value::{Cell, CharacterString, Level};
use sqlite_items::Items;
use std::alloc::Global;

/// The number behind another.
pub fn next(x: u64) -> u64
    requires { x < 2147483648 }
    ensures value { result ≡ spec.next x }
    ensures bound { result < 2147483648 }
{
    (x * 1_103_515_245 + 12_345) % 2_147_483_648
}

/// What is drawn of a number.
pub fn drawn(x: u64) -> u64
    ensures { result ≡ spec.drawn x }
{
    x / 65_536
}

// A cell of a number.
fn integer(n: u64) -> Cell
    requires { n < 2 ^ 63 }
    ensures { result ≡ Cell.Int (pos n) }
{
    Cell::Int(n as i64)
}

// B, and a number in decimal.
fn named(alloc: Global, n: u64) -> Result<CharacterString, OutOfMemory>
    ensures { IfOk result (λ t. t ≡ spec.name_of n) }
{
    let mut name = Vec::new(alloc);
    name.push('B')?;
    let mut buffer = Buffer::new();
    for b in buffer.format(n).as_bytes() {
        name.push(*b as char)?;
    }
    CharacterString::from_chars(alloc, name.as_slice())
}

// One of fifty names, or null.
fn building(alloc: Global, v: u64) -> Result<Cell, OutOfMemory>
    ensures { IfOk result (λ c. c ≡ spec.building v) }
{
    if v % 10 == 0 {
        return Ok(Cell::Null);
    }
    let name = named(alloc, v % 50)?;
    Ok(Cell::Text(name))
}

/// The row of DEPT at a place, from 0, by its two draws.
#[tactic(auto, unfolding(crate::specs::Made::dept_of))]
pub fn dept_of(alloc: Global, i: u64, v: u64, w: u64) -> Result<Row, OutOfMemory>
    requires { i < 2 ^ 62 }
    ensures { IfOk result (λ r. r ≡ spec.dept_of i v w) }
{
    let name = building(alloc, v)?;
    let mut cells = Items::new(alloc);
    cells.push(integer(i + 1))?;
    cells.push(name)?;
    cells.push(integer(w % 1_000))?;
    Ok(Row {
        cells,
        level: Level::Yes,
    })
}

/// The row of EMP at a place, from 0, by its three draws, over so many rows of DEPT.
#[tactic(auto, unfolding(crate::specs::Made::emp_of))]
pub fn emp_of(alloc: Global, depts: u64, i: u64, u: u64, v: u64, w: u64) -> Result<Row, OutOfMemory>
    requires some { 0 < depts }
    requires few { depts < 2 ^ 62 }
    requires place { i < 2 ^ 62 }
    ensures { IfOk result (λ r. r ≡ spec.emp_of depts i u v w) }
{
    let name = building(alloc, v)?;
    let mut cells = Items::new(alloc);
    cells.push(integer(i + 1))?;
    cells.push(integer(u % depts + 1))?;
    cells.push(name)?;
    cells.push(integer(w % 1_000))?;
    Ok(Row {
        cells,
        level: Level::Yes,
    })
}
