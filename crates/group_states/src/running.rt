// What is kept of the arguments of an aggregate.
ghost use Rattle.std.specs.Prelude.{◌≡◌, ◌+◌, ◌+ℤ◌, [], if◌then◌else◌, IfOk, OnOk};
ghost use Rattle.group_states.specs.Running as spec;
ghost use Rattle.row_bag.specs.Aggregates as aggregates;
ghost use Rattle.row_bag.specs.Arguments.{IsTotalOf};
ghost use Rattle.row_bag.specs.Bags.{unit};
ghost use Rattle.sql_value.specs.declared.cell.Cell.TheVariants.{Null};

use row_bag::count_cell;
use shared_types::OutOfMemory;
use sql_value::{Aggregate, Cell, Kind, cell_order, copy};
use std::alloc::Global;

/// Of the arguments that count: how many there are, their exact total, and the first, least or
/// greatest one. An aggregate keeps what it needs, and leaves the others as they are of none.
#[derive(Drop)]
pub(crate) struct Running {
    pub(crate) count: usize,
    pub(crate) total: i128,
    pub(crate) cell: Cell,
}

/// One more. It fails where a number has no next one.
pub(crate) fn one_more(count: usize) -> Result<usize, OutOfMemory>
    ensures { IfOk result (λ n. n ≡ count + 1) }
{
    match count.checked_add(1) {
        Some(more) => Ok(more),
        None => Err(OutOfMemory),
    }
}

// The number that a cell is, else zero.
fn number_in(cell: &Cell) -> i64
    ensures { result ≡ aggregates.number_in cell.now }
{
    match cell {
        Cell::Int(number) => *number,
        Cell::Text(_) | Cell::Null | Cell::Err(_) => 0,
    }
}

// The total of one number more.
fn added(total: i128, number: i64, count: usize) -> Result<i128, OutOfMemory>
    ensures total { IfOk result (λ t. t ≡ total +ℤ number) }
    ensures within { IfOk result (λ t. IsTotalOf count total → IsTotalOf (count + 1) t) }
{
    match total.checked_add(i128::from(number)) {
        Some(sum) => Ok(sum),
        None => Err(OutOfMemory),
    }
}

// The total after one argument more that counts.
fn total_with(f: Aggregate, count: usize, total: i128, cell: &Cell) -> Result<i128, OutOfMemory>
    ensures total { IfOk result (λ t. t ≡ spec.total_with f total cell.now) }
    ensures within { IfOk result (λ t. IsTotalOf count total → IsTotalOf (count + 1) t) }
{
    match f {
        Aggregate::Sum | Aggregate::Avg => added(total, number_in(cell), count),
        Aggregate::Single | Aggregate::Count | Aggregate::Min | Aggregate::Max => Ok(total),
    }
}

// A cell is less than one that was kept, of which null is none.
fn is_lesser(kept: &Cell, cell: &Cell) -> bool
    ensures { (if result then cell.now else kept.now) ≡ aggregates.lesser_cell kept.now cell.now }
{
    match (kept, cell) {
        (Cell::Null, _) => true,
        (Cell::Int(_) | Cell::Text(_) | Cell::Err(_), Cell::Null) => false,
        (
            Cell::Int(_) | Cell::Text(_) | Cell::Err(_),
            Cell::Int(_) | Cell::Text(_) | Cell::Err(_),
        ) => !cell_order(kept, cell).is_le(),
    }
}

// A cell is at least one that was kept, of which null is none.
fn is_greater(kept: &Cell, cell: &Cell) -> bool
    ensures { (if result then cell.now else kept.now) ≡ aggregates.greater_cell kept.now cell.now }
{
    match (kept, cell) {
        (Cell::Null, _) => true,
        (Cell::Int(_) | Cell::Text(_) | Cell::Err(_), Cell::Null) => false,
        (
            Cell::Int(_) | Cell::Text(_) | Cell::Err(_),
            Cell::Int(_) | Cell::Text(_) | Cell::Err(_),
        ) => cell_order(kept, cell).is_le(),
    }
}

// A cell is kept in place of the one before.
fn replaces(f: Aggregate, count: usize, kept: &Cell, cell: &Cell) -> bool
    ensures { (if result then cell.now else kept.now) ≡ spec.cell_with f count kept.now cell.now }
{
    match f {
        Aggregate::Single => count == 0,
        Aggregate::Min => is_lesser(kept, cell),
        Aggregate::Max => is_greater(kept, cell),
        Aggregate::Count | Aggregate::Sum | Aggregate::Avg => false,
    }
}

/// An argument counts: of `Single` each one, else each that isn't null.
pub(crate) fn counts(f: Aggregate, cell: &Cell) -> bool
    ensures { (if result then unit cell.now else []) ≡ spec.counting f cell.now }
{
    match (f, cell) {
        (Aggregate::Single, _) => true,
        (
            Aggregate::Count | Aggregate::Sum | Aggregate::Avg | Aggregate::Min | Aggregate::Max,
            Cell::Null,
        ) => false,
        (
            Aggregate::Count | Aggregate::Sum | Aggregate::Avg | Aggregate::Min | Aggregate::Max,
            Cell::Int(_) | Cell::Text(_) | Cell::Err(_),
        ) => true,
    }
}

// The cell of at most one argument.
fn single(count: usize, cell: Cell) -> Cell
    ensures { result ≡ spec.single count cell }
{
    match count {
        0 => Cell::Null,
        1 => cell,
        _ => Cell::Err(Kind::Cardinality),
    }
}

// The total of so many numbers.
fn sum(count: usize, total: i128) -> Cell
    ensures { result ≡ aggregates.sum count total }
{
    if count == 0 {
        return Cell::Null;
    }
    match i64::try_from(total) {
        Ok(number) => Cell::Int(number),
        Err(_) => Cell::Err(Kind::Overflow),
    }
}

// The mean of so many numbers.
fn mean(count: usize, total: i128) -> Cell
    ensures { IsTotalOf count total → result ≡ aggregates.mean count total }
{
    if count == 0 {
        return Cell::Null;
    }
    match i64::try_from(total / count as i128) {
        Ok(number) => Cell::Int(number),
        Err(_) => Cell::Err(Kind::Overflow),
    }
}

impl Running {
    /// Of no argument.
    pub(crate) fn new() -> Running
        ensures { result ≡ spec.of_none }
    {
        Running {
            count: 0,
            total: 0,
            cell: Cell::Null,
        }
    }

    /// Takes an argument that counts.
    pub(crate) fn add(
        &mut self,
        alloc: Global,
        f: Aggregate,
        cell: &Cell,
    ) -> Result<(), OutOfMemory>
        ensures { OnOk result (spec.HasAdded f cell.now self.old self.new) }
    {
        let total = total_with(f, self.count, self.total, cell)?;
        if replaces(f, self.count, &self.cell, cell) {
            self.cell = copy(alloc, cell)?;
        }
        self.total = total;
        self.count = one_more(self.count)?;
        Ok(())
    }

    /// What an aggregate comes to.
    pub(crate) fn finished(self, f: Aggregate) -> Cell
        ensures { IsTotalOf self.count self.total → result ≡ spec.finished f self }
    {
        match f {
            Aggregate::Single => single(self.count, self.cell),
            Aggregate::Count => count_cell(self.count),
            Aggregate::Sum => sum(self.count, self.total),
            Aggregate::Avg => mean(self.count, self.total),
            Aggregate::Min | Aggregate::Max => self.cell,
        }
    }
}
