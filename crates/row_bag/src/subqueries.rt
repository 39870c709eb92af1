// What the rows of a subquery come to (SQL-92, 6.11, 7.11, 8.4, 8.7 and 8.8).
ghost use Rattle.std.specs.Prelude.{◌≡◌, ◌≤◌, None, Some, true, false, IfOk, drop, length};
ghost use Rattle.std.specs.List.{list_any};
ghost use Rattle.row_bag.specs.Bags.{if_there};
ghost use Rattle.row_bag.specs.Errors.{error_at};
ghost use Rattle.row_bag.specs.Subqueries as u;
ghost use Rattle.row_bag.specs.Verdict.{is_there};
ghost use Rattle.sql_value.specs.Arithmetic as a;
ghost use Rattle.sql_value.specs.Cells as cells;
ghost use Rattle.sql_value.specs.Comparison as c;
ghost use Rattle.sql_value.specs.Truths as t;
ghost use Rattle.sql_value.specs.declared.cell.Cell.TheVariants.{Null};
ghost use Rattle.sql_value.specs.declared.cell.Kind.TheVariants as Kind;

use crate::answer::{error_at, worst_of};
use crate::bag::Bag;
use crate::row::RowRef;
use shared_types::OutOfMemory;
use sql_value::{Cell, CmpOp, Kind, Level, Truth, and, compare, copy, decided, not, or};
use std::alloc::Global;

/// How far a row at a level is there: true at yes, false at no, and else the error.
pub fn presence(level: Level) -> Truth
    ensures { result ≡ u.presence level }
{
    match level {
        Level::Yes => decided(true),
        Level::No => decided(false),
        Level::Cardinality => Truth {
            t: Level::Cardinality,
            f: Level::Cardinality,
        },
        Level::Division => Truth {
            t: Level::Division,
            f: Level::Division,
        },
        Level::Overflow => Truth {
            t: Level::Overflow,
            f: Level::Overflow,
        },
    }
}

// The first cell of a row, or this null where it has none.
fn only_cell<'a>(cells: &'a [Cell], null: &'a Cell) -> &'a Cell
    requires { null.now ≡ Null }
    ensures { result.now ≡ u.only_cell cells.now }
{
    match cells {
        [] => null,
        [cell, ..] => cell,
    }
}

// Presence of a row, false of a row that isn't there.
fn exists_one(row: RowRef<'_>) -> Truth
    ensures { result ≡ if_there (t.truth_of false) (λ cells level. u.presence level) row.entry.cells.now row.entry.level }
{
    presence(row.level)
}

// A comparison with the cell of a row.
fn compared(op: CmpOp, x: &Cell, row: RowRef<'_>) -> Truth
    ensures { result ≡ c.compare op x.now (u.only_cell row.entry.cells.now) }
{
    let null = Cell::Null;
    compare(op, x, only_cell(row.cells, &null))
}

// Presence of a row AND a comparison with its cell, false of a row that isn't there.
fn any_one(op: CmpOp, x: &Cell, row: RowRef<'_>) -> Truth
    ensures { result ≡ if_there (t.truth_of false) (λ cells level. t.and (u.presence level) (c.compare op x.now (u.only_cell cells))) row.entry.cells.now row.entry.level }
{
    match row.level {
        Level::No => decided(false),
        Level::Cardinality | Level::Division | Level::Overflow | Level::Yes => {
            and(presence(row.level), compared(op, x, row))
        }
    }
}

// NOT presence of a row OR a comparison with its cell, true of a row that isn't there.
fn all_one(op: CmpOp, x: &Cell, row: RowRef<'_>) -> Truth
    ensures { result ≡ if_there (t.truth_of true) (λ cells level. t.or (t.negated (u.presence level)) (c.compare op x.now (u.only_cell cells))) row.entry.cells.now row.entry.level }
{
    match row.level {
        Level::No => decided(true),
        Level::Cardinality | Level::Division | Level::Overflow | Level::Yes => {
            or(not(presence(row.level)), compared(op, x, row))
        }
    }
}

/// EXISTS: whether a row is there (SQL-92 8.8).
pub fn exists(rows: &Bag) -> Truth
    ensures { result ≡ u.exists rows.now }
{
    let mut truth = decided(false);
    for i in 0..rows.len() {
        truth = or(truth, exists_one(rows.at(i)));
    }
    truth
}

/// `x op ANY`: whether the comparison holds of some row's cell (SQL-92 8.7).
pub fn compare_any(op: CmpOp, x: &Cell, rows: &Bag) -> Truth
    ensures { result ≡ u.compare_any op x.now rows.now }
{
    let mut truth = decided(false);
    for i in 0..rows.len() {
        truth = or(truth, any_one(op, x, rows.at(i)));
    }
    truth
}

/// `x op ALL`: whether the comparison holds of every row's cell (SQL-92 8.7).
pub fn compare_all(op: CmpOp, x: &Cell, rows: &Bag) -> Truth
    ensures { result ≡ u.compare_all op x.now rows.now }
{
    let mut truth = decided(true);
    for i in 0..rows.len() {
        truth = and(truth, all_one(op, x, rows.at(i)));
    }
    truth
}

// The error that the level of a row is, none of a row that isn't there.
fn level_error_one(row: RowRef<'_>) -> Option<Kind>
    ensures { result ≡ if_there None (λ cells level. error_at level) row.entry.cells.now row.entry.level }
{
    error_at(row.level)
}

// The greatest of the errors that levels of rows from a place on are.
fn level_error(rows: &Bag, start: usize) -> Option<Kind>
    requires { start ≤ length rows.now }
    ensures { result ≡ u.level_error (drop start rows.now) }
{
    let mut found = None;
    for i in start..rows.len() {
        found = worst_of(found, level_error_one(rows.at(i)));
    }
    found
}

// The cell of a row at yes, or the error of its level.
fn cell_of_one(alloc: Global, row: RowRef<'_>) -> Result<Cell, OutOfMemory>
    ensures { IfOk result (λ cell. cell ≡ a.error_or (error_at row.entry.level) (u.only_cell row.entry.cells.now)) }
{
    if let Some(kind) = error_at(row.level) {
        return Ok(Cell::Err(kind));
    }
    let null = Cell::Null;
    copy(alloc, only_cell(row.cells, &null))
}

// The cardinality error, or a greater one that the level of a row from a place on is.
fn too_many(rows: &Bag, start: usize) -> Cell
    requires { start ≤ length rows.now }
    ensures { result ≡ a.error_or (cells.worst_of (Some Kind.Cardinality) (u.level_error (drop start rows.now))) Null }
{
    match worst_of(Some(Kind::Cardinality), level_error(rows, start)) {
        Some(kind) => Cell::Err(kind),
        None => Cell::Null,
    }
}

// Whether a row from a place on is there.
fn any_there_from(rows: &Bag, start: usize) -> bool
    requires { start ≤ length rows.now }
    ensures { result ≡ list_any is_there (drop start rows.now) }
{
    for i in start..rows.len() {
        if rows.at(i).is_there() {
            return true;
        }
    }
    false
}

/// Whether a row is there.
pub fn any_there(rows: &Bag) -> bool
    ensures { result ≡ list_any is_there rows.now }
{
    any_there_from(rows, 0)
}

/// A scalar subquery of these rows (SQL-92 7.11): null of no row, the cell of one at yes, and else the
/// greatest of their error levels and, where there are two or more, cardinality. It fails only for
/// want of memory.
pub fn scalar(alloc: Global, rows: &Bag) -> Result<Cell, OutOfMemory>
    ensures { IfOk result (λ cell. cell ≡ u.scalar rows.now) }
{
    for i in 0..rows.len() {
        let row = rows.at(i);
        if row.is_there() {
            if any_there_from(rows, i + 1) {
                return Ok(too_many(rows, i));
            }
            return cell_of_one(alloc, row);
        }
    }
    Ok(Cell::Null)
}
