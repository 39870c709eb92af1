// Aggregates of cells (SQL-92, 6.5).
ghost use Rattle.std.specs.Prelude.{◌≡◌, ℕ, pos, if◌then◌else◌, None, nat_eq, filter, is_some, unwrap_or, map, [], ◌∷◌, ◌++◌, IfOk, List, OnOk};
ghost use Rattle.row_bag.specs.Aggregates as spec;
ghost use Rattle.row_bag.specs.Bags.{if_there, total, unit};
ghost use Rattle.row_bag.specs.Errors.{error_among, error_at};
ghost use Rattle.row_bag.specs.Hashes.{hashes_of};
ghost use Rattle.row_bag.specs.Joins.{how_many};
ghost use Rattle.row_bag.specs.Matched.{often};
ghost use Rattle.row_bag.specs.Sets.{once};
ghost use Rattle.row_bag.specs.Verdict.{those_there};
ghost use Rattle.row_bag.specs.Arguments.{IsTotalOf, is_value};
ghost use Rattle.sql_value.specs.Cells as cells;
ghost use Rattle.sql_value.specs.declared.cell.Cell.TheVariants.{Null};

use crate::answer::{error_at, error_of, worst_of};
use crate::bag::Bag;
use crate::row::Row;
use crate::tuple_index::{HasTuples, TupleIndex, hash_of};
use shared_types::OutOfMemory;
use sql_value::{Aggregate, Cell, Kind, Level, Taken, cell_order, copy};
use std::alloc::Global;
use std::slice;

// The greatest error of a row that is there.
fn error_of_row(row: &Row<Cell>) -> Option<Kind>
    ensures { result ≡ if_there None (λ c level. cells.worst_of (error_at level) (cells.error_of c)) row.now.cells row.now.level }
{
    match row.level {
        Level::No => None,
        Level::Cardinality | Level::Division | Level::Overflow | Level::Yes => {
            worst_of(error_at(row.level), error_of(&row.cells))
        }
    }
}

// The greatest error among cells.
fn error_among_cells(rows: &[Row<Cell>]) -> Option<Kind>
    ensures { result ≡ error_among cells.error_of rows.now }
{
    let mut found = None;
    for row in rows {
        found = worst_of(found, error_of_row(row));
    }
    found
}

// A cell isn't null.
fn is_value(row: &Row<Cell>) -> bool
    ensures { result ≡ is_value row.now }
{
    match row.cells {
        Cell::Null => false,
        Cell::Int(_) | Cell::Text(_) | Cell::Err(_) => true,
    }
}

// The cells that aren't null.
fn without_nulls(rows: Vec<Row<Cell>>) -> Vec<Row<Cell>>
    ensures { result.items ≡ filter is_value rows.items }
{
    let mut rows = rows;
    rows.retain(|row| is_value(row));
    rows
}

impl HasTuples for Vec<Row<Cell>> {
    ghost tuples = { λ v. map (λ r. r.cells ∷ []) v.items };

    fn tuple(&self, place: usize) -> &[Cell] {
        slice::from_ref(&self[place].cells)
    }
}

// Adds a cell that doesn't stand among these.
fn keep_cell(
    alloc: Global,
    index: &mut TupleIndex,
    kept: &mut Vec<Row<Cell>>,
    cell: &Cell,
) -> Result<(), OutOfMemory>
    requires { index.old ≡ hashes_of (map (λ r. r.cells ∷ []) kept.old.items) }
    ensures index { OnOk result (index.new ≡ hashes_of (map (λ r. r.cells ∷ []) kept.new.items)) }
    ensures kept { OnOk result (kept.new.items ≡ kept.old.items ++ (if nat_eq (often (cell.now ∷ []) (map (λ r. r.cells ∷ []) kept.old.items)) 0 then unit cell.now else [])) }
{
    let tuple = slice::from_ref(cell);
    let hash = hash_of(tuple);
    if index.find(&*kept, hash, tuple).is_none() {
        index.push(hash)?;
        kept.push(Row {
            cells: copy(alloc, cell)?,
            level: Level::Yes,
        })?;
    }
    Ok(())
}

// Adds the cell of a row that is there, if it doesn't stand among these.
fn keep_row(
    alloc: Global,
    index: &mut TupleIndex,
    kept: &mut Vec<Row<Cell>>,
    row: &Row<Cell>,
) -> Result<(), OutOfMemory>
    requires { index.old ≡ hashes_of (map (λ r. r.cells ∷ []) kept.old.items) }
    ensures index { OnOk result (index.new ≡ hashes_of (map (λ r. r.cells ∷ []) kept.new.items)) }
    ensures kept { OnOk result (kept.new.items ≡ kept.old.items ++ if_there [] (λ c level. if nat_eq (often (c ∷ []) (map (λ r. r.cells ∷ []) kept.old.items)) 0 then unit c else []) row.now.cells row.now.level) }
{
    match row.level {
        Level::No => Ok(()),
        Level::Cardinality | Level::Division | Level::Overflow | Level::Yes => {
            keep_cell(alloc, index, kept, &row.cells)
        }
    }
}

// Each cell once, where it stands last.
fn once(alloc: Global, rows: &[Row<Cell>]) -> Result<Vec<Row<Cell>>, OutOfMemory>
    ensures { IfOk result (λ made. made.items ≡ once spec.same_cell rows.now) }
{
    let mut index = TupleIndex::with_chains(alloc, rows.len())?;
    let mut kept = Vec::new(alloc);
    let mut i = rows.len();
    while i > 0 {
        i -= 1;
        keep_row(alloc, &mut index, &mut kept, &rows[i])?;
    }
    kept.reverse();
    Ok(kept)
}

// With DISTINCT each cell once.
fn as_taken(alloc: Global, each: Taken, rows: Vec<Row<Cell>>) -> Result<Vec<Row<Cell>>, OutOfMemory>
    ensures { IfOk result (λ made. made.items ≡ spec.as_taken each rows.items) }
{
    match each {
        Taken::All => Ok(rows),
        Taken::Distinct => once(alloc, &rows),
    }
}

// The values among arguments.
fn values(alloc: Global, each: Taken, rows: Vec<Row<Cell>>) -> Result<Vec<Row<Cell>>, OutOfMemory>
    ensures { IfOk result (λ made. made.items ≡ spec.values each rows.items) }
{
    as_taken(alloc, each, without_nulls(rows))
}

// A row is there.
fn is_there<T>(row: &Row<T>) -> bool
    ensures { ◌≡◌ {A = ℕ} (if result then 1 else 0) (if_there 0 (λ cell level. 1) row.now.cells row.now.level) }
{
    row.level != Level::No
}

// How many rows there are.
fn how_many<T>(rows: &[Row<T>]) -> usize
    ensures { result ≡ how_many rows.now }
{
    let mut count = 0;
    for row in rows {
        if is_there(row) {
            count += 1;
        }
    }
    count
}

/// Numbers of 64 bits: how many they are, and their exact total.
#[derive(Clone, Copy)]
struct Totals {
    count: usize,
    total: i128,
}

// The number of a row, none of a row that isn't there.
fn number_of(row: &Row<Cell>) -> Option<i64>
    ensures number { unwrap_or result (pos 0) ≡ if_there (pos 0) (λ c level. spec.number_in c) row.now.cells row.now.level }
    ensures count { ◌≡◌ {A = ℕ} (if is_some result then 1 else 0) (if_there 0 (λ c level. 1) row.now.cells row.now.level) }
{
    if row.level == Level::No {
        return None;
    }
    match row.cells {
        Cell::Int(number) => Some(number),
        Cell::Text(_) | Cell::Null | Cell::Err(_) => Some(0),
    }
}

// How many rows there are, and the exact total of their numbers.
fn add_up(rows: &[Row<Cell>]) -> Totals
    ensures count { result.count ≡ how_many rows.now }
    ensures total { result.total ≡ spec.exact_total rows.now }
    ensures within { IsTotalOf result.count result.total }
{
    let mut count = 0;
    let mut total: i128 = 0;
    for row in rows {
        if let Some(number) = number_of(row) {
            count += 1;
            total += i128::from(number);
        }
    }
    Totals { count, total }
}

// The total of so many numbers.
fn sum(count: usize, total: i128) -> Cell
    ensures { result ≡ spec.sum count total }
{
    if count == 0 {
        return Cell::Null;
    }
    match i64::try_from(total) {
        Ok(number) => Cell::Int(number),
        Err(_) => Cell::Err(Kind::Overflow),
    }
}

// The mean of so many numbers.
fn mean(count: usize, total: i128) -> Cell
    requires within { IsTotalOf count total }
    ensures { result ≡ spec.mean count total }
{
    if count == 0 {
        return Cell::Null;
    }
    Cell::Int((total / count as i128) as i64)
}

/// A count, at most 9223372036854775807.
pub fn count_cell(count: usize) -> Cell
    ensures { result ≡ spec.count_cell count }
{
    match i64::try_from(count) {
        Ok(number) => Cell::Int(number),
        Err(_) => Cell::Int(i64::MAX),
    }
}

/// `COUNT(*)`: the number of rows (SQL-92 6.5).
pub fn count_rows(rows: &Bag) -> Cell
    ensures { result ≡ spec.count_rows rows.now }
{
    let mut count = 0;
    for i in 0..rows.len() {
        if rows.at(i).is_there() {
            count += 1;
        }
    }
    count_cell(count)
}

// The lesser of two cells, of which null is none.
fn lesser<'a>(x: &'a Cell, y: &'a Cell) -> &'a Cell
    ensures { result.now ≡ spec.lesser_cell x.now y.now }
{
    match (x, y) {
        (Cell::Null, _) => y,
        (Cell::Int(_) | Cell::Text(_) | Cell::Err(_), Cell::Null) => x,
        (
            Cell::Int(_) | Cell::Text(_) | Cell::Err(_),
            Cell::Int(_) | Cell::Text(_) | Cell::Err(_),
        ) => { if cell_order(x, y).is_le() { x } else { y } }
    }
}

// The greater of two cells, of which null is none.
fn greater<'a>(x: &'a Cell, y: &'a Cell) -> &'a Cell
    ensures { result.now ≡ spec.greater_cell x.now y.now }
{
    match (x, y) {
        (Cell::Null, _) => y,
        (Cell::Int(_) | Cell::Text(_) | Cell::Err(_), Cell::Null) => x,
        (
            Cell::Int(_) | Cell::Text(_) | Cell::Err(_),
            Cell::Int(_) | Cell::Text(_) | Cell::Err(_),
        ) => { if cell_order(x, y).is_le() { y } else { x } }
    }
}

// The cell of a row that is there, else this null.
fn cell_there<'a>(row: &'a Row<Cell>, null: &'a Cell) -> &'a Cell
    requires { null.now ≡ Null }
    ensures { result.now ≡ if_there Null (λ c level. c) row.now.cells row.now.level }
{
    if row.level == Level::No {
        null
    } else {
        &row.cells
    }
}

// The least cell, null of none.
fn min(alloc: Global, rows: &[Row<Cell>]) -> Result<Cell, OutOfMemory>
    ensures { IfOk result (λ cell. cell ≡ total spec.lesser_cell Null (λ c level. c) rows.now) }
{
    let null = Cell::Null;
    let mut least = &null;
    let mut i = rows.len();
    while i > 0 {
        i -= 1;
        least = lesser(cell_there(&rows[i], &null), least);
    }
    copy(alloc, least)
}

// The greatest cell, null of none.
fn max(alloc: Global, rows: &[Row<Cell>]) -> Result<Cell, OutOfMemory>
    ensures { IfOk result (λ cell. cell ≡ total spec.greater_cell Null (λ c level. c) rows.now) }
{
    let null = Cell::Null;
    let mut greatest = &null;
    let mut i = rows.len();
    while i > 0 {
        i -= 1;
        greatest = greater(cell_there(&rows[i], &null), greatest);
    }
    copy(alloc, greatest)
}

// The cells that are there.
fn cells_there(rows: Vec<Row<Cell>>) -> Vec<Row<Cell>>
    ensures { result.items ≡ those_there rows.items }
{
    let mut rows = rows;
    rows.retain(|row| row.level != Level::No);
    rows
}

// The cell of at most one row.
fn single_of_those(alloc: Global, rows: &[Row<Cell>]) -> Result<Cell, OutOfMemory>
    ensures { IfOk result (λ cell. cell ≡ spec.single_of_those rows.now) }
{
    match rows {
        [] => Ok(Cell::Null),
        [row] => copy(alloc, &row.cells),
        [_, _, ..] => Ok(Cell::Err(Kind::Cardinality)),
    }
}

// The number of values.
fn count(alloc: Global, each: Taken, rows: Vec<Row<Cell>>) -> Result<Cell, OutOfMemory>
    ensures { IfOk result (λ cell. cell ≡ spec.count_cell (how_many (spec.values each rows.items))) }
{
    let rows = values(alloc, each, rows)?;
    Ok(count_cell(how_many(&rows)))
}

// The values, how many they are, and their exact total.
fn added_up(alloc: Global, each: Taken, rows: Vec<Row<Cell>>) -> Result<Totals, OutOfMemory>
    ensures count { IfOk result (λ t. t.count ≡ how_many (spec.values each rows.items)) }
    ensures total { IfOk result (λ t. t.total ≡ spec.exact_total (spec.values each rows.items)) }
    ensures within { IfOk result (λ t. IsTotalOf t.count t.total) }
{
    let rows = values(alloc, each, rows)?;
    Ok(add_up(&rows))
}

// An aggregate of arguments of which none is an error.
fn of_arguments(
    alloc: Global,
    f: Aggregate,
    each: Taken,
    rows: Vec<Row<Cell>>,
) -> Result<Cell, OutOfMemory>
    ensures { IfOk result (λ cell. cell ≡ spec.of_arguments f each rows.items) }
{
    match f {
        Aggregate::Single => {
            let rows = cells_there(rows);
            single_of_those(alloc, &rows)
        }
        Aggregate::Count => count(alloc, each, rows),
        Aggregate::Sum => {
            let found = added_up(alloc, each, rows)?;
            Ok(sum(found.count, found.total))
        }
        Aggregate::Avg => {
            let found = added_up(alloc, each, rows)?;
            Ok(mean(found.count, found.total))
        }
        Aggregate::Min => {
            let rows = values(alloc, each, rows)?;
            min(alloc, &rows)
        }
        Aggregate::Max => {
            let rows = values(alloc, each, rows)?;
            max(alloc, &rows)
        }
    }
}

/// An aggregate of the arguments that the rows of a group give (SQL-92 6.5): the greatest error among
/// them, if one is an error, else that of the values, by their exact total; `Single` is the cell of at
/// most one row. It fails only for want of memory.
pub fn folded(
    alloc: Global,
    f: Aggregate,
    each: Taken,
    rows: Vec<Row<Cell>>,
) -> Result<Cell, OutOfMemory>
    ensures { IfOk result (λ cell. cell ≡ spec.folded f each rows.items) }
{
    if let Some(kind) = error_among_cells(&rows) {
        return Ok(Cell::Err(kind));
    }
    of_arguments(alloc, f, each, rows)
}
