// A row, and the order of two rows.
ghost use Rattle.std.specs.Prelude.{◌≡◌, List};
ghost use Rattle.std.specs.Cmp.{IsTotalOrder};
ghost use Rattle.std.specs.Cmp.Lexicographic.{slice_cmp};
ghost use Rattle.sql_value.specs.Cells.{cell_compare};
ghost use Rattle.row_bag.specs.Order as spec;
ghost use Rattle.row_bag.specs.RowRefs.{lent};
ghost use Rattle.row_bag.specs.Sets.{same_cells};
ghost use Rattle.row_bag.specs.Verdict.{is_there};

use sql_value::{Cell, Level, OrderKey, cell_order};
use sqlite_items::Items;
use std::cmp::Ordering;

/// A row: a tuple, and the level at which it is there. The tuple of a table's or of a query's row
/// is a cell for each column, in the columns' order; definitions speak of other tuples too.
#[derive(Drop)]
pub struct Row<T = Items<Cell>> {
    pub cells: T,
    pub level: Level,
}

/// A row that stands elsewhere.
#[derive(Clone, Copy)]
pub struct RowRef<'a> {
    pub cells: &'a [Cell],
    pub level: Level,
}

impl<'a> RowRef<'a> {
    /// The row is there: its level isn't `Level::No`.
    pub fn is_there(self) -> bool
        ensures { result ≡ is_there (lent self.entry) }
    {
        match self.level {
            Level::No => false,
            Level::Cardinality | Level::Division | Level::Overflow | Level::Yes => true,
        }
    }
}

impl Row {
    /// The row, where it stands.
    pub fn lent(&self) -> RowRef<'_>
        ensures { lent result ≡ self.now }
    {
        RowRef {
            cells: self.cells.as_slice(),
            level: self.level,
        }
    }
}

// The order of two lists of cells: that of their first cells that differ, from the left, and else
// that of their numbers of cells.
pub(crate) fn cells_order(left: &[Cell], right: &[Cell]) -> Ordering
    ensures { result ≡ slice_cmp cell_compare left.now right.now }
{
    for i in 0..left.len().min(right.len()) {
        let order = cell_order(&left[i], &right[i]);
        if order != Ordering::Equal {
            return order;
        }
    }
    left.len().cmp(&right.len())
}

/// Two tuples are equal: their cells are the same data, nulls and errors of one kind too (SQL-92 3.1,
/// "distinct").
pub fn same_cells(left: &[Cell], right: &[Cell]) -> bool
    ensures { result ≡ same_cells left.now right.now }
{
    cells_order(left, right).is_eq()
}

/// The order of two rows: that of their first cells that differ, from the left, and else that of
/// their numbers of cells, and else that of their levels.
pub fn row_order(a: RowRef<'_>, b: RowRef<'_>) -> Ordering
    ensures { result ≡ spec.row_compare (lent a.entry) (lent b.entry) }
{
    match cells_order(a.cells, b.cells) {
        Ordering::Equal => a.level.cmp(&b.level),
        order => order,
    }
}

/// The cell of a column, counted from 1, or this null where the row has no such column.
pub(crate) fn cell_of<'a>(column: usize, cells: &'a [Cell], null: &'a Cell) -> &'a Cell
    requires { null.now ≡ Cell.Null }
    ensures { result.now ≡ spec.cell_of column cells.now }
{
    if column == 0 {
        return null;
    }
    match cells.get(column - 1) {
        Some(cell) => cell,
        None => null,
    }
}

// The order of two rows by a key.
fn key_order(key: &OrderKey, a: RowRef<'_>, b: RowRef<'_>) -> Ordering
    ensures { result ≡ spec.key_compare key.now (lent a.entry) (lent b.entry) }
{
    let null = Cell::Null;
    let left = cell_of(key.column, a.cells, &null);
    let right = cell_of(key.column, b.cells, &null);
    if key.descending {
        cell_order(right, left)
    } else {
        cell_order(left, right)
    }
}

// The order of two rows by keys, and where they tie that of all their columns.
fn compared_by(keys: &[OrderKey], a: RowRef<'_>, b: RowRef<'_>) -> Ordering
    ensures { result ≡ spec.compare_by keys.now (lent a.entry) (lent b.entry) }
{
    for key in keys {
        let order = key_order(key, a, b);
        if order != Ordering::Equal {
            return order;
        }
    }
    row_order(a, b)
}

/// The order of two rows by keys, the first of which decides first, and where they tie that of
/// `row_order`. A key's column counts from 1; ascending its cells stand null first, descending
/// in the reverse order, and a row that has no such column stands as if it held null there. It
/// is a total order, and rows that tie are equal.
pub fn order_by(keys: &[OrderKey], a: RowRef<'_>, b: RowRef<'_>) -> Ordering
    ensures order { result ≡ spec.compare_by keys.now (lent a.entry) (lent b.entry) }
    ensures total { IsTotalOrder (spec.compare_by keys.now) }
    ensures ties { (x : Row (List Cell)) → (y : Row (List Cell)) → spec.compare_by keys.now x y ≡ Ordering.Equal → x ≡ y }
{
    compared_by(keys, a, b)
}
