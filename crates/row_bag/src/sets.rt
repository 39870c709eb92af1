// Operations that go by how often a tuple occurs.
ghost use Rattle.std.specs.Prelude.{◌≡◌, ◌++◌, ◌∷◌, [], IfOk, OnOk, Some, slice_get, if◌then◌else◌};
ghost use Rattle.row_bag.specs.Bags.{Agree, row};
ghost use Rattle.row_bag.specs.Errors as errors;
ghost use Rattle.row_bag.specs.Hashes.{AreDifferent, hash_of, hashes_of, tuples_of};
ghost use Rattle.row_bag.specs.Operands.{held};
ghost use Rattle.row_bag.specs.RowRefs.{lent};
ghost use Rattle.row_bag.specs.Sets as spec;
ghost use Rattle.sql_value.specs.Level.{level_of};

use crate::answer::{error_among, those_there, worst_of};
use crate::bag::Bag;
use crate::matched::matching;
use crate::operand::Operand;
use crate::row::{Row, RowRef};
use crate::tuple_index::{TupleIndex, hash_of};
use crate::tuples::append_copied;
use shared_types::OutOfMemory;
use sql_value::{Cell, Kind, greatest, level_of};
use sqlite_items::Items;
use std::alloc::Global;

// Raises the level of the row at a place to that of a row of an equal tuple.
fn raise(kept: &mut Bag, place: usize, row: RowRef<'_>)
    requires { slice_get (tuples_of kept.old) place ≡ Some (lent row).cells }
    ensures tuples { tuples_of kept.new ≡ tuples_of kept.old }
    ensures levels { spec.SameLevels spec.same_cells kept.new (kept.old ++ lent row.entry ∷ []) }
{
    kept.raise(place, row.level);
}

// Adds a copy of a row of a tuple, of this hash, that doesn't stand among the rows.
fn keep_new(
    alloc: Global,
    index: &mut TupleIndex,
    kept: &mut Bag,
    hash: u64,
    row: RowRef<'_>,
) -> Result<(), OutOfMemory>
    requires index { index.old ≡ hashes_of (tuples_of kept.old) }
    requires hash { hash ≡ hash_of (lent row).cells }
    ensures index { OnOk result (index.new ≡ hashes_of (tuples_of kept.new)) }
    ensures kept { OnOk result (kept.new ≡ kept.old ++ lent row.entry ∷ []) }
{
    index.push(hash)?;
    kept.push_copied(alloc, row)?;
    Ok(())
}

// Adds a copy of a row to rows of different tuples: the one of an equal tuple is raised to its level,
// and where there is none, it is kept too.
fn keep(
    alloc: Global,
    index: &mut TupleIndex,
    kept: &mut Bag,
    row: RowRef<'_>,
) -> Result<(), OutOfMemory>
    requires { index.old ≡ hashes_of (tuples_of kept.old) }
    ensures index { OnOk result (index.new ≡ hashes_of (tuples_of kept.new)) }
    ensures levels { OnOk result (spec.SameLevels spec.same_cells kept.new (kept.old ++ lent row.entry ∷ [])) }
    ensures once { OnOk result (AreDifferent (tuples_of kept.old) → AreDifferent (tuples_of kept.new)) }
{
    let hash = hash_of(row.cells);
    match index.find(&*kept, hash, row.cells) {
        Some(place) => {
            raise(kept, place, row);
            Ok(())
        }
        None => {
            keep_new(alloc, index, kept, hash, row)?;
            Ok(())
        }
    }
}

// Adds copies of rows to rows of different tuples, as [`keep`] does.
fn keep_each(
    alloc: Global,
    index: &mut TupleIndex,
    kept: &mut Bag,
    rows: &Bag,
) -> Result<(), OutOfMemory>
    requires { index.old ≡ hashes_of (tuples_of kept.old) }
    ensures index { OnOk result (index.new ≡ hashes_of (tuples_of kept.new)) }
    ensures levels { OnOk result (spec.SameLevels spec.same_cells kept.new (kept.old ++ rows.now)) }
    ensures once { OnOk result (AreDifferent (tuples_of kept.old) → AreDifferent (tuples_of kept.new)) }
{
    for i in 0..rows.len() {
        keep(alloc, index, kept, rows.at(i))?;
    }
    Ok(())
}

/// DISTINCT: each tuple once, at its greatest level. Tuples are equal where their cells are the
/// same data, nulls and errors of one kind too (SQL-92 3.1, "distinct"). It fails only for want of
/// memory.
pub fn distinct(bag: Bag) -> Result<Bag, OutOfMemory>
    ensures { IfOk result (λ b. Agree spec.same_cells b (spec.distinct spec.same_cells bag)) }
{
    let alloc = bag.allocator();
    let mut index = TupleIndex::with_chains(alloc, bag.len())?;
    let mut kept = Bag::new(alloc);
    keep_each(alloc, &mut index, &mut kept, &bag)?;
    Ok(those_there(kept))
}

// The rows of both, one after the other.
fn appended(alloc: Global, a: Operand<'_>, b: Operand<'_>) -> Result<Bag, OutOfMemory>
    ensures { IfOk result (λ rows. rows ≡ held a.entry ++ held b.entry) }
{
    let mut rows = a.into_bag(alloc)?;
    match b {
        Operand::Borrowed(more) => append_copied(alloc, &mut rows, more)?,
        Operand::Made(more) => rows.append(more)?,
    }
    Ok(rows)
}

// Each tuple of both once, at its greatest level.
fn union_once(alloc: Global, a: Operand<'_>, b: Operand<'_>) -> Result<Bag, OutOfMemory>
    ensures { IfOk result (λ rows. Agree spec.same_cells rows (spec.union spec.same_cells (held a.entry) (held b.entry))) }
{
    let most = a.rows().len().saturating_add(b.rows().len());
    let mut index = TupleIndex::with_chains(alloc, most)?;
    let mut kept = Bag::new(alloc);
    keep_each(alloc, &mut index, &mut kept, a.rows())?;
    keep_each(alloc, &mut index, &mut kept, b.rows())?;
    Ok(those_there(kept))
}

/// UNION: each tuple of both once, at its greatest level; with `all` UNION ALL, the rows of both
/// (SQL-92 7.10). Rows are copied where they are kept. It fails only for want of memory.
pub fn union(alloc: Global, a: Operand<'_>, b: Operand<'_>, all: bool) -> Result<Bag, OutOfMemory>
    ensures { IfOk result (λ rows. Agree spec.same_cells rows (if all then held a.entry ++ held b.entry else spec.union spec.same_cells (held a.entry) (held b.entry))) }
{
    if all {
        appended(alloc, a, b)
    } else {
        union_once(alloc, a, b)
    }
}

// The greatest error among the levels and the cells of both rows.
fn error_of_both(a: &Bag, b: &Bag) -> Option<Kind>
    ensures { result ≡ errors.error_among errors.error_in (a.now ++ b.now) }
{
    worst_of(error_among(a), error_among(b))
}

/// A tuple that is an error in so many columns. It fails only for want of memory.
pub fn failed_cells(alloc: Global, columns: usize, kind: Kind) -> Result<Items<Cell>, OutOfMemory>
    ensures { IfOk result (λ cells. cells ≡ spec.failed_cells columns kind) }
{
    let mut cells = Items::new(alloc);
    for _ in 0..columns {
        cells.push(Cell::Err(kind))?;
    }
    Ok(cells)
}

/// One row at the level of an error, which is that error in so many columns. It fails only for want
/// of memory.
pub fn failed_row(alloc: Global, columns: usize, kind: Kind) -> Result<Bag, OutOfMemory>
    ensures { IfOk result (λ rows. rows ≡ row (spec.failed_cells columns kind) (level_of kind) ∷ []) }
{
    let cells = failed_cells(alloc, columns, kind)?;
    let mut rows = Bag::new(alloc);
    rows.push(Row {
        cells,
        level: level_of(kind),
    })?;
    Ok(rows)
}

/// INTERSECT: each tuple that occurs in both bags, once; with `all` INTERSECT ALL, as often as in
/// the bag that has it less often (SQL-92 7.10). Where a row of either is at an error level or has
/// an error cell, it is one row at the level of the greatest such error, which is that error in so
/// many columns. It fails only for want of memory.
pub fn intersect(
    alloc: Global,
    a: &Bag,
    b: &Bag,
    all: bool,
    columns: usize,
) -> Result<Bag, OutOfMemory>
    ensures { IfOk result (λ rows. Agree spec.same_cells rows (spec.collapsed errors.error_in (spec.failed_cells columns) (a.now ++ b.now) (if all then spec.intersect_all spec.same_cells a.now b.now else spec.intersect spec.same_cells a.now b.now))) }
{
    match error_of_both(a, b) {
        Some(kind) => failed_row(alloc, columns, kind),
        None => matching(alloc, a, b, all, true),
    }
}

/// EXCEPT: each tuple of the first bag that doesn't occur in the second, once; with `all` EXCEPT
/// ALL, as often as it occurs more often in the first (SQL-92 7.10). Where a row of either is at an
/// error level or has an error cell, it is one row, as in [`intersect`]. It fails only for want of
/// memory.
pub fn except(
    alloc: Global,
    a: &Bag,
    b: &Bag,
    all: bool,
    columns: usize,
) -> Result<Bag, OutOfMemory>
    ensures { IfOk result (λ rows. Agree spec.same_cells rows (spec.collapsed errors.error_in (spec.failed_cells columns) (a.now ++ b.now) (if all then spec.except_all spec.same_cells a.now b.now else spec.except spec.same_cells a.now b.now))) }
{
    match error_of_both(a, b) {
        Some(kind) => failed_row(alloc, columns, kind),
        None => matching(alloc, a, b, all, false),
    }
}
