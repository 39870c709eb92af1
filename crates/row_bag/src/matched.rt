// The tuples of one bag that those of another match.
ghost use Rattle.std.specs.Prelude.{◌≡◌, ◌+◌, ◌++◌, ◌∷◌, ◌^◌, [], List, IfOk, OnOk, Some, if◌then◌else◌, false, map, min, slice_get, ◌<◌};
ghost use Rattle.row_bag.specs.Bags.{count, row, same_level};
ghost use Rattle.row_bag.specs.Hashes.{AreDifferent, hash_of, hashes_of};
ghost use Rattle.row_bag.specs.Matched as spec;
ghost use Rattle.row_bag.specs.RowRefs.{lent};
ghost use Rattle.row_bag.specs.Sets.{multiplicity, same_cells};
ghost use Rattle.sql_value.specs.declared.cell.Cell.{Cell};
ghost use Rattle.sql_value.specs.declared.level.Level.{Level};

use crate::bag::Bag;
use crate::row::RowRef;
use crate::tuple_index::{HasTuples, TupleIndex, hash_of};
use shared_types::OutOfMemory;
use sql_value::{Cell, Level};
use std::alloc::Global;

/// A tuple that stands elsewhere, and how many equal ones are left to be matched.
#[derive(Drop)]
struct Left<'a> {
    cells: &'a [Cell],
    count: usize,
}

impl<'a> HasTuples for Vec<Left<'a>> {
    ghost tuples = { λ v. map (λ l. l.cells.now) v.items };

    fn tuple(&self, place: usize) -> &[Cell] {
        self[place].cells
    }
}

impl<'a> HasTuples for Vec<&'a [Cell]> {
    ghost tuples = { λ v. map (λ t. t.now) v.items };

    fn tuple(&self, place: usize) -> &[Cell] {
        self[place]
    }
}

// Different tuples, found by hash, and how many of each are left to be matched.
#[derive(Drop)]
struct Lefts<'a> {
    index: TupleIndex,
    items: Vec<Left<'a>>,
}

// Counts one more of the tuple at a place.
fn count_one(items: &mut Vec<Left<'_>>, place: usize, cells: &[Cell])
    requires place { slice_get (map (λ l. l.cells.now) items.old.items) place ≡ Some cells.now }
    requires once { AreDifferent (map (λ l. l.cells.now) items.old.items) }
    requires room { spec.left_of (λ l. l.cells.now) (λ l. l.count) cells.now items.old.items + 1 < 2 ^ 64 }
    ensures tuples { map (λ l. l.cells.now) items.new.items ≡ map (λ l. l.cells.now) items.old.items }
    ensures counts { spec.HasCounted (λ l. l.cells.now) (λ l. l.count) cells.now items.old.items items.new.items }
{
    items[place].count += 1;
}

// Takes one of the tuple at a place, where one is left.
fn take_one(items: &mut Vec<Left<'_>>, place: usize, cells: &[Cell]) -> bool
    requires place { slice_get (map (λ l. l.cells.now) items.old.items) place ≡ Some cells.now }
    requires once { AreDifferent (map (λ l. l.cells.now) items.old.items) }
    ensures tuples { map (λ l. l.cells.now) items.new.items ≡ map (λ l. l.cells.now) items.old.items }
    ensures rest { spec.HasTaken (λ l. l.cells.now) (λ l. l.count) result cells.now items.old.items items.new.items }
    ensures none { result ≡ false → spec.left_of (λ l. l.cells.now) (λ l. l.count) cells.now items.new.items ≡ 0 }
{
    let count = items[place].count;
    if count == 0 {
        return false;
    }
    items[place].count = count - 1;
    true
}

// Takes one of a tuple, where one is left.
fn take(index: &TupleIndex, items: &mut Vec<Left<'_>>, cells: &[Cell]) -> bool
    requires index { index.now ≡ hashes_of (map (λ l. l.cells.now) items.old.items) }
    requires once { AreDifferent (map (λ l. l.cells.now) items.old.items) }
    ensures tuples { map (λ l. l.cells.now) items.new.items ≡ map (λ l. l.cells.now) items.old.items }
    ensures rest { spec.HasTaken (λ l. l.cells.now) (λ l. l.count) result cells.now items.old.items items.new.items }
    ensures none { result ≡ false → spec.left_of (λ l. l.cells.now) (λ l. l.count) cells.now items.new.items ≡ 0 }
{
    match index.find(&*items, hash_of(cells), cells) {
        Some(place) => take_one(items, place, cells),
        None => false,
    }
}

// Adds a tuple, of this hash, that isn't among them.
fn add_tuple<'a>(
    index: &mut TupleIndex,
    items: &mut Vec<Left<'a>>,
    hash: u64,
    cells: &'a [Cell],
) -> Result<(), OutOfMemory>
    requires index { index.old ≡ hashes_of (map (λ l. l.cells.now) items.old.items) }
    requires once { AreDifferent (map (λ l. l.cells.now) items.old.items) }
    requires hash { hash ≡ hash_of cells.now }
    requires none { spec.often cells.now (map (λ l. l.cells.now) items.old.items) ≡ 0 }
    ensures index { OnOk result (index.new ≡ hashes_of (map (λ l. l.cells.now) items.new.items)) }
    ensures once { OnOk result (AreDifferent (map (λ l. l.cells.now) items.new.items)) }
    ensures counts { OnOk result (spec.HasCounted (λ l. l.cells.now) (λ l. l.count) cells.now items.old.items items.new.items) }
{
    index.push(hash)?;
    items.push(Left { cells, count: 1 })?;
    Ok(())
}

// Counts one more of a tuple.
fn count_tuple<'a>(
    index: &mut TupleIndex,
    items: &mut Vec<Left<'a>>,
    cells: &'a [Cell],
) -> Result<(), OutOfMemory>
    requires index { index.old ≡ hashes_of (map (λ l. l.cells.now) items.old.items) }
    requires once { AreDifferent (map (λ l. l.cells.now) items.old.items) }
    requires room { spec.left_of (λ l. l.cells.now) (λ l. l.count) cells.now items.old.items + 1 < 2 ^ 64 }
    ensures index { OnOk result (index.new ≡ hashes_of (map (λ l. l.cells.now) items.new.items)) }
    ensures once { OnOk result (AreDifferent (map (λ l. l.cells.now) items.new.items)) }
    ensures counts { OnOk result (spec.HasCounted (λ l. l.cells.now) (λ l. l.count) cells.now items.old.items items.new.items) }
{
    let hash = hash_of(cells);
    match index.find(&*items, hash, cells) {
        Some(place) => {
            count_one(items, place, cells);
            Ok(())
        }
        None => {
            add_tuple(index, items, hash, cells)?;
            Ok(())
        }
    }
}

// Counts one more of the tuple of a row, where the row is there.
fn count_row<'a>(
    index: &mut TupleIndex,
    items: &mut Vec<Left<'a>>,
    row: RowRef<'a>,
) -> Result<(), OutOfMemory>
    requires index { index.old ≡ hashes_of (map (λ l. l.cells.now) items.old.items) }
    requires once { AreDifferent (map (λ l. l.cells.now) items.old.items) }
    requires room { spec.left_of (λ l. l.cells.now) (λ l. l.count) (lent row).cells items.old.items + multiplicity same_cells (lent row).cells (lent row ∷ []) < 2 ^ 64 }
    ensures index { OnOk result (index.new ≡ hashes_of (map (λ l. l.cells.now) items.new.items)) }
    ensures once { OnOk result (AreDifferent (map (λ l. l.cells.now) items.new.items)) }
    ensures counts { OnOk result ((c : List Cell) → spec.left_of (λ l. l.cells.now) (λ l. l.count) c items.new.items ≡ spec.left_of (λ l. l.cells.now) (λ l. l.count) c items.old.items + multiplicity same_cells c (lent row.entry ∷ [])) }
{
    if row.is_there() {
        count_tuple(index, items, row.cells)?;
        Ok(())
    } else {
        Ok(())
    }
}

// The different tuples of the rows that are there, each with how often it stands there.
fn counted<'a>(alloc: Global, rows: &'a Bag) -> Result<Lefts<'a>, OutOfMemory>
    ensures index { IfOk result (λ made. made.index ≡ hashes_of (map (λ l. l.cells.now) made.items.items)) }
    ensures once { IfOk result (λ made. AreDifferent (map (λ l. l.cells.now) made.items.items)) }
    ensures counts { IfOk result (λ made. (c : List Cell) → spec.left_of (λ l. l.cells.now) (λ l. l.count) c made.items.items ≡ multiplicity same_cells c rows.now) }
{
    let mut index = TupleIndex::with_chains(alloc, rows.len())?;
    let mut items = Vec::new(alloc);
    for i in 0..rows.len() {
        count_row(&mut index, &mut items, rows.at(i))?;
    }
    Ok(Lefts { index, items })
}

// Adds the tuple of a row, where the row is there.
fn add_there<'a>(tuples: &mut Vec<&'a [Cell]>, row: RowRef<'a>) -> Result<(), OutOfMemory>
    ensures { OnOk result ((c : List Cell) → spec.often c (map (λ t. t.now) tuples.new.items) ≡ spec.often c (map (λ t. t.now) tuples.old.items) + multiplicity same_cells c (lent row.entry ∷ [])) }
{
    if row.is_there() {
        tuples.push(row.cells)?;
        Ok(())
    } else {
        Ok(())
    }
}

// The tuples of the rows that are there.
fn tuples_there<'a>(alloc: Global, rows: &'a Bag) -> Result<Vec<&'a [Cell]>, OutOfMemory>
    ensures { IfOk result (λ tuples. (c : List Cell) → spec.often c (map (λ t. t.now) tuples.items) ≡ multiplicity same_cells c rows.now) }
{
    let mut tuples = Vec::new(alloc);
    for i in 0..rows.len() {
        add_there(&mut tuples, rows.at(i))?;
    }
    Ok(tuples)
}

// Adds a tuple of this hash.
fn push_tuple<'a>(
    index: &mut TupleIndex,
    tuples: &mut Vec<&'a [Cell]>,
    hash: u64,
    cells: &'a [Cell],
) -> Result<(), OutOfMemory>
    requires index { index.old ≡ hashes_of (map (λ t. t.now) tuples.old.items) }
    requires hash { hash ≡ hash_of cells.now }
    ensures index { OnOk result (index.new ≡ hashes_of (map (λ t. t.now) tuples.new.items)) }
    ensures tuples { OnOk result (map (λ t. t.now) tuples.new.items ≡ map (λ t. t.now) tuples.old.items ++ cells.now ∷ []) }
{
    index.push(hash)?;
    tuples.push(cells)?;
    Ok(())
}

// Adds a tuple to different ones, where it isn't one of them.
fn add_once<'a>(
    index: &mut TupleIndex,
    tuples: &mut Vec<&'a [Cell]>,
    cells: &'a [Cell],
) -> Result<(), OutOfMemory>
    requires index { index.old ≡ hashes_of (map (λ t. t.now) tuples.old.items) }
    ensures index { OnOk result (index.new ≡ hashes_of (map (λ t. t.now) tuples.new.items)) }
    ensures once { OnOk result (AreDifferent (map (λ t. t.now) tuples.old.items) → AreDifferent (map (λ t. t.now) tuples.new.items)) }
    ensures counts { OnOk result (spec.HasAdded cells.now (map (λ t. t.now) tuples.old.items) (map (λ t. t.now) tuples.new.items)) }
{
    let hash = hash_of(cells);
    match index.find(&*tuples, hash, cells) {
        Some(_place) => Ok(()),
        None => {
            push_tuple(index, tuples, hash, cells)?;
            Ok(())
        }
    }
}

// Adds the tuple of a row to different ones, where the row is there and its tuple isn't one of them.
fn enter<'a>(
    index: &mut TupleIndex,
    tuples: &mut Vec<&'a [Cell]>,
    row: RowRef<'a>,
) -> Result<(), OutOfMemory>
    requires index { index.old ≡ hashes_of (map (λ t. t.now) tuples.old.items) }
    requires once { AreDifferent (map (λ t. t.now) tuples.old.items) }
    ensures index { OnOk result (index.new ≡ hashes_of (map (λ t. t.now) tuples.new.items)) }
    ensures once { OnOk result (AreDifferent (map (λ t. t.now) tuples.new.items)) }
    ensures counts { OnOk result ((c : List Cell) → min 1 (spec.often c (map (λ t. t.now) tuples.new.items)) ≡ min 1 (spec.often c (map (λ t. t.now) tuples.old.items) + multiplicity same_cells c (lent row.entry ∷ []))) }
{
    if row.is_there() {
        add_once(index, tuples, row.cells)?;
        Ok(())
    } else {
        Ok(())
    }
}

// The tuples of the rows that are there, each once.
fn tuples_once<'a>(alloc: Global, rows: &'a Bag) -> Result<Vec<&'a [Cell]>, OutOfMemory>
    ensures { IfOk result (λ tuples. (c : List Cell) → spec.often c (map (λ t. t.now) tuples.items) ≡ min 1 (multiplicity same_cells c rows.now)) }
{
    let mut index = TupleIndex::with_chains(alloc, rows.len())?;
    let mut tuples = Vec::new(alloc);
    for i in 0..rows.len() {
        enter(&mut index, &mut tuples, rows.at(i))?;
    }
    Ok(tuples)
}

// The tuples of the rows that are there, all or once each.
fn all_or_once<'a>(alloc: Global, rows: &'a Bag, all: bool) -> Result<Vec<&'a [Cell]>, OutOfMemory>
    ensures { IfOk result (λ tuples. (c : List Cell) → spec.often c (map (λ t. t.now) tuples.items) ≡ spec.all_or_once all (multiplicity same_cells c rows.now)) }
{
    if all {
        tuples_there(alloc, rows)
    } else {
        tuples_once(alloc, rows)
    }
}

// Adds a copy of a tuple, as a row at yes, where it is wanted.
fn keep_copy(alloc: Global, kept: &mut Bag, cells: &[Cell], wanted: bool) -> Result<(), OutOfMemory>
    ensures { OnOk result (kept.new ≡ (if wanted then kept.old ++ row cells.now Level.Yes ∷ [] else kept.old)) }
{
    if wanted {
        let level = Level::Yes;
        kept.push_copied(alloc, RowRef { cells, level })?;
        Ok(())
    } else {
        Ok(())
    }
}

// Of tuples those that others match, each of which matches at most one, or those that none matches;
// copied, as rows at yes.
fn parted(
    alloc: Global,
    xs: &[&[Cell]],
    index: &TupleIndex,
    items: &mut Vec<Left<'_>>,
    matched: bool,
) -> Result<Bag, OutOfMemory>
    requires index { index.now ≡ hashes_of (map (λ l. l.cells.now) items.old.items) }
    requires once { AreDifferent (map (λ l. l.cells.now) items.old.items) }
    ensures { IfOk result (λ rows. (c : List Cell) → (l : Level) → count same_cells c l rows ≡ (if same_level Level.Yes l then spec.part matched (spec.often c (map (λ t. t.now) xs.now)) (spec.left_of (λ l. l.cells.now) (λ l. l.count) c items.old.items) else 0)) }
{
    let mut kept = Bag::new(alloc);
    for cells in xs {
        let wanted = take(index, items, cells) == matched;
        keep_copy(alloc, &mut kept, cells, wanted)?;
    }
    Ok(kept)
}

// The tuples of the first rows that those of the second match, or that are left; each as often as
// that, or at most once.
pub(crate) fn matching(
    alloc: Global,
    a: &Bag,
    b: &Bag,
    all: bool,
    matched: bool,
) -> Result<Bag, OutOfMemory>
    ensures { IfOk result (λ rows. spec.AreMatched all matched a.now b.now rows) }
{
    let xs = all_or_once(alloc, a, all)?;
    let Lefts { index, items } = counted(alloc, b)?;
    let mut items = items;
    parted(alloc, xs.as_slice(), &index, &mut items, matched)
}
