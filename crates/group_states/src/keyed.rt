// Groups of one key each.
ghost use Rattle.std.specs.Prelude.{◌≡◌, All, ℕ, ◌++◌, ◌∷◌, [], IfOk, List, OnOk, Some, map, slice_get, take, true};
ghost use Rattle.group_states.specs.Groups as spec;
ghost use Rattle.row_bag.specs.Bags.{at_yes};
ghost use Rattle.row_bag.specs.Groups.{rows_of};
ghost use Rattle.row_bag.specs.Hashes.{hash_of, hashes_of};
ghost use Rattle.row_bag.specs.Matched.{often};
ghost use Rattle.row_bag.specs.Verdict.{is_there, those_there};
ghost use Rattle.row_bag.specs.declared.row.Row.{Row};
ghost use Rattle.sql_value.specs.declared.cell.Cell.{Cell};
ghost use Rattle.sql_value.specs.declared.level.Level.TheVariants.{Yes};
ghost use Rattle.group_states.specs.declared.fold.Fold.{Fold};

use crate::fold::Fold;
use crate::index::{GrowingIndex, HasTuple, hash_of};
use crate::state::State;
use crate::states::{append_values, states_of, take_row};
use row_bag::{Bag, Row, append_cells};
use shared_types::OutOfMemory;
use sql_value::{Cell, Level};
use sqlite_items::Items;
use std::alloc::Global;

/// A group: its key, and what is kept for each of its other cells.
#[derive(Drop)]
pub struct KeyedStates {
    pub(crate) key: Vec<Cell>,
    pub(crate) states: Vec<State>,
}

impl HasTuple for KeyedStates {
    ghost tuple = { λ g. g.key.items };

    fn tuple(&self) -> &[Cell] {
        &self.key
    }
}

// The first cells, so many or as many as there are.
fn first_of(cells: &[Cell], n: usize) -> &[Cell]
    ensures { result.now ≡ take n cells.now }
{
    if n < cells.len() { &cells[..n] } else { cells }
}

// A group of one row, whose key this is.
fn group_of(
    alloc: Global,
    folds: &[Fold],
    keys: usize,
    key: &[Cell],
    row: &Row,
) -> Result<KeyedStates, OutOfMemory>
    ensures key { IfOk result (λ g. g.key.items ≡ key.now) }
    ensures folds { IfOk result (λ g. map (λ s. s.fold) g.states.items ≡ folds.now) }
    ensures after { IfOk result (λ g. spec.AreAfter keys (row.now ∷ []) g.states.items) }
{
    let mut states = states_of(alloc, folds)?;
    take_row(alloc, &mut states, keys, row)?;
    let mut cells = Vec::with_capacity(alloc, key.len())?;
    append_cells(alloc, &mut cells, key)?;
    Ok(KeyedStates { key: cells, states })
}

// Takes a row that is there, of the group at a place.
fn add_row(
    alloc: Global,
    groups: &mut Vec<KeyedStates>,
    place: usize,
    keys: usize,
    row: &Row,
) -> Result<(), OutOfMemory>
    requires there { is_there row.now ≡ true }
    requires own { slice_get (map (λ g. g.key.items) groups.old.items) place ≡ Some (take keys row.now.cells) }
    ensures keys { OnOk result (map (λ g. g.key.items) groups.new.items ≡ map (λ g. g.key.items) groups.old.items) }
    ensures groups { OnOk result ((folds : List Fold) → (rows : List (Row (List Cell))) → spec.AreGroups keys folds rows groups.old.items → spec.AreGroups keys folds (rows ++ row.now ∷ []) groups.new.items) }
{
    take_row(alloc, &mut groups[place].states, keys, row)?;
    Ok(())
}

// Takes a row that is there, of a key of this hash that no group has.
fn add_group(
    alloc: Global,
    index: &mut GrowingIndex,
    groups: &mut Vec<KeyedStates>,
    group: KeyedStates,
    hash: u64,
) -> Result<(), OutOfMemory>
    requires index { index.old ≡ hashes_of (map (λ g. g.key.items) groups.old.items) }
    requires hash { hash ≡ hash_of group.key.items }
    ensures index { OnOk result (index.new ≡ hashes_of (map (λ g. g.key.items) groups.new.items)) }
    ensures groups { OnOk result (groups.new.items ≡ groups.old.items ++ group ∷ []) }
{
    index.push(alloc, hash)?;
    groups.push(group)?;
    Ok(())
}

/// Takes a row that is there.
pub(crate) fn enter(
    alloc: Global,
    index: &mut GrowingIndex,
    groups: &mut Vec<KeyedStates>,
    folds: &[Fold],
    keys: usize,
    row: &Row,
) -> Result<(), OutOfMemory>
    requires there { is_there row.now ≡ true }
    requires index { index.old ≡ hashes_of (map (λ g. g.key.items) groups.old.items) }
    ensures index { OnOk result (index.new ≡ hashes_of (map (λ g. g.key.items) groups.new.items)) }
    ensures groups { OnOk result ((rows : List (Row (List Cell))) → spec.AreGroups keys folds.now (those_there rows) groups.old.items → spec.AreGroups keys folds.now (those_there rows ++ row.now ∷ []) groups.new.items) }
{
    let key = first_of(row.cells.as_slice(), keys);
    let hash = hash_of(key);
    match index.find(groups.as_slice(), hash, key) {
        Some(place) => {
            add_row(alloc, groups, place, keys, row)?;
            Ok(())
        }
        None => {
            let group = group_of(alloc, folds, keys, key, row)?;
            add_group(alloc, index, groups, group, hash)?;
            Ok(())
        }
    }
}

// The row of a group: its key, and then its other cells.
fn group_row(alloc: Global, group: KeyedStates) -> Result<Row, OutOfMemory>
    ensures level { IfOk result (λ made. made.level ≡ Yes) }
    ensures cells { IfOk result (λ made. (n : ℕ) → (rows : List (Row (List Cell))) → spec.AreAfter n rows group.states.items → made.cells ≡ spec.group_of n (map (λ s. s.fold) group.states.items) group.key.items rows) }
{
    let mut cells = group.key;
    append_values(alloc, group.states, &mut cells)?;
    Ok(Row {
        cells: Items::from_vec(cells),
        level: Level::Yes,
    })
}

/// The row of each group. A group is let go once its row is made.
pub(crate) fn group_rows(alloc: Global, groups: Vec<KeyedStates>) -> Result<Bag, OutOfMemory>
    ensures { IfOk result (λ made. (n : ℕ) → (folds : List Fold) → (rows : List (Row (List Cell))) → All (spec.IsGroup n folds rows) groups.items → made ≡ at_yes (map (λ g. spec.group_of n folds g.key.items (rows_of n g.key.items rows)) groups.items)) }
{
    let mut made = Bag::new(alloc);
    for group in groups {
        made.push(group_row(alloc, group)?)?;
    }
    Ok(made)
}
