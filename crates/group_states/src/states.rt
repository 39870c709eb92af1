// The other cells of a group, while its rows are gone through.
ghost use Rattle.std.specs.Prelude.{◌≡◌, ℕ, ◌++◌, ◌∷◌, [], IfOk, List, OnOk, drop, get_or, map};
ghost use Rattle.group_states.specs.Groups as spec;
ghost use Rattle.row_bag.specs.declared.row.Row.{Row};
ghost use Rattle.sql_value.specs.declared.cell.Cell.{Cell};
ghost use Rattle.sql_value.specs.declared.cell.Cell.TheVariants.{Null};

use crate::fold::Fold;
use crate::state::State;
use row_bag::Row;
use shared_types::OutOfMemory;
use sql_value::{Cell, Level};
use std::alloc::Global;

/// States of no row.
pub fn states_of(alloc: Global, folds: &[Fold]) -> Result<Vec<State>, OutOfMemory>
    ensures folds { IfOk result (λ states. map (λ s. s.fold) states.items ≡ folds.now) }
    ensures after { IfOk result (λ states. (n : ℕ) → spec.AreAfter n [] states.items) }
{
    let mut states = Vec::with_capacity(alloc, folds.len())?;
    for fold in folds {
        states.push(State::new(alloc, *fold))?;
    }
    Ok(states)
}

// The cells past the first ones, so many.
fn past(cells: &[Cell], n: usize) -> &[Cell]
    ensures { result.now ≡ drop n cells.now }
{
    if n < cells.len() { &cells[n..] } else { &[] }
}

// A cell, or this null where there is none.
fn cell_at<'a>(cells: &'a [Cell], at: usize, null: &'a Cell) -> &'a Cell
    requires { null.now ≡ Null }
    ensures { result.now ≡ get_or cells.now at Null }
{
    match cells.get(at) {
        Some(cell) => cell,
        None => null,
    }
}

// Takes the arguments of a row at a level, each by its state.
fn take_arguments(
    alloc: Global,
    states: &mut Vec<State>,
    arguments: &[Cell],
    level: Level,
    null: &Cell,
) -> Result<(), OutOfMemory>
    requires { null.now ≡ Null }
    ensures folds { OnOk result (map (λ s. s.fold) states.new.items ≡ map (λ s. s.fold) states.old.items) }
    ensures after { OnOk result ((n : ℕ) → (rows : List (Row (List Cell))) → (r : Row (List Cell)) → drop n r.cells ≡ arguments.now → r.level ≡ level → spec.AreAfter n rows states.old.items → spec.AreAfter n (rows ++ r ∷ []) states.new.items) }
{
    for i in 0..states.len() {
        states[i].take(alloc, cell_at(arguments, i, null), level)?;
    }
    Ok(())
}

/// Takes a row, of which the cells past the first ones, so many, are the arguments. A row at
/// `Level::No` isn't there. It fails for want of memory, and where a number has no next one.
pub fn take_row(
    alloc: Global,
    states: &mut Vec<State>,
    n: usize,
    row: &Row,
) -> Result<(), OutOfMemory>
    ensures folds { OnOk result (map (λ s. s.fold) states.new.items ≡ map (λ s. s.fold) states.old.items) }
    ensures after { OnOk result ((rows : List (Row (List Cell))) → spec.AreAfter n rows states.old.items → spec.AreAfter n (rows ++ row.now ∷ []) states.new.items) }
{
    let null = Cell::Null;
    let arguments = past(row.cells.as_slice(), n);
    take_arguments(alloc, states, arguments, row.level, &null)
}

/// Adds the cells of the group at the end. It fails only for want of memory.
pub fn append_values(
    alloc: Global,
    states: Vec<State>,
    out: &mut Vec<Cell>,
) -> Result<(), OutOfMemory>
    ensures { OnOk result ((n : ℕ) → (rows : List (Row (List Cell))) → spec.AreAfter n rows states.items → out.new.items ≡ out.old.items ++ spec.cells_from n (map (λ s. s.fold) states.items) rows) }
{
    for state in states {
        out.push(state.value(alloc)?)?;
    }
    Ok(())
}
