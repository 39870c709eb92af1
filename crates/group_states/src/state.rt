// A cell of a group while its rows are gone through.
ghost use Rattle.std.specs.Prelude.{◌≡◌, ◌++◌, ◌∷◌, [], IfOk, List, OnOk};
ghost use Rattle.group_states.specs.Folds.{cell_of};
ghost use Rattle.group_states.specs.Running.{finished};
ghost use Rattle.group_states.specs.States as spec;
ghost use Rattle.row_bag.specs.Arguments.{IsTotalOf};
ghost use Rattle.row_bag.specs.Bags.{row};
ghost use Rattle.row_bag.specs.declared.row.Row.{Row};
ghost use Rattle.sql_value.specs.Arithmetic.{error_or};
ghost use Rattle.sql_value.specs.declared.cell.Cell.{Cell};

use crate::fold::Fold;
use crate::running::{Running, counts, one_more};
use row_bag::{Row, count_cell, error_at, error_of, folded, worst_of};
use shared_types::OutOfMemory;
use sql_value::{Aggregate, Cell, Kind, Level, Taken, copy};
use std::alloc::Global;

/// What is kept of the arguments that the rows of a group have given so far, for one cell of the
/// group: of an aggregate with DISTINCT all of them, of another one its running state.
#[derive(Drop)]
pub struct State {
    fold: Fold,
    error: Option<Kind>,
    running: Running,
    cells: Vec<Row<Cell>>,
}

// A row at a level is there.
fn is_there(level: Level) -> bool
    ensures { result ≡ spec.is_there level }
{
    match level {
        Level::No => false,
        Level::Cardinality | Level::Division | Level::Overflow | Level::Yes => true,
    }
}

// The greatest error, where there is one, and else what an aggregate comes to.
fn aggregate(error: Option<Kind>, running: Running, f: Aggregate) -> Cell
    ensures { IsTotalOf running.count running.total → result ≡ error_or error (finished f running) }
{
    match error {
        Some(kind) => Cell::Err(kind),
        None => running.finished(f),
    }
}

impl State {
    /// Of no row.
    pub fn new(alloc: Global, fold: Fold) -> State
        ensures fold { result.fold ≡ fold }
        ensures after { spec.IsAfter [] result }
    {
        State {
            fold,
            error: None,
            running: Running::new(),
            cells: Vec::new(alloc),
        }
    }

    // Takes an argument of an aggregate.
    fn take_argument(
        &mut self,
        alloc: Global,
        f: Aggregate,
        cell: &Cell,
        level: Level,
    ) -> Result<(), OutOfMemory>
        ensures { OnOk result (spec.HasTaken f cell.now level self.old self.new) }
    {
        let error = worst_of(error_at(level), error_of(cell));
        self.error = worst_of(self.error, error);
        if counts(f, cell) {
            self.running.add(alloc, f, cell)?;
        }
        Ok(())
    }

    /// Takes the argument that a row at a level gives. A row at `Level::No` isn't there. It fails for
    /// want of memory, and where a number has no next one.
    pub fn take(&mut self, alloc: Global, cell: &Cell, level: Level) -> Result<(), OutOfMemory>
        ensures fold { OnOk result (self.new.fold ≡ self.old.fold) }
        ensures after { OnOk result ((cells : List (Row Cell)) → spec.IsAfter cells self.old → spec.IsAfter (cells ++ row cell.now level ∷ []) self.new) }
    {
        if !is_there(level) {
            return Ok(());
        }
        match self.fold {
            Fold::Rows => {
                self.running.count = one_more(self.running.count)?;
                Ok(())
            }
            Fold::Of(f, Taken::All) => self.take_argument(alloc, f, cell, level),
            Fold::Of(_, Taken::Distinct) => {
                let cells = copy(alloc, cell)?;
                self.cells.push(Row { cells, level })?;
                Ok(())
            }
            Fold::Nothing => Ok(()),
        }
    }

    /// The cell of the group. It fails only for want of memory.
    pub fn value(self, alloc: Global) -> Result<Cell, OutOfMemory>
        ensures { IfOk result (λ cell. (cells : List (Row Cell)) → spec.IsAfter cells self → cell ≡ cell_of self.fold cells) }
    {
        match self.fold {
            Fold::Rows => Ok(count_cell(self.running.count)),
            Fold::Of(f, Taken::All) => Ok(aggregate(self.error, self.running, f)),
            Fold::Of(f, Taken::Distinct) => folded(alloc, f, Taken::Distinct, self.cells),
            Fold::Nothing => Ok(Cell::Null),
        }
    }
}
