// The cells of a key in one record, and sets of them.
ghost use Rattle.std.specs.Prelude.{◌≡◌, ◌++◌, ◌∷◌, [], IfOk, OnOk, List, not, if◌then◌else◌, true, false};
ghost use Rattle.std.specs.Cmp.{partial_equiv_from_equiv};
ghost use Rattle.std.specs.Cmp.Lexicographic.{pointwise};
ghost use Rattle.std.specs.Hash as fed;
ghost use Rattle.std.specs.List.{list_any};
ghost use Rattle.sql_value.specs.declared.cell.Cell.{Cell};
ghost use Rattle.csv_tables.specs.KeyCells as spec;
ghost use Rattle.csv_tables.specs.Ties.{cells_alike, cells_equiv, cell_alike, cell_equiv};

use indexmap::IndexSet;
use shared_types::OutOfMemory;
use smallvec::SmallVec;
use sql_value::{Cell, cell_order, copy};
use std::alloc::Global;
use std::cmp::Ordering;
use std::hash::{Hash, Hasher};
use std::marker::Model;

/// A cell of a key. Contracts see it as that cell.
#[derive(Drop)]
struct KeyCell {
    cell: Cell,
}

impl Model for KeyCell {
    ghost Value = { Cell };

    ghost view = { λ k. k.cell };
}

impl Default for KeyCell {
    fn default() -> KeyCell {
        KeyCell { cell: Cell::Null }
    }
}

impl PartialEq for KeyCell {
    ghost eq = { spec.same_cell };

    ghost laws = { partial_equiv_from_equiv cell_equiv };

    fn eq(&self, other: &KeyCell) -> bool {
        cell_order(&self.cell, &other.cell) == Ordering::Equal
    }
}

impl Eq for KeyCell {
    ghost laws = { cell_equiv };
}

impl Hash for KeyCell {
    ghost hash_input = { spec.cell_writes };

    ghost respects_eq = { cell_alike.fed };

    fn hash<H: Hasher>(&self, state: &mut H) {
        match &self.cell {
            Cell::Int(number) => number.hash(state),
            Cell::Text(text) => text.hash(state),
            Cell::Null => state.write_u8(0),
            Cell::Err(_) => state.write_u8(1),
        }
    }
}

/// The cells of a key in one record. Contracts see it as the list of them. Up to two of them take no
/// allocation of their own.
#[derive(Drop)]
pub struct KeyCells {
    cells: SmallVec<KeyCell, 2>,
}

impl Model for KeyCells {
    ghost Value = { List Cell };

    ghost view = { λ k. k.cells.items };
}

impl PartialEq for KeyCells {
    ghost eq = { spec.same_cells };

    ghost laws = { partial_equiv_from_equiv cells_equiv };

    fn eq(&self, other: &KeyCells) -> bool {
        self.cells.as_slice() == other.cells.as_slice()
    }
}

impl Eq for KeyCells {
    ghost laws = { cells_equiv };
}

impl Hash for KeyCells {
    ghost hash_input = { fed.slice spec.cell_writes };

    ghost respects_eq = { cells_alike.fed };

    fn hash<H: Hasher>(&self, state: &mut H) {
        self.cells.as_slice().hash(state);
    }
}

impl KeyCells {
    /// No cell.
    pub fn new(alloc: Global) -> KeyCells
        ensures { result ≡ [] }
    {
        KeyCells {
            cells: SmallVec::new(alloc),
        }
    }

    /// Adds a copy of a cell at the end.
    pub fn push(&mut self, alloc: Global, cell: &Cell) -> Result<(), OutOfMemory>
        ensures { OnOk result (self.new ≡ self.old ++ cell.now ∷ []) }
    {
        let cell = copy(alloc, cell)?;
        self.cells.push(KeyCell { cell })?;
        Ok(())
    }

    /// Whether one of the cells is null.
    pub fn has_null(&self) -> bool
        ensures { result ≡ list_any spec.is_null_cell self.now }
    {
        self.cells
            .as_slice()
            .iter()
            .any(|key| matches!(key.cell, Cell::Null))
    }
}

/// The cells of a key in several records, each list once, in the order in which they came.
/// Contracts see it as the list of them.
#[derive(Drop)]
pub struct SeenCells {
    tuples: IndexSet<KeyCells>,
}

impl Model for SeenCells {
    ghost Value = { List (List Cell) };

    ghost view = { λ s. s.tuples.keys };
}

impl SeenCells {
    /// Of no record, with room for this many.
    pub fn with_capacity(alloc: Global, records: usize) -> Result<SeenCells, OutOfMemory>
        ensures { IfOk result (λ s. s ≡ []) }
    {
        let tuples = IndexSet::with_capacity(alloc, records)?;
        Ok(SeenCells { tuples })
    }

    /// Adds the cells of one more record, and tells whether they are new.
    pub fn insert(&mut self, cells: KeyCells) -> Result<bool, OutOfMemory>
        ensures added { IfOk result (λ b. b ≡ not (list_any (spec.same_cells cells) self.old)) }
        ensures after { IfOk result (λ b. b ≡ true → self.new ≡ self.old ++ cells ∷ []) }
    {
        Ok(self.tuples.insert(cells)?)
    }
}
