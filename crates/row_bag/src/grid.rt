// Tuples of one width, cell after cell.
ghost use Rattle.std.specs.Prelude.{◌≡◌, ◌<◌, ◌++◌, ◌∷◌, ◌^◌, [], IsTrue, OnErr, OnOk, Some, length, slice_get, vec_capacity};
ghost use Rattle.row_bag.specs.Grids.{AreWide};

use crate::tuples::append_all;
use shared_types::OutOfMemory;
use sql_value::Cell;
use sqlite_items::Items;
use std::alloc::Global;
use std::marker::Model;

// Moves the cells of a tuple to the end.
fn append_moved(cells: &mut Vec<Cell>, tuple: Items<Cell>) -> Result<(), OutOfMemory>
    ensures ok { OnOk result (cells.new.items ≡ cells.old.items ++ tuple) }
    ensures err { OnErr result (cells.new.items ≡ cells.old.items) }
{
    let mut tuple = tuple;
    cells.reserve(tuple.len())?;
    let start = cells.len();
    while let Some(cell) = tuple.pop() {
        cells.push(cell)?;
    }
    cells[start..].reverse();
    Ok(())
}

/// Tuples of one width, in one piece of memory. Contracts see it as the list of the tuples.
#[derive(Drop)]
pub(crate) struct Grid {
    width: usize,
    count: usize,
    cells: Vec<Cell>,
}

impl Model for Grid {
    ghost use Rattle.std.specs.Prelude.{◌≡◌, ◌≤◌, ◌*◌, List, length};
    ghost use Rattle.row_bag.specs.Grids.{cut};
    ghost use Rattle.sql_value.specs.declared.cell.Cell.{Cell};

    ghost Value = { List (List Cell) };

    ghost view = { λ g. cut g.width g.count g.cells.items };

    ghost invariant = { λ g. (length g.cells.items ≡ g.count * g.width) × (g.count ≤ length g.cells.items) };
}

impl Grid {
    /// No tuple.
    pub(crate) fn new(alloc: Global) -> Grid
        ensures { result ≡ [] }
    {
        Grid {
            width: 0,
            count: 0,
            cells: Vec::new(alloc),
        }
    }

    /// The allocator of the cells.
    pub(crate) fn allocator(&self) -> Global {
        *self.cells.allocator()
    }

    /// How many tuples there are.
    pub(crate) fn len(&self) -> usize
        ensures count { result ≡ length self.now }
        ensures few { result < 2 ^ 63 }
    {
        self.count
    }

    /// A tuple of so many cells may be added.
    pub(crate) fn fits(&self, width: usize) -> bool
        ensures { IsTrue result → AreWide width self.now }
    {
        width > 0 && (self.count == 0 || self.width == width)
    }

    /// The tuple at a place.
    pub(crate) fn at(&self, place: usize) -> &[Cell]
        requires { place < length self.now }
        ensures { slice_get self.now place ≡ Some result.now }
    {
        let start = place * self.width;
        &self.cells[start..start + self.width]
    }

    /// Adds a tuple at the end.
    pub(crate) fn push(&mut self, tuple: Items<Cell>) -> Result<(), OutOfMemory>
        requires { AreWide (length tuple) self.old }
        ensures ok { OnOk result (self.new ≡ self.old ++ tuple ∷ []) }
        ensures err { OnErr result (self.new ≡ self.old) }
    {
        let width = tuple.len();
        append_moved(&mut self.cells, tuple)?;
        self.width = width;
        self.count += 1;
        Ok(())
    }

    /// Moves the cells of a vector to the end, as a tuple.
    pub(crate) fn push_drained(&mut self, tuple: &mut Vec<Cell>) -> Result<(), OutOfMemory>
        requires { AreWide (length tuple.old.items) self.old }
        ensures ok { OnOk result (self.new ≡ self.old ++ tuple.old.items ∷ []) }
        ensures err { OnErr result (self.new ≡ self.old) }
        ensures drained { OnOk result (tuple.new.items ≡ []) }
        ensures kept { OnErr result (tuple.new.items ≡ tuple.old.items) }
        ensures room { vec_capacity tuple.new ≡ vec_capacity tuple.old }
    {
        let width = tuple.len();
        self.cells.append(tuple)?;
        self.width = width;
        self.count += 1;
        Ok(())
    }

    /// Adds a copy of a tuple at the end.
    pub(crate) fn push_copied(&mut self, alloc: Global, tuple: &[Cell]) -> Result<(), OutOfMemory>
        requires { AreWide (length tuple.now) self.old }
        ensures ok { OnOk result (self.new ≡ self.old ++ tuple.now ∷ []) }
        ensures err { OnErr result (self.new ≡ self.old) }
    {
        append_all(alloc, &mut self.cells, tuple)?;
        self.width = tuple.len();
        self.count += 1;
        Ok(())
    }

    /// How many cells the tuples have, where there are any.
    pub(crate) fn width(&self) -> usize {
        self.width
    }

    /// Moves tuples of this width to the end.
    pub(crate) fn append(&mut self, width: usize, more: Grid) -> Result<(), OutOfMemory>
        requires own { AreWide width self.old }
        requires others { AreWide width more }
        ensures { OnOk result (self.new ≡ self.old ++ more) }
    {
        let Grid {
            width: _,
            count,
            mut cells,
        } = more;
        self.cells.append(&mut cells)?;
        self.width = width;
        self.count += count;
        Ok(())
    }
}
