// The rows of a table or of a query's result.
ghost use Rattle.std.specs.Prelude.{◌≡◌, ◌<◌, ◌++◌, ◌∷◌, [], List, OnErr, OnOk, Some, length, slice_get, slice_set, vec_capacity};
ghost use Rattle.row_bag.specs.Bags.{row, unit};
ghost use Rattle.row_bag.specs.RowRefs.{lent};
ghost use Rattle.row_bag.specs.Verdict.{those_there};
ghost use Rattle.row_bag.specs.declared.row.Row.{Row};
ghost use Rattle.sql_value.specs.Level.{greatest};
ghost use Rattle.sql_value.specs.declared.cell.Cell.{Cell};

use crate::answer::is_there;
use crate::grid::Grid;
use crate::row::{Row, RowRef};
use crate::tuples::{append_copied, copied};
use shared_types::OutOfMemory;
use sql_value::{Cell, Level, greatest};
use sqlite_items::Items;
use std::alloc::Global;
use std::marker::Model;

// Adds a row of these cells at this level at the end, and leaves the vector empty.
fn push_apart(rows: &mut Vec<Row>, level: Level, cells: &mut Vec<Cell>) -> Result<(), OutOfMemory>
    ensures ok { OnOk result (rows.new.items ≡ rows.old.items ++ row cells.old.items level ∷ []) }
    ensures err { OnErr result (rows.new.items ≡ rows.old.items) }
    ensures drained { OnOk result (cells.new.items ≡ []) }
    ensures kept { OnErr result (cells.new.items ≡ cells.old.items) }
    ensures room { vec_capacity cells.new ≡ vec_capacity cells.old }
{
    rows.reserve(1)?;
    let mut own = Vec::new(*rows.allocator());
    own.append(cells)?;
    rows.push(Row {
        cells: Items::from_vec(own),
        level,
    })?;
    Ok(())
}

/// Rows, of which several may be equal. Contracts see it as the list of the rows.
#[derive(Drop)]
pub struct Bag {
    // The cells of the first rows, which are at yes and of one width.
    even: Grid,
    // The rows behind these, of any level and width: none while all are even.
    mixed: Vec<Row>,
}

impl Model for Bag {
    ghost use Rattle.std.specs.Prelude.{◌++◌, List};
    ghost use Rattle.row_bag.specs.Bags.{at_yes};
    ghost use Rattle.row_bag.specs.declared.row.Row.{Row};
    ghost use Rattle.sql_value.specs.declared.cell.Cell.{Cell};

    ghost Value = { List (Row (List Cell)) };

    ghost view = { λ b. at_yes b.even ++ b.mixed.items };
}

impl Bag {
    /// No row.
    pub fn new(alloc: Global) -> Bag
        ensures { result ≡ [] }
    {
        Bag {
            even: Grid::new(alloc),
            mixed: Vec::new(alloc),
        }
    }

    /// The allocator of the rows.
    pub(crate) fn allocator(&self) -> Global {
        *self.mixed.allocator()
    }

    /// How many rows it holds, also such as aren't there.
    pub fn len(&self) -> usize
        ensures { result ≡ length self.now }
    {
        self.even.len() + self.mixed.len()
    }

    /// The row at a place.
    pub fn at(&self, place: usize) -> RowRef<'_>
        requires { place < length self.now }
        ensures { slice_get self.now place ≡ Some (lent result) }
    {
        let many = self.even.len();
        if place < many {
            RowRef {
                cells: self.even.at(place),
                level: Level::Yes,
            }
        } else {
            self.mixed[place - many].lent()
        }
    }

    /// Adds a row at the end.
    pub fn push(&mut self, row: Row) -> Result<(), OutOfMemory>
        ensures ok { OnOk result (self.new ≡ self.old ++ row ∷ []) }
        ensures err { OnErr result (self.new ≡ self.old) }
    {
        let Row { cells, level } = row;
        if level == Level::Yes && self.mixed.is_empty() && self.even.fits(cells.len()) {
            self.even.push(cells)
        } else {
            self.mixed.push(Row { cells, level })?;
            Ok(())
        }
    }

    /// Adds a row of these cells at this level at the end, and leaves the vector empty, with its room.
    pub(crate) fn push_drained_at(
        &mut self,
        level: Level,
        tuple: &mut Vec<Cell>,
    ) -> Result<(), OutOfMemory>
        ensures ok { OnOk result (self.new ≡ self.old ++ row tuple.old.items level ∷ []) }
        ensures err { OnErr result (self.new ≡ self.old) }
        ensures drained { OnOk result (tuple.new.items ≡ []) }
        ensures kept { OnErr result (tuple.new.items ≡ tuple.old.items) }
        ensures room { vec_capacity tuple.new ≡ vec_capacity tuple.old }
    {
        if level == Level::Yes && self.mixed.is_empty() && self.even.fits(tuple.len()) {
            self.even.push_drained(tuple)
        } else {
            push_apart(&mut self.mixed, level, tuple)
        }
    }

    /// Adds a row of these cells at yes at the end, and leaves the vector empty, with its room. It fails
    /// only for want of memory, and then both are as before.
    pub fn push_drained(&mut self, row: &mut Vec<Cell>) -> Result<(), OutOfMemory>
        ensures ok { OnOk result (self.new ≡ self.old ++ unit row.old.items) }
        ensures err { OnErr result (self.new ≡ self.old) }
        ensures drained { OnOk result (row.new.items ≡ []) }
        ensures kept { OnErr result (row.new.items ≡ row.old.items) }
        ensures room { vec_capacity row.new ≡ vec_capacity row.old }
    {
        self.push_drained_at(Level::Yes, row)
    }

    /// Adds a copy of a row at the end. It fails only for want of memory, and then the rows are as before.
    pub fn push_copied(&mut self, alloc: Global, row: RowRef<'_>) -> Result<(), OutOfMemory>
        ensures ok { OnOk result (self.new ≡ self.old ++ lent row.entry ∷ []) }
        ensures err { OnErr result (self.new ≡ self.old) }
    {
        if row.level == Level::Yes && self.mixed.is_empty() && self.even.fits(row.cells.len()) {
            self.even.push_copied(alloc, row.cells)
        } else {
            self.mixed.push(Row {
                cells: copied(alloc, row.cells)?,
                level: row.level,
            })?;
            Ok(())
        }
    }

    /// Moves rows to the end, if all of both are even and of this width, and else copies them there.
    fn append_even(&mut self, width: usize, rows: Bag) -> Result<(), OutOfMemory>
        ensures { OnOk result (self.new ≡ self.old ++ rows) }
    {
        if self.mixed.is_empty()
            && rows.mixed.is_empty()
            && self.even.fits(width)
            && rows.even.fits(width)
        {
            let Bag { even, mixed: _ } = rows;
            self.even.append(width, even)
        } else {
            append_copied(self.allocator(), self, &rows)
        }
    }

    /// Adds rows at the end. It fails only for want of memory.
    pub(crate) fn append(&mut self, rows: Bag) -> Result<(), OutOfMemory>
        ensures { OnOk result (self.new ≡ self.old ++ rows) }
    {
        let width = rows.even.width();
        self.append_even(width, rows)
    }

    /// Raises the row at a place to a level, if that is above its own.
    pub(crate) fn raise(&mut self, place: usize, level: Level)
        requires { place < length self.old }
        ensures { (r : Row (List Cell)) → slice_get self.old place ≡ Some r → self.new ≡ slice_set self.old place (row r.cells (greatest r.level level)) }
    {
        let many = self.even.len();
        if place >= many {
            let own = self.mixed[place - many].level;
            self.mixed[place - many].level = greatest(own, level);
        }
    }

    /// Leaves out the rows that aren't there.
    pub(crate) fn keep_there(&mut self)
        ensures { self.new ≡ those_there self.old }
    {
        self.mixed.retain(|row| is_there(row));
    }
}
