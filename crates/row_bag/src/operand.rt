// Rows that are borrowed or made.
ghost use Rattle.std.specs.Prelude.{◌≡◌, IfOk};
ghost use Rattle.row_bag.specs.Operands.{held};

use crate::bag::Bag;
use crate::tuples::copied_rows;
use shared_types::OutOfMemory;
use std::alloc::Global;

/// Rows that stand elsewhere, or rows of their own.
#[derive(Drop)]
pub enum Operand<'a> {
    Borrowed(&'a Bag),
    Made(Bag),
}

impl<'a> Operand<'a> {
    /// The rows.
    pub fn rows(&self) -> &Bag
        ensures { result.now ≡ held self.now }
    {
        match self {
            Operand::Borrowed(rows) => rows,
            Operand::Made(bag) => bag,
        }
    }

    /// The rows, copied where they stand elsewhere. It fails only for want of memory.
    pub fn into_bag(self, alloc: Global) -> Result<Bag, OutOfMemory>
        ensures { IfOk result (λ bag. bag ≡ held self.entry) }
    {
        match self {
            Operand::Borrowed(rows) => copied_rows(alloc, rows),
            Operand::Made(bag) => Ok(bag),
        }
    }
}
