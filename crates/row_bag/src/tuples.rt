// Tuples of cells.
ghost use Rattle.std.specs.Prelude.{◌≡◌, ◌++◌, IfOk, OnErr, OnOk, length, take};

use crate::bag::Bag;
use shared_types::OutOfMemory;
use sql_value::{Cell, copy};
use sqlite_items::Items;
use std::alloc::Global;

// Adds equal cells at the end. Where it fails, some of them may stand there.
fn append_some(alloc: Global, out: &mut Vec<Cell>, cells: &[Cell]) -> Result<(), OutOfMemory>
    ensures ok { OnOk result (out.new.items ≡ out.old.items ++ cells.now) }
    ensures front { take (length out.old.items) out.new.items ≡ out.old.items }
{
    for cell in cells {
        out.push(copy(alloc, cell)?)?;
    }
    Ok(())
}

/// Adds equal cells at the end, all or none.
pub(crate) fn append_all(
    alloc: Global,
    out: &mut Vec<Cell>,
    cells: &[Cell],
) -> Result<(), OutOfMemory>
    ensures ok { OnOk result (out.new.items ≡ out.old.items ++ cells.now) }
    ensures err { OnErr result (out.new.items ≡ out.old.items) }
{
    let before = out.len();
    let appended = append_some(alloc, out, cells);
    if appended.is_err() {
        out.truncate(before);
    }
    appended
}

/// Adds equal cells at the end. It fails only for want of memory.
pub fn append_cells(alloc: Global, out: &mut Vec<Cell>, cells: &[Cell]) -> Result<(), OutOfMemory>
    ensures { OnOk result (out.new.items ≡ out.old.items ++ cells.now) }
{
    append_all(alloc, out, cells)
}

/// Equal cells. It fails only for want of memory.
pub fn copied(alloc: Global, cells: &[Cell]) -> Result<Items<Cell>, OutOfMemory>
    ensures { IfOk result (λ made. made ≡ cells.now) }
{
    let mut made = Vec::new(alloc);
    append_cells(alloc, &mut made, cells)?;
    Ok(Items::from_vec(made))
}

/// Adds equal rows at the end. It fails only for want of memory.
pub(crate) fn append_copied(alloc: Global, out: &mut Bag, rows: &Bag) -> Result<(), OutOfMemory>
    ensures { OnOk result (out.new ≡ out.old ++ rows.now) }
{
    for i in 0..rows.len() {
        out.push_copied(alloc, rows.at(i))?;
    }
    Ok(())
}

/// Equal rows. It fails only for want of memory.
pub fn copied_rows(alloc: Global, rows: &Bag) -> Result<Bag, OutOfMemory>
    ensures { IfOk result (λ made. made ≡ rows.now) }
{
    let mut made = Bag::new(alloc);
    append_copied(alloc, &mut made, rows)?;
    Ok(made)
}
