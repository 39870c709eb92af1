// Rows beside rows (SQL-92, 7.4 and 7.5).
ghost use Rattle.std.specs.Prelude.{◌≡◌, ◌++◌, ◌∷◌, [], map, replicate, IfOk, OnOk};
ghost use Rattle.row_bag.specs.Bags.{keep};
ghost use Rattle.row_bag.specs.Joins as joins;
ghost use Rattle.row_bag.specs.Beside as spec;
ghost use Rattle.row_bag.specs.RowRefs.{lent};
ghost use Rattle.sql_value.specs.declared.cell.Cell.TheVariants.{Null};

use crate::bag::Bag;
use crate::row::{Row, RowRef};
use crate::subqueries::any_there;
use crate::tuples::append_cells;
use shared_types::OutOfMemory;
use sql_value::{Cell, Level, least};
use sqlite_items::Items;
use std::alloc::Global;

/// The cells of both, one after the other. It fails only for want of memory.
pub fn cells_beside(
    alloc: Global,
    left: &[Cell],
    right: &[Cell],
) -> Result<Items<Cell>, OutOfMemory>
    ensures { IfOk result (λ cells. cells ≡ left.now ++ right.now) }
{
    let mut cells = Vec::new(alloc);
    append_cells(alloc, &mut cells, left)?;
    append_cells(alloc, &mut cells, right)?;
    Ok(Items::from_vec(cells))
}

/// Cells, and then those of a row, at its level. It fails only for want of memory.
pub fn beside(alloc: Global, left: &[Cell], right: RowRef<'_>) -> Result<Row, OutOfMemory>
    ensures { IfOk result (λ made. made ≡ spec.beside left.now (lent right.entry)) }
{
    Ok(Row {
        cells: cells_beside(alloc, left, right.cells)?,
        level: right.level,
    })
}

/// So many nulls. It fails only for want of memory.
pub fn nulls(alloc: Global, width: usize) -> Result<Vec<Cell>, OutOfMemory>
    ensures { IfOk result (λ cells. cells.items ≡ replicate width Null) }
{
    let mut cells = Vec::new(alloc);
    for _i in 0..width {
        cells.push(Cell::Null)?;
    }
    Ok(cells)
}

/// Cells, and then so many nulls, at yes. It fails only for want of memory.
pub fn with_nulls(alloc: Global, left: &[Cell], width: usize) -> Result<Row, OutOfMemory>
    ensures { IfOk result (λ made. made ≡ spec.with_nulls left.now width) }
{
    let nulls = nulls(alloc, width)?;
    Ok(Row {
        cells: cells_beside(alloc, left, &nulls)?,
        level: Level::Yes,
    })
}

// Adds a copy of a row at the end, at the lower one of its level and this one.
fn push_kept(alloc: Global, out: &mut Bag, level: Level, row: RowRef<'_>) -> Result<(), OutOfMemory>
    ensures { OnOk result (out.new ≡ out.old ++ keep level (lent row.entry ∷ [])) }
{
    let level = least(level, row.level);
    out.push_copied(
        alloc,
        RowRef {
            cells: row.cells,
            level,
        },
    )
}

// Adds copies of rows at the end, each at the lower one of its level and this one.
fn append_each(alloc: Global, out: &mut Bag, level: Level, rows: &Bag) -> Result<(), OutOfMemory>
    ensures { OnOk result (out.new ≡ out.old ++ keep level rows.now) }
{
    for i in 0..rows.len() {
        push_kept(alloc, out, level, rows.at(i))?;
    }
    Ok(())
}

/// Adds rows at the end, each at the lower one of its level and this one. It fails only for want of
/// memory.
pub fn append_kept(out: &mut Bag, level: Level, rows: Bag) -> Result<(), OutOfMemory>
    ensures { OnOk result (out.new ≡ out.old ++ keep level rows) }
{
    match level {
        Level::Yes => out.append(rows),
        Level::No | Level::Cardinality | Level::Division | Level::Overflow => {
            append_each(out.allocator(), out, level, &rows)
        }
    }
}

// Adds cells and then those of a row at the end, at its level. The vector holds them meanwhile.
fn push_beside(
    alloc: Global,
    out: &mut Bag,
    cells: &mut Vec<Cell>,
    left: &[Cell],
    right: RowRef<'_>,
) -> Result<(), OutOfMemory>
    requires { cells.old.items ≡ [] }
    ensures row { OnOk result (out.new ≡ out.old ++ spec.beside left.now (lent right.entry) ∷ []) }
    ensures drained { OnOk result (cells.new.items ≡ []) }
{
    append_cells(alloc, cells, left)?;
    append_cells(alloc, cells, right.cells)?;
    out.push_drained_at(right.level, cells)
}

// Cells beside each row.
fn beside_each(alloc: Global, left: &[Cell], ys: &Bag) -> Result<Bag, OutOfMemory>
    ensures { IfOk result (λ made. made ≡ map (spec.beside left.now) ys.now) }
{
    let mut made = Bag::new(alloc);
    let mut cells = Vec::new(alloc);
    for i in 0..ys.len() {
        push_beside(alloc, &mut made, &mut cells, left, ys.at(i))?;
    }
    Ok(made)
}

/// A product: each row of the first beside each of the second, at the lower one of both levels
/// (SQL-92 7.4). It fails only for want of memory.
pub fn product(alloc: Global, xs: &Bag, ys: &Bag) -> Result<Bag, OutOfMemory>
    ensures { IfOk result (λ made. made ≡ joins.product xs.now ys.now) }
{
    let mut made = Bag::new(alloc);
    for i in 0..xs.len() {
        let x = xs.at(i);
        let row = beside_each(alloc, x.cells, ys)?;
        append_kept(&mut made, x.level, row)?;
    }
    Ok(made)
}

/// The partners of a left row, or where none of them is there this row once with so many nulls
/// (SQL-92 7.5). It fails only for want of memory.
pub fn or_with_nulls(
    alloc: Global,
    partners: Bag,
    left: &[Cell],
    width: usize,
) -> Result<Bag, OutOfMemory>
    ensures { IfOk result (λ made. made ≡ joins.or_else partners (spec.with_nulls left.now width ∷ [])) }
{
    if any_there(&partners) {
        return Ok(partners);
    }
    let mut made = Bag::new(alloc);
    made.push(with_nulls(alloc, left, width)?)?;
    Ok(made)
}
