// The rows that quantifiers are bound to.
ghost use Rattle.std.specs.Prelude.{◌≡◌, IfOk, IfSome, None};
ghost use Rattle.box_exec.specs.Bound.{env_of};
ghost use Rattle.qgm_meaning.specs.Values.{row_of};
ghost use Rattle.row_bag.specs.Order.{cell_of};
ghost use Rattle.sql_value.specs.declared.cell.Cell.TheVariants.{Null};

use qgm_terms::QuantId;
use shared_types::OutOfMemory;
use sql_value::{Cell, copy};
use std::alloc::Global;

/// Quantifiers, each bound to a row, the last bound first.
#[derive(Drop)]
pub enum Bindings<'a> {
    Empty,
    Row(QuantId, &'a [Cell], &'a Bindings<'a>),
}

// The row that a quantifier is bound to; none of a quantifier that isn't bound.
fn row_of<'a>(env: &Bindings<'a>, q: QuantId) -> &'a [Cell]
    ensures { result.now ≡ row_of q (env_of env.now) }
{
    match env {
        Bindings::Empty => &[],
        Bindings::Row(r, row, rest) => { if *r == q { row } else { row_of(rest, q) } }
    }
}

/// The cell of a column, counted from 1, where it stands, if the row has such a column.
pub(crate) fn cell_at(row: &[Cell], column: usize) -> Option<&Cell>
    ensures some { IfSome result (λ cell. cell.now ≡ cell_of column row.now) }
    ensures none { result ≡ None → cell_of column row.now ≡ Null }
{
    if column == 0 {
        return None;
    }
    row.get(column - 1)
}

// The cell of a column; null where the row has no such column.
fn cell_of(alloc: Global, column: usize, row: &[Cell]) -> Result<Cell, OutOfMemory>
    ensures { IfOk result (λ cell. cell ≡ cell_of column row.now) }
{
    match cell_at(row, column) {
        Some(cell) => copy(alloc, cell),
        None => Ok(Cell::Null),
    }
}

/// The cell of a quantifier's column where it stands, if its row has such a column.
pub(crate) fn placed<'a>(env: &Bindings<'a>, q: QuantId, column: usize) -> Option<&'a Cell>
    ensures { IfSome result (λ cell. cell.now ≡ cell_of column (row_of q (env_of env.now))) }
{
    cell_at(row_of(env, q), column)
}

/// The cell of a quantifier's column.
#[inline(never)]
pub fn column(alloc: Global, env: &Bindings, q: QuantId, column: usize) -> Result<Cell, OutOfMemory>
    ensures { IfOk result (λ cell. cell ≡ cell_of column (row_of q (env_of env.now))) }
{
    cell_of(alloc, column, row_of(env, q))
}
