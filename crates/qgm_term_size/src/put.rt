// Cells in place of columns of a quantifier: how many nodes more they have, and how many levels the
// deepest of them has. A count ends at the most that is asked for.
ghost use Rattle.std.specs.Prelude.{◌≡◌, ◌+◌, ◌-◌, ◌<◌, ◌^◌, min};
ghost use Rattle.qgm_term_size.specs.Levels as levels;
ghost use Rattle.qgm_term_size.specs.Size as size;
ghost use Rattle.qgm_terms.specs.Shown.{term};
ghost use Rattle.qgm_terms.specs.Substitution.{cell_at};

use crate::levels::cell_levels;
use crate::size::cell_size;
use qgm_terms::{Column, Gx, Head, QuantId};

// With the nodes of a cell, but one for the column.
fn add_cell(x: &Gx, total: usize, most: usize) -> usize
    requires { most + 1 < 2 ^ 64 }
    ensures { result ≡ min (total + (size.cell_size (term x.now) - 1)) most }
{
    if most <= total {
        return most;
    }
    total + (cell_size(x, most - total + 1) - 1)
}

// With those of the cell at a place.
fn add_put(cells: &Head, k: usize, total: usize, most: usize) -> usize
    requires { most + 1 < 2 ^ 64 }
    ensures { result ≡ min (total + (size.cell_size (cell_at k cells.now) - 1)) most }
{
    if 0 < k && k <= cells.len() {
        add_cell(cells.at(k), total, most)
    } else {
        total.min(most)
    }
}

/// How many nodes more the cells have than these columns of q for which they stand, and `most` where
/// they have more.
pub fn put_size(columns: &[Column], q: QuantId, cells: &Head, most: usize) -> usize
    requires { most + 1 < 2 ^ 64 }
    ensures { result ≡ min (size.put_size q cells.now columns.now) most }
{
    let mut total = 0;
    for column in columns {
        if column.quant == q {
            total = add_put(cells, column.place, total, most);
        }
    }
    total
}

// Those of the cell at a place.
fn levels_at(cells: &Head, k: usize, most: usize) -> usize
    ensures { result ≡ min (levels.cell_levels (cell_at k cells.now)) most }
{
    if 0 < k && k <= cells.len() {
        cell_levels(cells.at(k), most)
    } else {
        most.min(1)
    }
}

/// How many levels the deepest cell has that stands for one of these columns of q, and `most` where it
/// has more.
pub fn put_levels(columns: &[Column], q: QuantId, cells: &Head, most: usize) -> usize
    ensures { result ≡ min (levels.put_levels q cells.now columns.now) most }
{
    let mut deepest = 0;
    for column in columns {
        if column.quant == q {
            deepest = levels_at(cells, column.place, most).max(deepest);
        }
    }
    deepest
}
