// How many nodes may still be made after those of a box.
ghost use Rattle.std.specs.Prelude.{◌≡◌, ◌+◌, IfOk};
ghost use Rattle.qgm_box_size.specs.Nodes.{cells_size, conjuncts_size};
ghost use Rattle.qgm_term_size.specs.Size as spec;
ghost use Rattle.qgm_terms.specs.Shown.{cond, term};

use qgm_core::{Conds, Gc, Gx, Head};
use qgm_term_size::{cell_size, cond_size};
use shared_types::OutOfMemory;

// After those of an expression. It fails where they are more.
fn left_after_cell(x: &Gx, left: usize) -> Result<usize, OutOfMemory>
    ensures { IfOk result (λ n. n + spec.cell_size (term x.now) ≡ left) }
{
    let past = left.checked_add(1).ok_or(OutOfMemory)?;
    left.checked_sub(cell_size(x, past)).ok_or(OutOfMemory)
}

// After those of a condition. It fails where they are more.
fn left_after_cond(c: &Gc, left: usize) -> Result<usize, OutOfMemory>
    ensures { IfOk result (λ n. n + spec.cond_size (cond c.now) ≡ left) }
{
    let past = left.checked_add(1).ok_or(OutOfMemory)?;
    left.checked_sub(cond_size(c, past)).ok_or(OutOfMemory)
}

// After those of a head. It fails where they are more.
fn left_after_head(head: &Head, left: usize) -> Result<usize, OutOfMemory>
    ensures { IfOk result (λ n. n + cells_size head.now ≡ left) }
{
    let mut rest = left;
    for x in head.as_slice() {
        rest = left_after_cell(x, rest)?;
    }
    Ok(rest)
}

// After those of conditions. It fails where they are more.
fn left_after_conds(conds: &Conds, left: usize) -> Result<usize, OutOfMemory>
    ensures { IfOk result (λ n. n + conjuncts_size conds.now.items ≡ left) }
{
    let mut rest = left;
    for c in conds.as_slice() {
        rest = left_after_cond(c, rest)?;
    }
    Ok(rest)
}

/// After those of a box with this head and these conditions. It fails where they are more.
pub(crate) fn left_after_box(head: &Head, conds: &Conds, left: usize) -> Result<usize, OutOfMemory>
    ensures { IfOk result (λ n. n + (cells_size head.now + conjuncts_size conds.now.items) ≡ left) }
{
    left_after_conds(conds, left_after_head(head, left)?)
}
