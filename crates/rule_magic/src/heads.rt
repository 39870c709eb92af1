// Heads of the boxes that absorbing makes.
ghost use Rattle.std.specs.Prelude.{◌≡◌, ◌+◌, ◌-◌, ◌++◌, IfOk, OnOk};
ghost use Rattle.qgm_meaning.specs.Tags.{columns_from};
ghost use Rattle.rule_magic.specs.Boxes as spec;

use qgm_terms::{Gx, Head, QuantId, ROOM, copy, substitute};
use shared_types::OutOfMemory;
use std::alloc::Global;

/// Adds the columns of q behind its first ones, up to this one.
pub fn add_columns(
    head: &mut Head,
    q: QuantId,
    behind: usize,
    end: usize,
) -> Result<(), OutOfMemory>
    ensures { OnOk result (head.new ≡ head.old ++ columns_from q (behind + 1) (end - behind)) }
{
    for k in behind..end {
        head.push(Gx::Col(q, k + 1))?;
    }
    Ok(())
}

/// Columns 1 to w of a quantifier.
pub fn columns(alloc: Global, q: QuantId, w: usize) -> Result<Head, OutOfMemory>
    ensures { IfOk result (λ h. h ≡ columns_from q 1 w) }
{
    let mut head = Head::new(alloc);
    add_columns(&mut head, q, 0, w)?;
    Ok(head)
}

/// The v columns of a quantifier behind its first w. It fails, too, where these are too many to count.
pub fn later(alloc: Global, q: QuantId, w: usize, v: usize) -> Result<Head, OutOfMemory>
    ensures { IfOk result (λ h. h ≡ spec.later q w v) }
{
    let Some(end) = w.checked_add(v) else {
        return Err(OutOfMemory);
    };
    let mut head = Head::new(alloc);
    add_columns(&mut head, q, w, end)?;
    Ok(head)
}

/// All columns of two quantifiers, the first of w and the second of v.
pub fn of_both(
    alloc: Global,
    a: QuantId,
    w: usize,
    b: QuantId,
    v: usize,
) -> Result<Head, OutOfMemory>
    ensures { IfOk result (λ h. h ≡ spec.of_both a w b v) }
{
    let mut head = columns(alloc, a, w)?;
    add_columns(&mut head, b, 0, v)?;
    Ok(head)
}

/// Columns 1 to w of a quantifier, and copies of these cells.
pub fn led(alloc: Global, q: QuantId, w: usize, cells: &Head) -> Result<Head, OutOfMemory>
    ensures { IfOk result (λ h. h ≡ columns_from q 1 w ++ cells.now) }
{
    let mut head = columns(alloc, q, w)?;
    for x in cells.as_slice() {
        let y = copy(alloc, x, ROOM)?;
        head.push(y)?;
    }
    Ok(head)
}

/// Columns 1 to w of p, and these cells, whose names of q's v columns become those of p behind them.
pub fn keyed(
    alloc: Global,
    q: QuantId,
    p: QuantId,
    w: usize,
    v: usize,
    cells: &Head,
) -> Result<Head, OutOfMemory>
    ensures { IfOk result (λ h. h ≡ spec.keyed q p w v cells.now) }
{
    let mut head = columns(alloc, p, w)?;
    let behind = later(alloc, p, w, v)?;
    for x in cells.as_slice() {
        let y = substitute(alloc, x, q, &behind, ROOM)?;
        head.push(y)?;
    }
    Ok(head)
}
