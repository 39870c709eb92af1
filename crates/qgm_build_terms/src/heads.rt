// Heads and conditions of boxes.
ghost use Rattle.std.specs.Prelude.{◌≡◌, ◌++◌, IfOk, OnOk};
ghost use Rattle.qgm_terms.specs.Shown.{cond, terms};
ghost use Rattle.qgm_terms.specs.Split.{split};

use qgm_core::{Conds, Gc, Gx, Head};
use shared_types::OutOfMemory;
use std::alloc::Global;

/// A head of these expressions. It fails where one of them has more levels than a head takes.
pub fn head_of(alloc: Global, list: Vec<Gx>) -> Result<Head, OutOfMemory>
    ensures { IfOk result (λ h. h ≡ terms list.items) }
{
    let mut head = Head::new(alloc);
    for x in list {
        head.push(x)?;
    }
    Ok(head)
}

/// Adds a condition, split at each AND that isn't under OR and NOT.
pub fn add_boxed(out: &mut Conds, p: Box<Gc>) -> Result<(), OutOfMemory>
    ensures items { OnOk result (out.new.items ≡ out.old.items ++ split (cond p.value)) }
    ensures spare { out.new.spare ≡ out.old.spare }
{
    Box::into_inner(p).split_into(out)
}
