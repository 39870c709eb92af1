// The head of an outer join on tags.
ghost use Rattle.std.specs.Prelude.{◌≡◌, ◌++◌, IfOk};
ghost use Rattle.qgm_meaning.specs.Tags.{columns_from};
ghost use Rattle.rule_magic.specs.Boxes as spec;

use crate::heads::{add_columns, columns};
use qgm_terms::{Head, QuantId};
use shared_types::OutOfMemory;
use std::alloc::Global;

/// Columns 1 to w of p, and the v columns of q behind its first w. It fails, too, where these are too
/// many to count.
pub fn joined_head(
    alloc: Global,
    p: QuantId,
    q: QuantId,
    w: usize,
    v: usize,
) -> Result<Head, OutOfMemory>
    ensures { IfOk result (λ h. h ≡ columns_from p 1 w ++ spec.later q w v) }
{
    let Some(end) = w.checked_add(v) else {
        return Err(OutOfMemory);
    };
    let mut head = columns(alloc, p, w)?;
    add_columns(&mut head, q, w, end)?;
    Ok(head)
}
