// Conditions that tags are the same.
ghost use Rattle.std.specs.Prelude.{◌≡◌, ◌++◌, IfOk, OnOk};
ghost use Rattle.qgm_terms.specs.Shown.{cond};
ghost use Rattle.qgm_terms.specs.Terms as t;
ghost use Rattle.rule_magic.specs.Boxes as spec;

use qgm_terms::{Conds, Gc, Gx, QuantId, Sign};
use shared_types::OutOfMemory;
use std::alloc::Global;

// Column k of both is the same.
fn same_at(alloc: Global, p: QuantId, q: QuantId, k: usize) -> Result<Gc, OutOfMemory>
    ensures { IfOk result (λ c. cond c ≡ t.compare t.same (t.col p k) (t.col q k)) }
{
    let left = Box::new(alloc, Gx::Col(p, k))?;
    let right = Box::new(alloc, Gx::Col(q, k))?;
    Ok(Gc::Compare(Sign::Same, left, right))
}

/// Adds that columns 1 to w of both are the same, one by one.
pub fn add_same(
    alloc: Global,
    all: &mut Conds,
    p: QuantId,
    q: QuantId,
    w: usize,
) -> Result<(), OutOfMemory>
    ensures items { OnOk result (all.new.items ≡ all.old.items ++ spec.same_each p q 1 w) }
    ensures spare { all.new.spare ≡ all.old.spare }
{
    for k in 0..w {
        let c = same_at(alloc, p, q, k + 1)?;
        all.add(c)?;
    }
    Ok(())
}

/// Columns 1 to w of both are the same, one by one.
pub fn same_each(alloc: Global, p: QuantId, q: QuantId, w: usize) -> Result<Conds, OutOfMemory>
    ensures { IfOk result (λ a. a ≡ record { items = spec.same_each p q 1 w; spare = 0 }) }
{
    let mut all = Conds::new(alloc);
    add_same(alloc, &mut all, p, q, w)?;
    Ok(all)
}
