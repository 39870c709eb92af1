// All columns of a quantifier, and that they are the same as those of another.
ghost use Rattle.std.specs.Prelude.{◌≡◌, ◌∷◌, [], IfOk};
ghost use Rattle.qgm_terms.specs.Shown.{cond};
ghost use Rattle.qgm_terms.specs.Terms as t;
ghost use Rattle.qgm_edit_laws.specs.Ranges.{columns_from};
ghost use Rattle.qgm_edit_laws.specs.SameColumns as spec;

use qgm_terms::{Conds, Gc, Gx, Head, QuantId, Sign, anded};
use shared_types::OutOfMemory;
use std::alloc::Global;

/// A head that is columns 1 to w of a quantifier.
pub fn columns(alloc: Global, q: QuantId, w: usize) -> Result<Head, OutOfMemory>
    ensures { IfOk result (λ h. h ≡ columns_from q 1 w) }
{
    let mut head = Head::new(alloc);
    for k in 0..w {
        head.push(Gx::Col(q, k + 1))?;
    }
    Ok(head)
}

// Column k of l is the same as that of r.
fn same_at(alloc: Global, l: QuantId, r: QuantId, k: usize) -> Result<Gc, OutOfMemory>
    ensures { IfOk result (λ p. cond p ≡ t.compare t.same (t.col l k) (t.col r k)) }
{
    let left = Box::new(alloc, Gx::Col(l, k))?;
    let right = Box::new(alloc, Gx::Col(r, k))?;
    Ok(Gc::Compare(Sign::Same, left, right))
}

/// Columns 1 to w of l are the same as those of r.
pub fn all_same(alloc: Global, l: QuantId, r: QuantId, w: usize) -> Result<Gc, OutOfMemory>
    ensures { IfOk result (λ p. cond p ≡ spec.all_same l r w) }
{
    if w == 0 {
        return Ok(Gc::True);
    }
    let mut total = same_at(alloc, l, r, 1)?;
    for k in 1..w {
        let next = same_at(alloc, l, r, k + 1)?;
        total = anded(alloc, total, next)?;
    }
    Ok(total)
}

/// One condition, with as much room for more as these have.
pub fn only_cond(alloc: Global, conds: &Conds, p: Gc) -> Result<Conds, OutOfMemory>
    ensures { IfOk result (λ a. a ≡ record conds.now { items = cond p ∷ [] }) }
{
    let mut all = Conds::new(alloc);
    all.add(p)?;
    all.reserve(conds.spare())?;
    Ok(all)
}
