// Expressions and conditions put together. Chains stay flat: what is put behind a chain goes into its
// list.
ghost use Rattle.std.specs.Prelude.{◌≡◌, ◌∷◌, [], IfOk};
ghost use Rattle.qgm_terms.specs.Shown.{cond, term};
ghost use Rattle.qgm_terms.specs.Terms as t;

use crate::tree::{Gc, Gx, Link, Op};
use shared_types::OutOfMemory;
use std::alloc::Global;

// A list of one.
fn one_link(alloc: Global, op: Op, right: Gx) -> Result<Vec<Link>, OutOfMemory>
    ensures { IfOk result (λ v. v.items ≡ (record { op = op; right = right }) ∷ []) }
{
    let mut list = Vec::new(alloc);
    list.push(Link { op, right })?;
    Ok(list)
}

/// `total op next`.
#[tactic(auto, using(crate::proofs::Lists::lists))]
pub fn chained(alloc: Global, total: Gx, op: Op, next: Gx) -> Result<Gx, OutOfMemory>
    ensures { IfOk result (λ x. term x ≡ t.both op (term total) (term next)) }
{
    match total.into_chain() {
        Ok((first, list)) => {
            let mut list = list;
            list.push(Link { op, right: next })?;
            Ok(Gx::Chain(first, list))
        }
        Err(first) => {
            let list = one_link(alloc, op, next)?;
            Ok(Gx::Chain(Box::new(alloc, first)?, list))
        }
    }
}

// A list of one.
fn one_cond(alloc: Global, p: Gc) -> Result<Vec<Gc>, OutOfMemory>
    ensures { IfOk result (λ v. v.items ≡ p ∷ []) }
{
    let mut list = Vec::new(alloc);
    list.push(p)?;
    Ok(list)
}

/// `total AND next`.
#[tactic(auto, using(crate::proofs::Lists::lists))]
pub fn anded(alloc: Global, total: Gc, next: Gc) -> Result<Gc, OutOfMemory>
    ensures { IfOk result (λ p. cond p ≡ t.and (cond total) (cond next)) }
{
    match total.into_all() {
        Ok((first, list)) => {
            let mut list = list;
            list.push(next)?;
            Ok(Gc::All(first, list))
        }
        Err(first) => {
            let list = one_cond(alloc, next)?;
            Ok(Gc::All(Box::new(alloc, first)?, list))
        }
    }
}

/// `total OR next`.
#[tactic(auto, using(crate::proofs::Lists::lists))]
pub fn ored(alloc: Global, total: Gc, next: Gc) -> Result<Gc, OutOfMemory>
    ensures { IfOk result (λ p. cond p ≡ t.or (cond total) (cond next)) }
{
    match total.into_any() {
        Ok((first, list)) => {
            let mut list = list;
            list.push(next)?;
            Ok(Gc::Any(first, list))
        }
        Err(first) => {
            let list = one_cond(alloc, next)?;
            Ok(Gc::Any(Box::new(alloc, first)?, list))
        }
    }
}

/// `NOT p`.
pub fn negated(alloc: Global, p: Gc) -> Result<Gc, OutOfMemory>
    ensures { IfOk result (λ r. cond r ≡ t.not (cond p)) }
{
    Ok(Gc::Not(Box::new(alloc, p)?))
}
