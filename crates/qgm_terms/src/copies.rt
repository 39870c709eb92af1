// Copies of expressions and conditions. Each level takes of `room`, and where none is left the answer is
// want of memory.
ghost use Rattle.std.specs.Prelude.{◌≡◌, IfOk};
ghost use Rattle.qgm_terms.specs.Shown.{choices, cond, conds, links, term};
ghost use Rattle.qgm_terms.specs.Terms as t;

use crate::parts::{Conds, Head};
use crate::rebuilt::{
    anded_of, case_of, chained_of, compare_of, every_of, fold_of, is_null_of, neg_of, not_of,
    ored_of, push_arm, some_of,
};
use crate::tree::{Arm, Gc, Gx, Link};
use shared_types::{OutOfMemory, Text};
use std::alloc::Global;

// A text as an expression.
#[inline(never)]
pub(crate) fn text(alloc: Global, characters: &Text) -> Result<Gx, OutOfMemory>
    ensures { IfOk result (λ y. term y ≡ t.text characters.now) }
{
    Ok(Gx::Text(characters.copy(alloc)?))
}

/// A copy of an expression. It fails where there is no memory, or the expression has more levels than
/// `room`. A chain at the head of a chain goes into one list with it.
#[cycle(copy)]
pub fn copy(alloc: Global, x: &Gx, room: usize) -> Result<Gx, OutOfMemory>
    ensures { IfOk result (λ y. term y ≡ term x.now) }
{
    if room == 0 {
        return Err(OutOfMemory);
    }
    match x {
        Gx::Int(n) => Ok(Gx::Int(*n)),
        Gx::Text(characters) => text(alloc, characters),
        Gx::NullInt => Ok(Gx::NullInt),
        Gx::NullText => Ok(Gx::NullText),
        Gx::Col(q, k) => Ok(Gx::Col(*q, *k)),
        Gx::Scalar(q) => Ok(Gx::Scalar(*q)),
        Gx::CountAll => Ok(Gx::CountAll),
        Gx::Chain(a, list) => copy_chain(alloc, a, list, room - 1),
        Gx::Case(list, a) => {
            let arms = copy_arms(alloc, list, room - 1);
            case_of(alloc, arms, copy(alloc, a, room - 1))
        }
        Gx::Neg(a) => neg_of(alloc, copy(alloc, a, room - 1)),
        Gx::Fold(f, each, a) => fold_of(alloc, *f, *each, copy(alloc, a, room - 1)),
    }
}

// A chain of a first operand and others.
#[cycle(copy)]
#[inline(never)]
fn copy_chain(alloc: Global, a: &Gx, list: &[Link], room: usize) -> Result<Gx, OutOfMemory>
    ensures { IfOk result (λ y. term y ≡ t.linked (term a.now) (links list.now)) }
{
    let mut total = copy(alloc, a, room);
    for link in list {
        let next = copy(alloc, &link.right, room);
        total = chained_of(alloc, total, link.op, next);
    }
    total
}

// The arms of a CASE.
#[cycle(copy)]
#[inline(never)]
fn copy_arms(alloc: Global, list: &[Arm], room: usize) -> Result<Vec<Arm>, OutOfMemory>
    ensures { IfOk result (λ v. choices v.items ≡ choices list.now) }
{
    let mut all = Vec::new(alloc);
    for arm in list {
        let when = copy_cond(alloc, &arm.when, room);
        push_arm(&mut all, when, copy(alloc, &arm.then, room))?;
    }
    Ok(all)
}

/// A copy of a condition. It fails where there is no memory, or the condition has more levels than `room`.
#[cycle(copy)]
pub fn copy_cond(alloc: Global, c: &Gc, room: usize) -> Result<Gc, OutOfMemory>
    ensures { IfOk result (λ p. cond p ≡ cond c.now) }
{
    if room == 0 {
        return Err(OutOfMemory);
    }
    match c {
        Gc::True => Ok(Gc::True),
        Gc::Compare(s, a, b) => {
            let left = copy(alloc, a, room - 1);
            compare_of(alloc, *s, left, copy(alloc, b, room - 1))
        }
        Gc::IsNull(a) => is_null_of(alloc, copy(alloc, a, room - 1)),
        Gc::All(a, list) => copy_all(alloc, a, list, room - 1),
        Gc::Any(a, list) => copy_any(alloc, a, list, room - 1),
        Gc::Not(a) => not_of(alloc, copy_cond(alloc, a, room - 1)),
        Gc::Some(q, a) => some_of(alloc, *q, copy_cond(alloc, a, room - 1)),
        Gc::Every(q, a) => every_of(alloc, *q, copy_cond(alloc, a, room - 1)),
    }
}

// The AND of a first condition and others.
#[cycle(copy)]
#[inline(never)]
fn copy_all(alloc: Global, a: &Gc, list: &[Gc], room: usize) -> Result<Gc, OutOfMemory>
    ensures { IfOk result (λ p. cond p ≡ t.anded (cond a.now) (conds list.now)) }
{
    let mut total = copy_cond(alloc, a, room);
    for c in list {
        let next = copy_cond(alloc, c, room);
        total = anded_of(alloc, total, next);
    }
    total
}

// The OR of a first condition and others.
#[cycle(copy)]
#[inline(never)]
fn copy_any(alloc: Global, a: &Gc, list: &[Gc], room: usize) -> Result<Gc, OutOfMemory>
    ensures { IfOk result (λ p. cond p ≡ t.ored (cond a.now) (conds list.now)) }
{
    let mut total = copy_cond(alloc, a, room);
    for c in list {
        let next = copy_cond(alloc, c, room);
        total = ored_of(alloc, total, next);
    }
    total
}

/// A copy of a head.
pub fn copy_head(alloc: Global, head: &Head, room: usize) -> Result<Head, OutOfMemory>
    ensures { IfOk result (λ h. h ≡ head.now) }
{
    let mut all = Head::new(alloc);
    for x in head.as_slice() {
        let y = copy(alloc, x, room)?;
        all.push(y)?;
    }
    Ok(all)
}

/// A copy of conditions, with as much room for more.
pub fn copy_conds(alloc: Global, conds: &Conds, room: usize) -> Result<Conds, OutOfMemory>
    ensures { IfOk result (λ a. a ≡ conds.now) }
{
    let mut all = Conds::new(alloc);
    for c in conds.as_slice() {
        let p = copy_cond(alloc, c, room)?;
        all.add(p)?;
    }
    all.reserve(conds.spare())?;
    Ok(all)
}
