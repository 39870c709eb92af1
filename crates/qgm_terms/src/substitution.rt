// Expressions and conditions with cells in place of a quantifier's columns.
ghost use Rattle.std.specs.Prelude.{◌≡◌, IfOk, map};
ghost use Rattle.qgm_terms.specs.Substitution.{substituted, column_substituted, substituted_choices, substituted_cond, substituted_links, substituted_within};
ghost use Rattle.qgm_terms.specs.Shown.{choices, cond, conds, links, term};
ghost use Rattle.qgm_terms.specs.Terms as t;

use crate::copies::{copy, copy_cond, text};
use crate::named::QuantId;
use crate::parts::{Conds, Head};
use crate::rebuilt::{
    anded_of, case_of, chained_of, compare_of, every_of, fold_of, is_null_of, neg_of, not_of,
    ored_of, push_arm, some_of,
};
use crate::tree::{Arm, Gc, Gx, Link};
use shared_types::OutOfMemory;
use std::alloc::Global;

// What stands for a column: its cell, where it is one of the quantifier.
#[inline(never)]
fn cell_of(
    alloc: Global,
    r: QuantId,
    k: usize,
    q: QuantId,
    cells: &Head,
    room: usize,
) -> Result<Gx, OutOfMemory>
    ensures { IfOk result (λ y. term y ≡ column_substituted q cells.now r k) }
{
    if r != q {
        Ok(Gx::Col(r, k))
    } else if 0 < k && k <= cells.len() {
        copy(alloc, cells.at(k), room)
    } else {
        Ok(Gx::NullInt)
    }
}

/// A copy in which each column of the quantifier is the cell at its place, and null where there is
/// none. Within a some or every of the quantifier itself its rows are meant, and stay. It fails where
/// there is no memory, or the copy has more levels than `room`. A chain at the head of a chain goes into
/// one list with it.
#[cycle(substitute)]
pub fn substitute(
    alloc: Global,
    x: &Gx,
    q: QuantId,
    cells: &Head,
    room: usize,
) -> Result<Gx, OutOfMemory>
    ensures { IfOk result (λ y. term y ≡ substituted q cells.now (term x.now)) }
{
    if room == 0 {
        return Err(OutOfMemory);
    }
    match x {
        Gx::Int(n) => Ok(Gx::Int(*n)),
        Gx::Text(characters) => text(alloc, characters),
        Gx::NullInt => Ok(Gx::NullInt),
        Gx::NullText => Ok(Gx::NullText),
        Gx::Col(r, k) => cell_of(alloc, *r, *k, q, cells, room),
        Gx::Scalar(r) => Ok(Gx::Scalar(*r)),
        Gx::CountAll => Ok(Gx::CountAll),
        Gx::Chain(a, list) => substitute_chain(alloc, a, list, q, cells, room - 1),
        Gx::Case(list, a) => {
            let arms = substitute_arms(alloc, list, q, cells, room - 1);
            case_of(alloc, arms, substitute(alloc, a, q, cells, room - 1))
        }
        Gx::Neg(a) => neg_of(alloc, substitute(alloc, a, q, cells, room - 1)),
        Gx::Fold(f, each, a) => fold_of(alloc, *f, *each, substitute(alloc, a, q, cells, room - 1)),
    }
}

// A chain of a first operand and others.
#[cycle(substitute)]
#[inline(never)]
fn substitute_chain(
    alloc: Global,
    a: &Gx,
    list: &[Link],
    q: QuantId,
    cells: &Head,
    room: usize,
) -> Result<Gx, OutOfMemory>
    ensures { IfOk result (λ y. term y ≡ t.linked (substituted q cells.now (term a.now)) (substituted_links q cells.now (links list.now))) }
{
    let mut total = substitute(alloc, a, q, cells, room);
    for link in list {
        let next = substitute(alloc, &link.right, q, cells, room);
        total = chained_of(alloc, total, link.op, next);
    }
    total
}

// The arms of a CASE.
#[cycle(substitute)]
#[inline(never)]
fn substitute_arms(
    alloc: Global,
    list: &[Arm],
    q: QuantId,
    cells: &Head,
    room: usize,
) -> Result<Vec<Arm>, OutOfMemory>
    ensures { IfOk result (λ v. choices v.items ≡ substituted_choices q cells.now (choices list.now)) }
{
    let mut all = Vec::new(alloc);
    for arm in list {
        let when = substitute_cond(alloc, &arm.when, q, cells, room);
        let then = substitute(alloc, &arm.then, q, cells, room);
        push_arm(&mut all, when, then)?;
    }
    Ok(all)
}

/// A copy of a condition in which each column of the quantifier is the cell at its place.
#[cycle(substitute)]
pub fn substitute_cond(
    alloc: Global,
    c: &Gc,
    q: QuantId,
    cells: &Head,
    room: usize,
) -> Result<Gc, OutOfMemory>
    ensures { IfOk result (λ p. cond p ≡ substituted_cond q cells.now (cond c.now)) }
{
    if room == 0 {
        return Err(OutOfMemory);
    }
    match c {
        Gc::True => Ok(Gc::True),
        Gc::Compare(s, a, b) => {
            let left = substitute(alloc, a, q, cells, room - 1);
            let right = substitute(alloc, b, q, cells, room - 1);
            compare_of(alloc, *s, left, right)
        }
        Gc::IsNull(a) => is_null_of(alloc, substitute(alloc, a, q, cells, room - 1)),
        Gc::All(a, list) => substitute_all(alloc, a, list, q, cells, room - 1),
        Gc::Any(a, list) => substitute_any(alloc, a, list, q, cells, room - 1),
        Gc::Not(a) => not_of(alloc, substitute_cond(alloc, a, q, cells, room - 1)),
        Gc::Some(r, a) => some_of(
            alloc,
            *r,
            substitute_within(alloc, *r, a, q, cells, room - 1),
        ),
        Gc::Every(r, a) => every_of(
            alloc,
            *r,
            substitute_within(alloc, *r, a, q, cells, room - 1),
        ),
    }
}

// The condition of a some or every of a quantifier.
#[cycle(substitute)]
#[inline(never)]
fn substitute_within(
    alloc: Global,
    r: QuantId,
    c: &Gc,
    q: QuantId,
    cells: &Head,
    room: usize,
) -> Result<Gc, OutOfMemory>
    ensures { IfOk result (λ p. cond p ≡ substituted_within q cells.now r (cond c.now)) }
{
    if r == q {
        copy_cond(alloc, c, room)
    } else {
        substitute_cond(alloc, c, q, cells, room)
    }
}

// The AND of a first condition and others.
#[cycle(substitute)]
#[inline(never)]
fn substitute_all(
    alloc: Global,
    a: &Gc,
    list: &[Gc],
    q: QuantId,
    cells: &Head,
    room: usize,
) -> Result<Gc, OutOfMemory>
    ensures { IfOk result (λ p. cond p ≡ t.anded (substituted_cond q cells.now (cond a.now)) (map (substituted_cond q cells.now) (conds list.now))) }
{
    let mut total = substitute_cond(alloc, a, q, cells, room);
    for c in list {
        let next = substitute_cond(alloc, c, q, cells, room);
        total = anded_of(alloc, total, next);
    }
    total
}

// The OR of a first condition and others.
#[cycle(substitute)]
#[inline(never)]
fn substitute_any(
    alloc: Global,
    a: &Gc,
    list: &[Gc],
    q: QuantId,
    cells: &Head,
    room: usize,
) -> Result<Gc, OutOfMemory>
    ensures { IfOk result (λ p. cond p ≡ t.ored (substituted_cond q cells.now (cond a.now)) (map (substituted_cond q cells.now) (conds list.now))) }
{
    let mut total = substitute_cond(alloc, a, q, cells, room);
    for c in list {
        let next = substitute_cond(alloc, c, q, cells, room);
        total = ored_of(alloc, total, next);
    }
    total
}

/// The same of a head.
pub fn substitute_head(
    alloc: Global,
    head: &Head,
    q: QuantId,
    cells: &Head,
    room: usize,
) -> Result<Head, OutOfMemory>
    ensures { IfOk result (λ h. h ≡ map (substituted q cells.now) head.now) }
{
    let mut all = Head::new(alloc);
    for x in head.as_slice() {
        let y = substitute(alloc, x, q, cells, room)?;
        all.push(y)?;
    }
    Ok(all)
}

/// The same of conditions, with as much room for more.
pub fn substitute_conds(
    alloc: Global,
    conds: &Conds,
    q: QuantId,
    cells: &Head,
    room: usize,
) -> Result<Conds, OutOfMemory>
    ensures items { IfOk result (λ a. a.items ≡ map (substituted_cond q cells.now) conds.now.items) }
    ensures spare { IfOk result (λ a. a.spare ≡ conds.now.spare) }
{
    let mut all = Conds::new(alloc);
    for c in conds.as_slice() {
        let p = substitute_cond(alloc, c, q, cells, room)?;
        all.add(p)?;
    }
    all.reserve(conds.spare())?;
    Ok(all)
}
