// Cells and conditions of the box over the fed one.
ghost use Rattle.std.specs.Prelude.{◌≡◌, OnOk, IfOk, map};
ghost use Rattle.qgm_terms.specs.Shown.{choices, cond, conds, links, term};
ghost use Rattle.qgm_terms.specs.Terms as t;
ghost use Rattle.rule_feed.specs.Feed as spec;
ghost use Rattle.rule_feed.specs.FeedTerms.{fed_choices, fed_links};

use qgm_terms::{
    Arm, Conds, Gc, Gx, Head, Link, QuantId, ROOM, anded, copy, copy_cond, negated, ored,
};
use shared_types::OutOfMemory;
use std::alloc::Global;
use std::mem::replace;

// The place of a column behind n others.
fn up(n: usize, j: usize) -> Result<usize, OutOfMemory>
    ensures { IfOk result (λ k. k ≡ spec.up n j) }
{
    if j == 0 {
        return Ok(0);
    }
    match n.checked_add(j) {
        Some(k) => Ok(k),
        None => Err(OutOfMemory),
    }
}

// K beside the condition of a some.
fn join_some(alloc: Global, c: &mut Gc, k: &Gc) -> Result<(), OutOfMemory>
    ensures { OnOk result (cond c.new ≡ t.and (cond k.now) (cond c.old)) }
{
    let first = copy_cond(alloc, k, ROOM)?;
    let own = replace(c, Gc::True);
    *c = anded(alloc, first, own)?;
    Ok(())
}

// NOT K beside the condition of an every.
fn join_every(alloc: Global, c: &mut Gc, k: &Gc) -> Result<(), OutOfMemory>
    ensures { OnOk result (cond c.new ≡ t.or (t.not (cond k.now)) (cond c.old)) }
{
    let first = negated(alloc, copy_cond(alloc, k, ROOM)?)?;
    let own = replace(c, Gc::True);
    *c = ored(alloc, first, own)?;
    Ok(())
}

// Columns of i go up by n, and K goes beside what stands in a node of i.
#[cycle(feed)]
fn feed(alloc: Global, x: &mut Gx, i: QuantId, n: usize, k: &Gc) -> Result<(), OutOfMemory>
    ensures { OnOk result (term x.new ≡ spec.fed_term i n (cond k.now) (term x.old)) }
{
    match x {
        Gx::Int(_) | Gx::Text(_) | Gx::NullInt | Gx::NullText | Gx::CountAll | Gx::Scalar(_) => {
            Ok(())
        }
        Gx::Col(r, j) => {
            if *r == i {
                *j = up(n, *j)?;
            }
            Ok(())
        }
        Gx::Chain(a, list) => {
            feed(alloc, a, i, n, k)?;
            feed_links(alloc, list, i, n, k)?;
            Ok(())
        }
        Gx::Case(list, a) => {
            feed_arms(alloc, list, i, n, k)?;
            feed(alloc, a, i, n, k)?;
            Ok(())
        }
        Gx::Neg(a) => feed(alloc, a, i, n, k),
        Gx::Fold(_, _, a) => feed(alloc, a, i, n, k),
    }
}

// The same in the operands behind a first one.
#[cycle(feed)]
fn feed_links(
    alloc: Global,
    list: &mut [Link],
    i: QuantId,
    n: usize,
    k: &Gc,
) -> Result<(), OutOfMemory>
    ensures { OnOk result (links list.new ≡ fed_links i n (cond k.now) (links list.old)) }
{
    for at in 0..list.len() {
        let link = &mut list[at];
        feed(alloc, &mut link.right, i, n, k)?;
    }
    Ok(())
}

// The same in the arms of a CASE.
#[cycle(feed)]
fn feed_arms(
    alloc: Global,
    list: &mut [Arm],
    i: QuantId,
    n: usize,
    k: &Gc,
) -> Result<(), OutOfMemory>
    ensures { OnOk result (choices list.new ≡ fed_choices i n (cond k.now) (choices list.old)) }
{
    for at in 0..list.len() {
        let arm = &mut list[at];
        feed_cond(alloc, &mut arm.when, i, n, k)?;
        feed(alloc, &mut arm.then, i, n, k)?;
    }
    Ok(())
}

// The same in a condition.
#[cycle(feed)]
fn feed_cond(alloc: Global, c: &mut Gc, i: QuantId, n: usize, k: &Gc) -> Result<(), OutOfMemory>
    ensures { OnOk result (cond c.new ≡ spec.fed_cond i n (cond k.now) (cond c.old)) }
{
    match c {
        Gc::True => Ok(()),
        Gc::Compare(_, a, b) => {
            feed(alloc, a, i, n, k)?;
            feed(alloc, b, i, n, k)
        }
        Gc::IsNull(a) => feed(alloc, a, i, n, k),
        Gc::All(a, list) => {
            feed_cond(alloc, a, i, n, k)?;
            feed_conds(alloc, list, i, n, k)?;
            Ok(())
        }
        Gc::Any(a, list) => {
            feed_cond(alloc, a, i, n, k)?;
            feed_conds(alloc, list, i, n, k)?;
            Ok(())
        }
        Gc::Not(a) => feed_cond(alloc, a, i, n, k),
        Gc::Some(r, a) => {
            feed_cond(alloc, a, i, n, k)?;
            if *r == i {
                join_some(alloc, a, k)?;
            }
            Ok(())
        }
        Gc::Every(r, a) => {
            feed_cond(alloc, a, i, n, k)?;
            if *r == i {
                join_every(alloc, a, k)?;
            }
            Ok(())
        }
    }
}

// The same in conditions.
#[cycle(feed)]
fn feed_conds(
    alloc: Global,
    list: &mut [Gc],
    i: QuantId,
    n: usize,
    k: &Gc,
) -> Result<(), OutOfMemory>
    ensures { OnOk result (conds list.new ≡ map (spec.fed_cond i n (cond k.now)) (conds list.old)) }
{
    for at in 0..list.len() {
        feed_cond(alloc, &mut list[at], i, n, k)?;
    }
    Ok(())
}

/// A copy of a head in which columns of i go up by n, and K stands beside what stands in a node of i.
pub fn fed_head(
    alloc: Global,
    head: &Head,
    i: QuantId,
    n: usize,
    k: &Gc,
) -> Result<Head, OutOfMemory>
    ensures { IfOk result (λ h. h ≡ map (spec.fed_term i n (cond k.now)) head.now) }
{
    let mut all = Head::new(alloc);
    for x in head.as_slice() {
        let mut y = copy(alloc, x, ROOM)?;
        feed(alloc, &mut y, i, n, k)?;
        all.push(y)?;
    }
    Ok(all)
}

/// The same of conditions, with as much room for more.
pub fn fed_conds(
    alloc: Global,
    conds: &Conds,
    i: QuantId,
    n: usize,
    k: &Gc,
) -> Result<Conds, OutOfMemory>
    ensures { IfOk result (λ a. a ≡ record conds.now { items = map (spec.fed_cond i n (cond k.now)) conds.now.items }) }
{
    let mut all = Conds::new(alloc);
    for c in conds.as_slice() {
        let mut p = copy_cond(alloc, c, ROOM)?;
        feed_cond(alloc, &mut p, i, n, k)?;
        all.add(p)?;
    }
    all.reserve(conds.spare())?;
    Ok(all)
}
