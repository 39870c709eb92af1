// The named columns of a quantifier.
ghost use Rattle.std.specs.Prelude.{◌≡◌, ◌++◌, IfOk, OnOk};
ghost use Rattle.qgm_terms.specs.Shown.{cond, conds};
ghost use Rattle.qgm_terms.specs.Terms as t;
ghost use Rattle.rule_feed.specs.Feed as feed;
ghost use Rattle.rule_feed.specs.FeedCode as code;
ghost use Rattle.rule_feed.specs.NamedColumns as spec;

use crate::feed::condition::is_named;
use qgm_core::{Marks, Node};
use qgm_terms::{Conds, Gc, Gx, Head, QuantId, ROOM, Sign, anded, copy_cond};
use shared_types::OutOfMemory;
use std::alloc::Global;

/// Whether marked boxes read column 1, 2 and so on of q, of w columns.
pub fn flags(
    alloc: Global,
    nodes: &[Node],
    marks: &Marks,
    q: QuantId,
    w: usize,
) -> Result<Vec<bool>, OutOfMemory>
    ensures { IfOk result (λ v. v.items ≡ spec.flags (λ k. code.named_among marks.now q k nodes.now) 1 w) }
{
    let mut list = Vec::new(alloc);
    for k in 0..w {
        list.push(is_named(nodes, marks, q, k + 1))?;
    }
    Ok(list)
}

/// How many columns are named.
pub fn count(flags: &[bool]) -> usize
    ensures { result ≡ spec.count flags.now }
{
    let mut n: usize = 0;
    for flag in flags {
        if *flag {
            n += 1;
        }
    }
    n
}

/// The named columns of q.
pub fn picked(alloc: Global, flags: &[bool], q: QuantId) -> Result<Head, OutOfMemory>
    ensures { IfOk result (λ h. h ≡ spec.picked_by flags.now q 1) }
{
    let mut head = Head::new(alloc);
    let mut k: usize = 1;
    for flag in flags {
        if *flag {
            head.push(Gx::Col(q, k))?;
        }
        k += 1;
    }
    Ok(head)
}

/// Cells for all columns: the named ones are columns of q, one after the other, and the others null.
pub fn cells(alloc: Global, flags: &[bool], q: QuantId) -> Result<Head, OutOfMemory>
    ensures { IfOk result (λ h. h ≡ spec.cells_by flags.now q 1) }
{
    let mut head = Head::new(alloc);
    let mut j: usize = 1;
    for flag in flags {
        if *flag {
            head.push(Gx::Col(q, j))?;
            j += 1;
        } else {
            head.push(Gx::NullInt)?;
        }
    }
    Ok(head)
}

// Column k of p is the same as column j of i.
fn same_at(alloc: Global, p: QuantId, k: usize, i: QuantId, j: usize) -> Result<Gc, OutOfMemory>
    ensures { IfOk result (λ c. cond c ≡ t.compare t.same (t.col p k) (t.col i j)) }
{
    let left = Box::new(alloc, Gx::Col(p, k))?;
    let right = Box::new(alloc, Gx::Col(i, j))?;
    Ok(Gc::Compare(Sign::Same, left, right))
}

/// The named columns of p are the same as the first columns of i.
pub fn joins(alloc: Global, flags: &[bool], p: QuantId, i: QuantId) -> Result<Conds, OutOfMemory>
    ensures items { IfOk result (λ a. a.items ≡ spec.joins_by flags.now p i 1 1) }
    ensures spare { IfOk result (λ a. a.spare ≡ 0) }
{
    let mut all = Conds::new(alloc);
    let mut k: usize = 1;
    let mut j: usize = 1;
    for flag in flags {
        if *flag {
            let c = same_at(alloc, p, k, i, j)?;
            all.add(c)?;
            j += 1;
        }
        k += 1;
    }
    Ok(all)
}

/// All of these, as one condition.
pub fn all_of(alloc: Global, list: &[Gc]) -> Result<Gc, OutOfMemory>
    ensures { IfOk result (λ c. cond c ≡ feed.all_of (conds list.now)) }
{
    let Some((first, rest)) = list.split_first() else {
        return Ok(Gc::True);
    };
    let mut total = copy_cond(alloc, first, ROOM)?;
    for c in rest {
        let next = copy_cond(alloc, c, ROOM)?;
        total = anded(alloc, total, next)?;
    }
    Ok(total)
}

/// Adds copies of these.
pub fn add_all(alloc: Global, all: &mut Conds, list: &[Gc]) -> Result<(), OutOfMemory>
    ensures items { OnOk result (all.new.items ≡ all.old.items ++ conds list.now) }
    ensures spare { all.new.spare ≡ all.old.spare }
{
    for c in list {
        let next = copy_cond(alloc, c, ROOM)?;
        all.add(next)?;
    }
    Ok(())
}
