// In which order the quantifiers of a select are bound.
ghost use Rattle.std.specs.Prelude.{◌≡◌, ◌<◌, ◌==◌, All, IfOk, length, map, true};
ghost use Rattle.std.specs.List.{list_any};
ghost use Rattle.box_exec.specs.Lasting.{Reorders};
ghost use Rattle.box_exec.specs.Seekers.{IsSeeker, left_ranges, other_sides};
ghost use Rattle.box_exec.specs.Taken as taken;
ghost use Rattle.qgm_core.specs.declared.node.Node.{Node};
ghost use Rattle.qgm_terms.specs.Shown.{term};

use crate::early::Early;
use crate::key::key_in;
use crate::lookup::Keyed;
use qgm_core::{Gx, Node, OwnedQuant, QuantId};
use qgm_term_search::add_columns;
use qgm_terms::Column;
use shared_types::OutOfMemory;
use std::alloc::Global;

/// The quantifiers of a select in another order, with the conditions that are tested early in that order,
/// and the keys of each.
#[derive(Drop)]
pub(crate) struct Order<'a> {
    pub ranges: Vec<OwnedQuant>,
    pub early: Vec<Early<'a>>,
    pub keyed: Vec<Option<Keyed<'a>>>,
}

// A quantifier that is left, and the other sides of its keys.
#[derive(Drop)]
struct Seeker<'a> {
    range: OwnedQuant,
    others: Vec<&'a Gx>,
}

// The other sides of the keys of a quantifier.
fn others_of<'a>(alloc: Global, node: &'a Node, q: QuantId) -> Result<Vec<&'a Gx>, OutOfMemory>
    ensures { IfOk result (λ made. map (λ x. term x.now) made.items ≡ other_sides node.now q) }
{
    let mut made = Vec::new(alloc);
    for c in node.parts.conds.as_slice() {
        if let Some(key) = key_in(alloc, c, q)? {
            made.push(key.other)?;
        }
    }
    Ok(made)
}

// The quantifiers of a box, each with the other sides of its keys.
fn seekers_of<'a>(alloc: Global, node: &'a Node) -> Result<Vec<Seeker<'a>>, OutOfMemory>
    ensures ranges { IfOk result (λ made. left_ranges made.items ≡ node.now.quants) }
    ensures others { IfOk result (λ made. All (λ s. IsSeeker node.now s) made.items) }
{
    let ranges = node.quants.as_slice();
    let mut made = Vec::with_capacity(alloc, ranges.len())?;
    for range in ranges {
        let others = others_of(alloc, node, range.id)?;
        made.push(Seeker {
            range: *range,
            others,
        })?;
    }
    Ok(made)
}

// Whether one of these is of this number.
fn is_left(left: &[Seeker<'_>], q: QuantId) -> bool
    ensures { result ≡ list_any (λ s. s.range.id == q) left.now }
{
    left.iter().any(|s| s.range.id == q)
}

// Whether one of these columns is of a quantifier that is left.
fn is_any_left(columns: &[Column], left: &[Seeker<'_>]) -> bool
    ensures { result ≡ list_any (λ k. list_any (λ s. s.range.id == k.quant) left.now) columns.now }
{
    columns.iter().any(|k| is_left(left, k.quant))
}

// Whether an expression reads a row, and of none that is left.
fn reads_others(alloc: Global, left: &[Seeker<'_>], x: &Gx) -> Result<bool, OutOfMemory>
    ensures { IfOk result (λ b. b ≡ taken.reads_others (left_ranges left.now) (term x.now)) }
{
    let mut columns = Vec::new(alloc);
    add_columns(x, &mut columns)?;
    if columns.is_empty() {
        return Ok(false);
    }
    Ok(!is_any_left(&columns, left))
}

// Whether one of these expressions reads a row, and of none that is left.
fn any_reads_others(alloc: Global, left: &[Seeker<'_>], others: &[&Gx]) -> Result<bool, OutOfMemory>
    ensures { IfOk result (λ b. b ≡ list_any (λ x. taken.reads_others (left_ranges left.now) (term x.now)) others.now) }
{
    for x in others {
        if reads_others(alloc, left, x)? {
            return Ok(true);
        }
    }
    Ok(false)
}

// The place of the first of those that are left which has a key to others; without one the first place.
fn next_place(alloc: Global, left: &[Seeker<'_>]) -> Result<usize, OutOfMemory>
    requires { 0 < length left.now }
    ensures within { IfOk result (λ i. i < length left.now) }
    ensures next { (n : Node) → All (λ s. IsSeeker n s) left.now → IfOk result (λ i. i ≡ taken.next_place n (left_ranges left.now)) }
{
    for i in 0..left.len() {
        if any_reads_others(alloc, left, &left[i].others)? {
            return Ok(i);
        }
    }
    Ok(0)
}

/// The quantifiers of a select in the order in which they are to be bound: next comes the first that has a key
/// to those that are bound and to outer ones, else the first that is left. It fails only for want of memory.
pub(crate) fn in_turn(alloc: Global, node: &Node) -> Result<Vec<OwnedQuant>, OutOfMemory>
    ensures reorders { IfOk result (λ made. Reorders node.now.quants made.items) }
    ensures turn { IfOk result (λ made. made.items ≡ taken.in_turn node.now (length node.now.quants) node.now.quants) }
{
    let mut left = seekers_of(alloc, node)?;
    let mut made = Vec::with_capacity(alloc, left.len())?;
    'turns: while left.len() > 0 {
        let i = next_place(alloc, &left)?;
        let s = left.remove(i);
        made.push(s.range)?;
    }
    Ok(made)
}

// Whether two quantifiers are the same.
fn is_same(r: OwnedQuant, s: OwnedQuant) -> bool
    ensures { result ≡ true → r ≡ s }
{
    r.id == s.id && r.kind == s.kind && r.over == s.over
}

/// Whether these quantifiers are the others, in their order.
pub(crate) fn are_same(ranges: &[OwnedQuant], others: &[OwnedQuant]) -> bool
    ensures { result ≡ true → ranges.now ≡ others.now }
{
    if ranges.len() != others.len() {
        return false;
    }
    for i in 0..ranges.len() {
        if !is_same(ranges[i], others[i]) {
            return false;
        }
    }
    true
}
