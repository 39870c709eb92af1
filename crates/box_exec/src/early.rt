// Conditions that are tested as soon as what they read is bound.
ghost use Rattle.std.specs.Prelude.{◌≡◌, All, IfOk, drop, false};
ghost use Rattle.box_exec.specs.Asked.{AreEarly, place_in};
ghost use Rattle.box_exec.specs.Bound.{env_of};
ghost use Rattle.box_exec.specs.Early.{IsEarly, is_none, is_open, names_any, reads_any, rejects};
ghost use Rattle.qgm_core.specs.declared.kinds.BoxKind.TheVariants as kind;
ghost use Rattle.qgm_terms.specs.Shown.{cond};

use crate::bindings::Bindings;
use crate::evaluation::hold;
use crate::under::Under;
use qgm_core::{Gc, Node, OwnedQuant};
use qgm_term_search::stands_in_cond;
use qgm_terms::Sought;
use shared_types::OutOfMemory;
use sql_value::Level;
use std::alloc::Global;

/// A condition of a box, and the place of the first quantifier before which it can be tested.
#[derive(Clone, Copy)]
pub(crate) struct Early<'a> {
    pub place: usize,
    pub cond: &'a Gc,
}

/// Whether a box is evaluated anew there.
pub(crate) fn is_open(under: Under<'_>) -> bool
    ensures { result ≡ is_open under.entry }
{
    match under {
        Under::Open(_, _) => true,
        Under::Kept(_) | Under::Nothing => false,
    }
}

// Whether a scalar, some or every of one of these stands in a condition.
fn names_any(c: &Gc, ranges: &[OwnedQuant]) -> bool
    ensures { result ≡ names_any (cond c.now) ranges.now }
{
    ranges
        .iter()
        .any(|r| stands_in_cond(c, Sought::NodeOf(r.id)))
}

// The first place from which on a condition reads no quantifier.
fn place_from(c: &Gc, ranges: &[OwnedQuant]) -> usize
    ensures unread { reads_any (cond c.now) (drop result ranges.now) ≡ false }
    ensures exact { result ≡ place_in (cond c.now) ranges.now }
{
    let mut place = ranges.len();
    while place > 0 {
        if stands_in_cond(c, Sought::Row(ranges[place - 1].id)) {
            return place;
        }
        place -= 1;
    }
    place
}

/// The conditions of a select that are tested as soon as the quantifiers that they read are bound, in this
/// order. It fails only for want of memory.
#[inline(never)]
pub(crate) fn early_conds<'a>(
    alloc: Global,
    node: &'a Node,
    ranges: &[OwnedQuant],
) -> Result<Vec<Early<'a>>, OutOfMemory>
    ensures early { IfOk result (λ made. All (λ e. IsEarly node.now ranges.now e) made.items) }
    ensures exact { node.now.parts.kind ≡ kind.Select → IfOk result (λ made. AreEarly node.now ranges.now made.items) }
{
    let mut made = Vec::new(alloc);
    if !node.parts.kind.is_select() {
        return Ok(made);
    }
    for c in node.parts.conds.as_slice() {
        if !names_any(c, node.quants.as_slice()) {
            let place = place_from(c, ranges);
            made.push(Early { place, cond: c })?;
        }
    }
    Ok(made)
}

/// Whether nothing is there.
pub(crate) fn is_none(level: Level) -> bool
    ensures { result ≡ is_none level }
{
    match level {
        Level::No => true,
        Level::Cardinality | Level::Division | Level::Overflow | Level::Yes => false,
    }
}

/// Whether one of these that are tested at this place rejects wholly. It fails only for want of
/// memory.
#[inline(never)]
pub(crate) fn rejected(
    alloc: Global,
    early: &[Early<'_>],
    k: usize,
    env: &Bindings,
) -> Result<bool, OutOfMemory>
    ensures { IfOk result (λ b. b ≡ rejects early.now k (env_of env.now)) }
{
    for e in early {
        if e.place == k && is_none(hold(alloc, e.cond, &[], env)?.t) {
            return Ok(true);
        }
    }
    Ok(false)
}
