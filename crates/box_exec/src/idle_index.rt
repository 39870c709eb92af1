// Indexes of rows of E and A quantifiers, by the hashes of the cells that their conditions compare.
ghost use Rattle.std.specs.Prelude.{IfOk, IfSome};
ghost use Rattle.box_exec.specs.Indexed.{IsIdleIndex};

use crate::idle::idle_keys;
use crate::lookup::{Hashed, hashed_by};
use qgm_core::{Gc, QuantId};
use row_bag::Bag;
use shared_types::OutOfMemory;
use std::alloc::Global;

/// An index of rows of an E or A quantifier, by which rows are passed over that count for nothing in a some
/// or every of it: one of this condition.
#[derive(Drop)]
pub(crate) struct IdleIndex<'a> {
    pub quant: QuantId,
    pub holds: bool,
    pub condition: &'a Gc,
    pub hashed: Hashed<'a>,
}

// The index for a condition of some, or else of every, if it has keys.
fn indexed_by<'a>(
    alloc: Global,
    c: &'a Gc,
    holds: bool,
    q: QuantId,
    rows: &Bag,
) -> Result<Option<IdleIndex<'a>>, OutOfMemory>
    ensures { IfOk result (λ o. IfSome o (λ x. IsIdleIndex rows.now x)) }
{
    let keys = idle_keys(alloc, c, holds, q, rows)?;
    match hashed_by(alloc, keys, q, rows)? {
        Some(hashed) => Ok(Some(IdleIndex {
            quant: q,
            holds,
            condition: c,
            hashed,
        })),
        None => Ok(None),
    }
}

// The first some or every of a quantifier in a condition.
#[cycle(node_of)]
fn node_of<'a>(c: &'a Gc, q: QuantId) -> Option<&'a Gc> {
    match c {
        Gc::Some(r, a) | Gc::Every(r, a) => { if *r == q { Some(c) } else { node_of(a, q) } }
        Gc::All(a, list) | Gc::Any(a, list) => match node_of(a, q) {
            Some(node) => Some(node),
            None => node_among(list, q),
        },
        Gc::Not(a) => node_of(a, q),
        Gc::True | Gc::Compare(_, _, _) | Gc::IsNull(_) => None,
    }
}

// The first in one of these conditions.
#[cycle(node_of)]
fn node_among<'a>(list: &'a [Gc], q: QuantId) -> Option<&'a Gc> {
    for c in list {
        if let Some(node) = node_of(c, q) {
            return Some(node);
        }
    }
    None
}

/// The index of rows of an E or A quantifier for the first some or every of it in these conditions, if that
/// has keys. It fails only for want of memory.
pub(crate) fn indexed_in<'a>(
    alloc: Global,
    list: &'a [Gc],
    q: QuantId,
    rows: &Bag,
) -> Result<Option<IdleIndex<'a>>, OutOfMemory>
    ensures { IfOk result (λ o. IfSome o (λ x. IsIdleIndex rows.now x)) }
{
    match node_among(list, q) {
        Some(Gc::Some(_, c)) => indexed_by(alloc, c, false, q, rows),
        Some(Gc::Every(_, c)) => indexed_by(alloc, c, true, q, rows),
        Some(
            Gc::True
            | Gc::Compare(_, _, _)
            | Gc::IsNull(_)
            | Gc::All(_, _)
            | Gc::Any(_, _)
            | Gc::Not(_),
        )
        | None => Ok(None),
    }
}
