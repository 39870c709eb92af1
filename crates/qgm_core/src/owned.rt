// The quantifiers that a box owns.
ghost use Rattle.std.specs.Prelude.{◌≡◌, ◌<◌, ◌≤◌, ◌++◌, ◌∷◌, [], Some, true, length, map, insert, position, IfOk, OnOk, OnErr};
ghost use Rattle.std.specs.List.{list_any};
ghost use Rattle.qgm_core.specs.Boxes.{is_quant};
ghost use Rattle.list_laws.specs.Lists.{IsFirst, change, first, moved_to, without};

use crate::kinds::{BoxId, QuantKind};
use crate::quants::Quants;
use qgm_terms::QuantId;
use shared_types::OutOfMemory;
use std::alloc::Global;
use std::marker::Model;

/// A quantifier: the box that owns it, what it ranges for, and the box that it ranges over
/// (Pirahesh, Hellerstein and Hasan 1992, 2.1).
#[derive(Clone, Copy, PartialEq, Eq)]
pub struct Quant {
    pub owner: BoxId,
    pub kind: QuantKind,
    pub over: BoxId,
}

/// A quantifier in the box that owns it: its number, what it ranges for, and the box that it ranges
/// over.
#[derive(Clone, Copy)]
pub struct OwnedQuant {
    pub id: QuantId,
    pub kind: QuantKind,
    pub over: BoxId,
}

/// The quantifiers of a box, by place. Contracts see it as the list of them.
pub struct Owned {
    ids: Quants,
    ranges: Vec<OwnedQuant>,
}

// By hand, so that what lets quantifiers go cites this function.
impl Drop for Owned {
    fn drop(self) {
        let Owned { ids, ranges } = self;
        drop(ids);
        drop(ranges);
    }
}

impl Model for Owned {
    ghost use Rattle.std.specs.Prelude.{◌≡◌, List, map};
    ghost use Rattle.qgm_core.specs.declared.owned.OwnedQuant.{OwnedQuant};

    ghost Value = { List OwnedQuant };

    ghost view = { λ o. o.ranges.items };

    ghost invariant = { λ o. o.ids ≡ map (λ r. r.id) o.ranges.items };
}

impl Owned {
    /// No quantifier.
    pub fn new(alloc: Global) -> Owned
        ensures { result ≡ [] }
    {
        Owned {
            ids: Quants::new(alloc),
            ranges: Vec::new(alloc),
        }
    }

    // A copy.
    pub(crate) fn copy(&self, alloc: Global) -> Result<Owned, OutOfMemory>
        ensures { IfOk result (λ o. o ≡ self.now) }
    {
        let mut copy = Owned::new(alloc);
        copy.append(self.as_slice())?;
        Ok(copy)
    }

    /// The numbers of the quantifiers.
    pub fn ids(&self) -> &Quants
        ensures { result.now ≡ map (λ r. r.id) self.now }
    {
        &self.ids
    }

    /// The quantifiers.
    pub fn as_slice(&self) -> &[OwnedQuant]
        ensures { result.now ≡ self.now }
    {
        &self.ranges
    }

    /// Adds a quantifier at the end.
    pub fn push(&mut self, r: OwnedQuant) -> Result<(), OutOfMemory>
        ensures ok { OnOk result (self.new ≡ self.old ++ r ∷ []) }
        ensures err { OnErr result (self.new ≡ self.old) }
    {
        let n = self.ranges.len();
        self.insert(n, r)
    }

    // Adds quantifiers at the end.
    pub(crate) fn append(&mut self, ranges: &[OwnedQuant]) -> Result<(), OutOfMemory>
        ensures { OnOk result (self.new ≡ self.old ++ ranges.now) }
    {
        for range in ranges {
            self.push(*range)?;
        }
        Ok(())
    }

    // Puts a quantifier at a place, from 0.
    pub(crate) fn insert(&mut self, i: usize, r: OwnedQuant) -> Result<(), OutOfMemory>
        requires { i ≤ length self.old }
        ensures ok { OnOk result (self.new ≡ insert self.old i r) }
        ensures err { OnErr result (self.new ≡ self.old) }
    {
        self.ranges.reserve(1)?;
        self.ids.insert(i, r.id)?;
        let _ = self.ranges.insert(i, r);
        Ok(())
    }

    // Takes a quantifier out. It takes no memory.
    pub(crate) fn remove(&mut self, q: QuantId)
        requires { list_any (is_quant q) self.old ≡ true }
        ensures { self.new ≡ without (is_quant q) self.old }
    {
        let i = range_place(&self.ranges, q);
        self.ids.remove(i);
        let _dropped = self.ranges.remove(i);
    }

    // Moves a quantifier to a place, from 0, among the others. It takes no memory.
    pub(crate) fn move_to(&mut self, q: QuantId, j: usize)
        requires held { list_any (is_quant q) self.old ≡ true }
        requires within { j < length self.old }
        ensures { self.new ≡ moved_to (is_quant q) j self.old }
    {
        let i = range_place(&self.ranges, q);
        self.ids.move_to(i, j);
        let range = self.ranges.remove(i);
        let _ = self.ranges.insert(j, range);
    }

    // What a quantifier ranges for is this now. It takes no memory.
    pub(crate) fn put_kind(&mut self, q: QuantId, kind: QuantKind)
        requires { list_any (is_quant q) self.old ≡ true }
        ensures { self.new ≡ change (is_quant q) (λ r. record r { kind = kind }) self.old }
    {
        let i = range_place(&self.ranges, q);
        self.ranges[i].kind = kind;
    }

    // A quantifier ranges over this box now. It takes no memory.
    pub(crate) fn put_over(&mut self, q: QuantId, over: BoxId)
        requires { list_any (is_quant q) self.old ≡ true }
        ensures { self.new ≡ change (is_quant q) (λ r. record r { over = over }) self.old }
    {
        let i = range_place(&self.ranges, q);
        self.ranges[i].over = over;
    }
}

/// Whether one of the quantifiers has the number.
pub fn has_range(ranges: &[OwnedQuant], q: QuantId) -> bool
    ensures { result ≡ list_any (is_quant q) ranges.now }
{
    find_range(ranges, q).is_some()
}

// Where a quantifier stands in its owner, if it does.
fn find_range(ranges: &[OwnedQuant], q: QuantId) -> Option<usize>
    ensures { result ≡ position (is_quant q) ranges.now }
{
    ranges.iter().position(|r| r.id == q)
}

// Where a quantifier stands in its owner.
fn range_place(ranges: &[OwnedQuant], q: QuantId) -> usize
    requires { list_any (is_quant q) ranges.now ≡ true }
    ensures { IsFirst (is_quant q) ranges.now result }
{
    find_range(ranges, q).unwrap()
}

// A quantifier in its owner.
pub fn range_of(ranges: &[OwnedQuant], q: QuantId) -> OwnedQuant
    requires { list_any (is_quant q) ranges.now ≡ true }
    ensures { Some result ≡ first (is_quant q) ranges.now }
{
    let i = range_place(ranges, q);
    ranges[i]
}
