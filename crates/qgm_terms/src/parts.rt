// The cells of a box, and its conditions.
ghost use Rattle.std.specs.Prelude.{◌≡◌, ◌≤◌, ◌+◌, ◌-◌, ◌++◌, ◌∷◌, [], length, map, slice_get, Some, OnOk, OnErr, max};
ghost use Rattle.std.specs.List.{remove};
ghost use Rattle.qgm_terms.specs.Depth.{depth, depth_cond, room};
ghost use Rattle.qgm_terms.specs.Shift.{shifted, shifted_cond};
ghost use Rattle.qgm_terms.specs.Shown.{cond, conds, term, terms};

use crate::depths::{fits, fits_cond};
use crate::named::QuantId;
use crate::shifts::{shift_cells, shift_conds};
use crate::tree::{Gc, Gx, ROOM};
use shared_types::OutOfMemory;
use std::alloc::Global;
use std::marker::Model;

/// The expressions that a box gives for each of its rows, one a column
/// (Pirahesh, Hellerstein and Hasan 1992, 2.1). Contracts see it as the list of them. None has more
/// levels than `ROOM`.
#[derive(Drop)]
pub struct Head {
    terms: Vec<Gx>,
}

impl Model for Head {
    ghost use Rattle.std.specs.Prelude.{◌≤◌, List, map};
    ghost use Rattle.std.specs.Coded.{coded_list};
    ghost use Rattle.qgm_terms.specs.Terms.{Term};
    ghost use Rattle.qgm_terms.specs.TermCodes.{coded_term};

    ghost Value = { List Term };

    ghost coded = { coded_list coded_term };

    ghost use Rattle.qgm_terms.specs.Shown.{term};

    ghost view = { λ h. map term h.terms.items };

    ghost use Rattle.qgm_terms.specs.Depth.{depths, most, room};

    ghost invariant = { λ h. most (depths h.terms.items) ≤ room };
}

impl Head {
    /// No column.
    pub fn new(alloc: Global) -> Head
        ensures { result ≡ [] }
    {
        Head {
            terms: Vec::new(alloc),
        }
    }

    /// How many columns there are.
    pub fn len(&self) -> usize
        ensures { result ≡ length self.now }
    {
        self.terms.len()
    }

    /// The expressions of all columns, in order.
    pub fn as_slice(&self) -> &[Gx]
        ensures { terms result.now ≡ self.now }
    {
        &self.terms
    }

    /// The expression of a column, by its place from 1.
    pub fn at(&self, k: usize) -> &Gx
        requires from_one { 1 ≤ k }
        requires within { k ≤ length self.now }
        ensures { slice_get self.now (k - 1) ≡ Some (term result.now) }
    {
        &self.terms[k - 1]
    }

    /// Adds a column at the end. It fails where there is no memory, or the expression has more levels
    /// than `ROOM`.
    pub fn push(&mut self, x: Gx) -> Result<(), OutOfMemory>
        ensures ok { OnOk result (self.new ≡ self.old ++ term x ∷ []) }
        ensures levels { OnOk result (depth x ≤ room) }
        ensures err { OnErr result (self.new ≡ self.old) }
    {
        if !fits(&x, ROOM) {
            return Err(OutOfMemory);
        }
        self.terms.push(x)?;
        Ok(())
    }

    /// Shifts names of later columns of a quantifier that loses its column k. It takes no memory.
    pub fn shift(&mut self, q: QuantId, k: usize)
        ensures { self.new ≡ map (shifted q k) self.old }
    {
        shift_cells(&mut self.terms, q, k);
    }

    /// Drops a column, by its place from 1. It takes no memory.
    #[tactic(auto, using(crate::proofs::Removed::map_removed))]
    pub fn remove(&mut self, k: usize)
        requires from_one { 1 ≤ k }
        requires within { k ≤ length self.old }
        ensures { self.new ≡ remove self.old (k - 1) }
    {
        let _dropped = self.terms.remove(k - 1);
    }
}

/// The conditions of a box, all of which a row must meet. Contracts see it as the list of them,
/// and for how many more there is room. None has more levels than `ROOM`.
#[derive(Drop)]
pub struct Conds {
    conds: Vec<Gc>,
    // For how many more there is room, as far as was asked.
    spare: usize,
}

impl Model for Conds {
    ghost use Rattle.std.specs.Prelude.{◌+◌, ◌≤◌, map, vec_len, vec_capacity};
    ghost use Rattle.qgm_terms.specs.Conjuncts.{Conjuncts, coded_conjuncts};

    ghost Value = { Conjuncts };

    ghost coded = { coded_conjuncts };

    ghost use Rattle.qgm_terms.specs.Shown.{cond};

    ghost view = { λ a. record { items = map cond a.conds.items; spare = a.spare } };

    ghost use Rattle.qgm_terms.specs.Depth.{cond_depths, most, room};

    ghost invariant = { λ a. (vec_len a.conds + a.spare ≤ vec_capacity a.conds) × (most (cond_depths a.conds.items) ≤ room) };
}

impl Conds {
    /// No condition.
    pub fn new(alloc: Global) -> Conds
        ensures items { result.items ≡ [] }
        ensures spare { result.spare ≡ 0 }
    {
        Conds {
            conds: Vec::new(alloc),
            spare: 0,
        }
    }

    /// How many conditions there are.
    pub fn len(&self) -> usize
        ensures { result ≡ length self.now.items }
    {
        self.conds.len()
    }

    /// All conditions, in order.
    pub fn as_slice(&self) -> &[Gc]
        ensures { conds result.now ≡ self.now.items }
    {
        &self.conds
    }

    /// A condition, by its place from 1.
    pub fn at(&self, i: usize) -> &Gc
        requires from_one { 1 ≤ i }
        requires within { i ≤ length self.now.items }
        ensures { slice_get self.now.items (i - 1) ≡ Some (cond result.now) }
    {
        &self.conds[i - 1]
    }

    /// For how many more there is room, as far as was asked.
    pub fn spare(&self) -> usize
        ensures { result ≡ self.now.spare }
    {
        self.spare
    }

    /// Makes room for n more.
    pub fn reserve(&mut self, n: usize) -> Result<(), OutOfMemory>
        ensures items { self.new.items ≡ self.old.items }
        ensures ok { OnOk result (self.new.spare ≡ max self.old.spare n) }
        ensures err { OnErr result (self.new.spare ≡ self.old.spare) }
    {
        self.conds.reserve(n)?;
        if self.spare < n {
            self.spare = n;
        }
        Ok(())
    }

    /// Adds a condition at the end. It fails where there is no memory, or the condition has more levels
    /// than `ROOM`.
    pub fn add(&mut self, c: Gc) -> Result<(), OutOfMemory>
        ensures ok { OnOk result (self.new.items ≡ self.old.items ++ cond c ∷ []) }
        ensures levels { OnOk result (depth_cond c ≤ room) }
        ensures err { OnErr result (self.new.items ≡ self.old.items) }
        ensures spare { self.new.spare ≡ self.old.spare }
    {
        if !fits_cond(&c, ROOM) {
            return Err(OutOfMemory);
        }
        self.conds.reserve(self.spare + 1)?;
        let _ = self.conds.push(c);
        Ok(())
    }

    /// Adds a condition at the end, where there is room for it. It takes no memory.
    pub fn push(&mut self, c: Gc)
        requires spare { 1 ≤ self.old.spare }
        requires depth { depth_cond c ≤ room }
        ensures items { self.new.items ≡ self.old.items ++ cond c ∷ [] }
        ensures spare { self.new.spare + 1 ≡ self.old.spare }
    {
        let _ = self.conds.push(c);
        self.spare -= 1;
    }

    /// Shifts names of later columns of a quantifier that loses its column k. It takes no memory.
    pub fn shift(&mut self, q: QuantId, k: usize)
        ensures items { self.new.items ≡ map (shifted_cond q k) self.old.items }
        ensures spare { self.new.spare ≡ self.old.spare }
    {
        shift_conds(&mut self.conds, q, k);
    }

    /// Takes a condition out, by its place from 1. It takes no memory.
    #[tactic(auto, using(crate::proofs::Removed::map_removed))]
    pub fn remove(&mut self, i: usize) -> Gc
        requires from_one { 1 ≤ i }
        requires within { i ≤ length self.old.items }
        ensures taken { slice_get self.old.items (i - 1) ≡ Some (cond result) }
        ensures depth { depth_cond result ≤ room }
        ensures items { self.new.items ≡ remove self.old.items (i - 1) }
        ensures spare { self.new.spare ≡ self.old.spare }
    {
        self.conds.remove(i - 1)
    }
}
