// The numbers of a box's quantifiers.
ghost use Rattle.std.specs.Prelude.{◌≡◌, ◌<◌, ◌≤◌, [], ℕ, length, insert, slice_index_or, OnOk, OnErr};
ghost use Rattle.std.specs.List.{remove};

use qgm_terms::QuantId;
use shared_types::OutOfMemory;
use std::alloc::Global;
use std::marker::Model;

/// Quantifiers by place. Contracts see it as the list of their numbers.
#[derive(Drop)]
pub struct Quants {
    ids: Vec<QuantId>,
}

impl Model for Quants {
    ghost use Rattle.std.specs.Prelude.{ℕ, List};

    ghost Value = { List ℕ };

    ghost view = { λ q. q.ids.items };
}

impl Quants {
    pub(crate) fn new(alloc: Global) -> Quants
        ensures { result ≡ [] }
    {
        Quants {
            ids: Vec::new(alloc),
        }
    }

    /// The quantifiers.
    pub fn as_slice(&self) -> &[QuantId]
        ensures { result.now ≡ self.now }
    {
        &self.ids
    }

    // Puts a quantifier at a place, from 0.
    pub(crate) fn insert(&mut self, i: usize, q: QuantId) -> Result<(), OutOfMemory>
        requires { i ≤ length self.old }
        ensures ok { OnOk result (self.new ≡ insert self.old i q) }
        ensures err { OnErr result (self.new ≡ self.old) }
    {
        self.ids.insert(i, q).or(Err(OutOfMemory))
    }

    // Takes the quantifier at a place, from 0, out.
    pub(crate) fn remove(&mut self, i: usize)
        requires { i < length self.old }
        ensures { self.new ≡ remove self.old i }
    {
        let _dropped = self.ids.remove(i);
    }
    // Moves the quantifier at a place, from 0, to a place among the others.
    pub(crate) fn move_to(&mut self, i: usize, j: usize)
        requires from { i < length self.old }
        requires to { j < length self.old }
        ensures { (d : ℕ) → self.new ≡ insert (remove self.old i) j (slice_index_or self.old i d) }
    {
        let q = self.ids.remove(i);
        let _ = self.ids.insert(j, q);
    }
}
