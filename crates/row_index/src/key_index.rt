// Places found by hashes.
ghost use Rattle.std.specs.Prelude.{◌≡◌, ◌<◌, ◌+◌, IfOk, get_or, length};
ghost use Rattle.row_index.specs.Chains as spec;

use crate::chains::{chain_of, link, seek};
use shared_types::OutOfMemory;
use std::alloc::Global;
use std::marker::Model;

/// The hashes of rows that stand elsewhere, in their order, of which those of one hash are found one
/// after the other. Contracts see it as the list of the hashes.
#[derive(Drop)]
pub struct KeyIndex {
    heads: Vec<usize>,
    nexts: Vec<usize>,
    hashes: Vec<u64>,
}

impl Model for KeyIndex {
    ghost use Rattle.std.specs.Prelude.{ℕ, List};
    ghost use Rattle.row_index.specs.Chains.{AreLinked};

    ghost Value = { List ℕ };

    ghost view = { λ t. t.hashes.items };

    ghost invariant = { λ t. AreLinked t.heads.items t.nexts.items t.hashes.items };
}

impl KeyIndex {
    /// Of these hashes.
    pub fn of_hashes(alloc: Global, hashes: Vec<u64>) -> Result<KeyIndex, OutOfMemory>
        ensures { IfOk result (λ t. t ≡ hashes.items) }
    {
        let n = hashes.len();
        let mut heads = vec![in alloc; n; n.max(1)]?;
        let mut nexts = vec![in alloc; n; n]?;
        link(&mut heads, &mut nexts, &hashes);
        Ok(KeyIndex {
            heads,
            nexts,
            hashes,
        })
    }

    /// How many there are.
    pub fn len(&self) -> usize
        ensures { result ≡ length self.now }
    {
        self.hashes.len()
    }

    /// The first place of a hash; the number of all where there is none.
    pub fn first(&self, hash: u64) -> usize
        ensures { spec.IsNextOf self.now hash 0 result }
    {
        let place = self.heads[chain_of(hash, self.heads.len())];
        seek(&self.heads, &self.nexts, &self.hashes, hash, place)
    }

    /// The place of the same hash that comes after one; the number of all where there is none.
    pub fn next(&self, hash: u64, at: usize) -> usize
        requires within { at < length self.now }
        requires own { get_or self.now at 0 ≡ hash }
        ensures { spec.IsNextOf self.now hash (at + 1) result }
    {
        let place = self.nexts[at];
        seek(&self.heads, &self.nexts, &self.hashes, hash, place)
    }
}
