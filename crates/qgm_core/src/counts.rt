// How often numbers stand in a list.
ghost use Rattle.std.specs.Prelude.{◌≡◌, ◌++◌, ◌∷◌, [], IfOk, OnOk};
ghost use Rattle.qgm_core.specs.Boxes.{overs_in};
ghost use Rattle.list_laws.specs.Lists.{times};

use crate::node::Node;
use crate::tables::make_long;
use shared_types::OutOfMemory;
use std::alloc::Global;
use std::marker::Model;

/// Numbers that are counted, each at once. Contracts see it as the list of them.
#[derive(Drop)]
pub struct Counts {
    list: Vec<usize>,
    counts: Vec<usize>,
}

impl Model for Counts {
    ghost use Rattle.std.specs.Prelude.{ℕ, List, ◌≡◌, slice_index_or};
    ghost use Rattle.list_laws.specs.Lists.{times};

    ghost Value = { List ℕ };

    ghost view = { λ c. c.list.items };

    ghost invariant = { λ c. (x : ℕ) → slice_index_or c.counts.items x 0 ≡ times x c.list.items };
}

impl Counts {
    /// None.
    pub fn new(alloc: Global) -> Counts
        ensures { result ≡ [] }
    {
        Counts {
            list: Vec::new(alloc),
            counts: Vec::new(alloc),
        }
    }

    /// Counts one more.
    pub fn push(&mut self, x: usize) -> Result<(), OutOfMemory>
        ensures { OnOk result (self.new ≡ self.old ++ x ∷ []) }
    {
        make_long(&mut self.counts, x, 0)?;
        self.list.push(x)?;
        self.counts[x] += 1;
        Ok(())
    }

    /// How often a number was counted.
    pub fn count(&self, x: usize) -> usize
        ensures { result ≡ times x self.now }
    {
        if x < self.counts.len() {
            self.counts[x]
        } else {
            0
        }
    }
}

/// How many quantifiers of the boxes range over each box.
pub fn uses_of(alloc: Global, nodes: &[Node]) -> Result<Counts, OutOfMemory>
    ensures { IfOk result (λ c. c ≡ overs_in nodes.now) }
{
    let mut counts = Counts::new(alloc);
    for node in nodes {
        for range in node.quants.as_slice() {
            counts.push(range.over)?;
        }
    }
    Ok(counts)
}
