// Where boxes stand, by their numbers.
ghost use Rattle.std.specs.Prelude.{◌≡◌, ◌==◌, ◌++◌, ◌∷◌, [], IfOk, OnOk, option_map, position};
ghost use Rattle.qgm_core.specs.Boxes.{is_box, numbers};
ghost use Rattle.list_laws.specs.Lists.{first};

use crate::kinds::BoxId;
use crate::node::Node;
use crate::tables::make_long;
use shared_types::OutOfMemory;
use std::alloc::Global;
use std::marker::Model;

/// The places of boxes, each found at once by the box's number. Contracts see it as the list of the
/// boxes' numbers.
#[derive(Drop)]
pub struct Places {
    list: Vec<BoxId>,
    at: Vec<Option<usize>>,
}

impl Model for Places {
    ghost use Rattle.std.specs.Prelude.{ℕ, List, None, ◌≡◌, ◌==◌, position, slice_index_or};

    ghost Value = { List ℕ };

    ghost view = { λ p. p.list.items };

    ghost invariant = { λ p. (b : ℕ) → slice_index_or p.at.items b None ≡ position (λ x. x == b) p.list.items };
}

impl Places {
    /// The places of boxes by rank, from 0.
    pub fn of(alloc: Global, nodes: &[Node]) -> Result<Places, OutOfMemory>
        ensures { IfOk result (λ p. p ≡ numbers nodes.now) }
    {
        let mut places = Places {
            list: Vec::new(alloc),
            at: Vec::new(alloc),
        };
        for node in nodes {
            places.push(node.id)?;
        }
        Ok(places)
    }

    // Adds the next place. The first of one number counts.
    fn push(&mut self, b: BoxId) -> Result<(), OutOfMemory>
        ensures { OnOk result (self.new ≡ self.old ++ b ∷ []) }
    {
        make_long(&mut self.at, b, None)?;
        let i = self.list.len();
        self.list.push(b)?;
        self.at[b] = self.at[b].or(Some(i));
        Ok(())
    }

    /// The place of the first box of this number, if there is one.
    pub fn find(&self, b: BoxId) -> Option<usize>
        ensures { result ≡ position (λ x. x == b) self.now }
    {
        if b < self.at.len() { self.at[b] } else { None }
    }
}

/// The first box of this number, if there is one.
pub fn node_at<'a>(nodes: &'a [Node], places: &Places, b: BoxId) -> Option<&'a Node>
    requires { places.now ≡ numbers nodes.now }
    ensures { option_map (λ n. n.now) result ≡ first (is_box b) nodes.now }
{
    match places.find(b) {
        Some(i) => Some(&nodes[i]),
        None => None,
    }
}
