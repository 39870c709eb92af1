// Boxes that are made before they stand in a graph.
ghost use Rattle.std.specs.Prelude.{◌≡◌, IfOk};
ghost use Rattle.qgm_core.specs.Made.{boxes_of};

use crate::node::Node;
use crate::owned::Owned;
use crate::parts::BoxParts;
use shared_types::OutOfMemory;
use std::alloc::Global;

/// A box that is made, whose number is its place, from 0, among those that are made. Its quantifiers
/// have the numbers that they were given.
#[derive(Drop)]
pub struct NewBox {
    pub parts: BoxParts,
    pub quants: Owned,
}

// The boxes by rank, the last made first.
pub fn numbered(alloc: Global, made: Vec<NewBox>) -> Result<Vec<Node>, OutOfMemory>
    ensures { IfOk result (λ nodes. nodes.items ≡ boxes_of made.items) }
{
    let mut left = made;
    let mut nodes = Vec::new(alloc);
    while let Some(new) = left.pop() {
        nodes.push(Node {
            id: left.len(),
            parts: new.parts,
            quants: new.quants,
        })?;
    }
    Ok(nodes)
}
