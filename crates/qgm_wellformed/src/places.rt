// Where the boxes stand that quantifiers range over.
ghost use Rattle.std.specs.Prelude.{◌≡◌, ℕ, nat_eq, OnOk, IfOk};
ghost use Rattle.std.specs.HashMap.{get};
ghost use Rattle.qgm_wellformed.specs.Places as spec;

use qgm_core::{BoxId, Node, OwnedQuant, QuantId};
use shared_types::OutOfMemory;
use std::alloc::Global;
use std::collections::HashMap;

/// The rank of the box that each quantifier ranges over.
pub type Places = HashMap<QuantId, usize>;

// The rank of a box, or how many boxes there are.
fn rank_in(nodes: &[Node], b: BoxId) -> usize
    ensures { result ≡ spec.rank_in b nodes.now }
{
    for i in 0..nodes.len() {
        if nodes[i].id == b {
            return i;
        }
    }
    nodes.len()
}

// Adds the places of what these range over.
fn add_places(nodes: &[Node], ranges: &[OwnedQuant], places: &mut Places) -> Result<(), OutOfMemory>
    ensures { OnOk result ((q : ℕ) → get nat_eq places.new q ≡ spec.place_or nodes.now q ranges.now (get nat_eq places.old q)) }
{
    let mut i = ranges.len();
    while i > 0 {
        i -= 1;
        let place = rank_in(nodes, ranges[i].over);
        let _old = places.insert(ranges[i].id, place)?;
    }
    Ok(())
}

/// The places of what all quantifiers range over.
pub fn places_of(alloc: Global, nodes: &[Node]) -> Result<Places, OutOfMemory>
    ensures { IfOk result (λ places. spec.ArePlaces nodes.now places) }
{
    let mut places = HashMap::new(alloc);
    let mut i = nodes.len();
    while i > 0 {
        i -= 1;
        add_places(nodes, nodes[i].quants.as_slice(), &mut places)?;
    }
    Ok(places)
}
