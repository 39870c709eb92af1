// What the text of a graph looks up.
ghost use Rattle.std.specs.Prelude.{◌≡◌, ◌++◌, IfOk, OnOk, map, option_map};
ghost use Rattle.std.specs.List.{flat_map};
ghost use Rattle.graph_print.specs.GraphText as spec;
ghost use Rattle.graph_print.specs.Indexed.{IsIndex};
ghost use Rattle.qgm_core.specs.Boxes.{is_box, quants_in};
ghost use Rattle.list_laws.specs.Lists.{first};

use crate::numbers::Places;
use qgm_core::{BoxId, Graph, Node};
use qgm_wellformed::{KnownTypes, column_types};
use shared_types::OutOfMemory;
use std::alloc::Global;

/// The types of the columns of a graph, its boxes in the order of the depth walk, and its
/// quantifiers by their owners in that order and then by place.
#[derive(Drop)]
pub struct Index {
    pub types: KnownTypes,
    pub boxes: Places,
    pub quants: Places,
}

/// The box of a number.
pub fn find_box(nodes: &[Node], b: BoxId) -> Option<&Node>
    ensures { option_map (λ n. n.now) result ≡ first (is_box b) nodes.now }
{
    for node in nodes {
        if node.id == b {
            return Some(node);
        }
    }
    None
}

// The numbers in their order.
fn places_of(alloc: Global, numbers: &[usize]) -> Result<Places, OutOfMemory>
    ensures { IfOk result (λ places. places ≡ numbers.now) }
{
    let mut places = Places::new(alloc);
    for x in numbers {
        places.push(*x)?;
    }
    Ok(places)
}

// Adds the quantifiers of a box.
fn add_quants(node: &Node, places: &mut Places) -> Result<(), OutOfMemory>
    ensures { OnOk result (places.new ≡ places.old ++ map (λ r. r.id) node.now.quants) }
{
    for range in node.quants.as_slice() {
        places.push(range.id)?;
    }
    Ok(())
}

// Adds the quantifiers of the box of a number.
fn add_quants_of(nodes: &[Node], b: BoxId, places: &mut Places) -> Result<(), OutOfMemory>
    ensures { OnOk result (places.new ≡ places.old ++ map (λ r. r.id) (quants_in (first (is_box b) nodes.now))) }
{
    match find_box(nodes, b) {
        Some(node) => add_quants(node, places),
        None => Ok(()),
    }
}

// The quantifiers of these boxes.
fn quants_by(alloc: Global, nodes: &[Node], order: &[BoxId]) -> Result<Places, OutOfMemory>
    ensures { IfOk result (λ places. places ≡ flat_map (λ b. map (λ r. r.id) (quants_in (first (is_box b) nodes.now))) order.now) }
{
    let mut places = Places::new(alloc);
    for b in order {
        add_quants_of(nodes, *b, &mut places)?;
    }
    Ok(places)
}

/// What the text of a graph looks up, where its boxes stand in this order.
pub fn index_of(alloc: Global, graph: &Graph, order: &[BoxId]) -> Result<Index, OutOfMemory>
    requires { order.now ≡ spec.box_order graph.now }
    ensures { IfOk result (λ i. IsIndex i graph.now) }
{
    let types = column_types(alloc, graph.nodes())?;
    let boxes = places_of(alloc, order)?;
    let quants = quants_by(alloc, graph.nodes(), order)?;
    Ok(Index {
        types,
        boxes,
        quants,
    })
}
