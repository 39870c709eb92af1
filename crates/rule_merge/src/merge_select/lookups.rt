// What is made once of a graph before the quantifiers of a box are tested.
ghost use Rattle.std.specs.Prelude.{◌≡◌, IfOk};
ghost use Rattle.qgm_core.specs.Boxes.{numbers};
ghost use Rattle.rule_merge.specs.MergeSelectLookups.{AreOfGraph};

use crate::merge_select::foreign::foreign_if;
use qgm_core::{Counts, Graph, Marks, Node, OwnedQuant, Places, node_at, uses_of};
use rule_facts::any_fed;
use shared_types::OutOfMemory;
use std::alloc::Global;

/// For so many quantifiers at most no lookups are made where none ranges over a plain select, and it
/// isn't noted what boxes name that they don't own.
pub const FEW: usize = 8;

/// A graph, where its boxes stand, how many quantifiers range over each, whether one is fed, and what
/// they name that they don't own, where that is worth its time.
#[derive(Drop)]
pub struct Lookups<'a> {
    pub graph: &'a Graph,
    pub places: Places,
    pub counts: Counts,
    pub is_any_fed: bool,
    pub foreign: Option<Marks>,
}

// Whether a quantifier ranges over a box with two or more.
fn over_join(nodes: &[Node], places: &Places, r: OwnedQuant) -> bool
    requires { places.now ≡ numbers nodes.now }
{
    match node_at(nodes, places, r.over) {
        Some(node) => node.quants.as_slice().len() > 1,
        None => false,
    }
}

// Whether it is worth its time to note what boxes name that they don't own: of many quantifiers one
// ranges over a join.
fn is_worth(nodes: &[Node], places: &Places, ranges: &[OwnedQuant]) -> bool
    requires { places.now ≡ numbers nodes.now }
{
    if ranges.len() <= FEW {
        return false;
    }
    for r in ranges {
        if over_join(nodes, places, *r) {
            return true;
        }
    }
    false
}

/// Those of a graph, for these quantifiers.
pub fn lookups_of<'a>(
    alloc: Global,
    graph: &'a Graph,
    ranges: &[OwnedQuant],
) -> Result<Lookups<'a>, OutOfMemory>
    ensures graph { IfOk result (λ t. t.graph.now ≡ graph.now) }
    ensures lookups { IfOk result (λ t. AreOfGraph t) }
{
    let nodes = graph.nodes();
    let places = Places::of(alloc, nodes)?;
    let counts = uses_of(alloc, nodes)?;
    let foreign = foreign_if(alloc, nodes, is_worth(nodes, &places, ranges))?;
    Ok(Lookups {
        graph,
        places,
        counts,
        is_any_fed: any_fed(nodes),
        foreign,
    })
}
