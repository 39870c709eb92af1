// The order in which boxes are visited.
ghost use Rattle.std.specs.Prelude.{◌≡◌, ◌≤◌, ◌++◌, ◌∷◌, [], drop, length, map, OnOk, IfOk};
ghost use Rattle.qgm_core.specs.Boxes.{numbers};
ghost use Rattle.list_laws.specs.Lists.{EachOnce};
ghost use Rattle.qgm_core.specs.Walk as spec;

use crate::box_places::{Places, node_at};
use crate::kinds::BoxId;
use crate::marks::Marks;
use crate::node::Node;
use crate::owned::OwnedQuant;
use shared_types::OutOfMemory;
use std::alloc::Global;

// Visits a box that stands at a place, from 0, or behind it and wasn't seen, and then those under its
// quantifiers, depth first.
fn visit(
    nodes: &[Node],
    places: &Places,
    from: usize,
    b: BoxId,
    seen: &mut Marks,
) -> Result<(), OutOfMemory>
    requires places { places.now ≡ numbers nodes.now }
    requires once { EachOnce (numbers nodes.now) }
    ensures { OnOk result (seen.new ≡ spec.visit (drop from nodes.now) b seen.old) }
{
    let Some(i) = places.find(b) else {
        return Ok(());
    };
    if i < from {
        return Ok(());
    }
    if seen.has(b) {
        return Ok(());
    }
    seen.push(b)?;
    for range in nodes[i].quants.as_slice() {
        visit(nodes, places, i + 1, range.over, seen)?;
    }
    Ok(())
}

// The boxes from the root, depth first.
pub fn depth_first(alloc: Global, nodes: &[Node], root: BoxId) -> Result<Vec<BoxId>, OutOfMemory>
    requires { EachOnce (numbers nodes.now) }
    ensures { IfOk result (λ seen. seen.items ≡ spec.visit nodes.now root []) }
{
    let places = Places::of(alloc, nodes)?;
    let mut seen = Marks::new(alloc);
    visit(nodes, &places, 0, root, &mut seen)?;
    Ok(seen.into_list())
}

// Appends the boxes that these quantifiers range over and that weren't seen, each once.
#[tactic(auto, using(crate::proofs::Visited::news_new, crate::proofs::Visited::news_seen))]
fn add_news(ranges: &[OwnedQuant], seen: &mut Marks) -> Result<(), OutOfMemory>
    ensures { OnOk result (seen.new ≡ seen.old ++ spec.news seen.old (map (λ r. r.over) ranges.now)) }
{
    for range in ranges {
        if !seen.has(range.over) {
            seen.push(range.over)?;
        }
    }
    Ok(())
}

// Appends the level below the one that starts at this place.
fn add_level(
    nodes: &[Node],
    places: &Places,
    start: usize,
    seen: &mut Marks,
) -> Result<(), OutOfMemory>
    requires places { places.now ≡ numbers nodes.now }
    requires within { start ≤ length seen.old }
    ensures { OnOk result (seen.new ≡ seen.old ++ spec.news seen.old (spec.under nodes.now (drop start seen.old))) }
{
    for i in start..seen.as_slice().len() {
        let b = seen.as_slice()[i];
        if let Some(node) = node_at(nodes, places, b) {
            add_news(node.quants.as_slice(), seen)?;
        }
    }
    Ok(())
}

// The boxes from the root, level by level.
#[tactic(auto, using(crate::proofs::Visited::levels_step, crate::proofs::Visited::levels_end))]
pub fn by_levels(alloc: Global, nodes: &[Node], root: BoxId) -> Result<Vec<BoxId>, OutOfMemory>
    ensures { IfOk result (λ seen. seen.items ≡ spec.levels (length nodes.now) nodes.now (root ∷ []) (root ∷ [])) }
{
    let places = Places::of(alloc, nodes)?;
    let mut seen = Marks::new(alloc);
    seen.push(root)?;
    let mut start = 0;
    for _level in 0..nodes.len() {
        let end = seen.as_slice().len();
        add_level(nodes, &places, start, &mut seen)?;
        start = end;
    }
    Ok(seen.into_list())
}
