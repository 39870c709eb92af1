// A fed box with the boxes under it, and whether these may be absorbed.
ghost use Rattle.std.specs.Prelude.{◌≡◌, IfOk, option_map};
ghost use Rattle.qgm_core.specs.Boxes.{is_box, width};
ghost use Rattle.list_laws.specs.Lists.{first};
ghost use Rattle.qgm_props.specs.Inferred.{all_places};
ghost use Rattle.qgm_props.specs.Laws.{KeptOf};
ghost use Rattle.qgm_props.specs.Table.{facts_of};
ghost use Rattle.rule_magic.specs.Feeding as spec;

use qgm_core::{BoxId, BoxKind, Graph, Node, OwnedQuant};
use qgm_props::{Inference, Props};
use qgm_terms::both;
use rule_facts::{box_at, is_closed};
use shared_types::OutOfMemory;
use std::alloc::Global;

/// At how many boxes the rules that add boxes have places no more.
const MOST_BOXES: usize = 65_530;

/// A fed box d: its quantifiers a over the magic box m and r over the open box c.
#[derive(Drop)]
pub struct Fed<'a> {
    pub d: &'a Node,
    pub a: OwnedQuant,
    pub m: &'a Node,
    pub r: OwnedQuant,
    pub c: &'a Node,
}

// With the boxes under both quantifiers.
fn both_found<'a>(graph: &'a Graph, d: &'a Node, a: OwnedQuant, r: OwnedQuant) -> Option<Fed<'a>>
    ensures { option_map spec.as_feeding result ≡ spec.both_found d.now a r (first (is_box a.over) graph.now.boxes) (first (is_box r.over) graph.now.boxes) }
{
    graph.each_number_once();
    let m = box_at(graph.nodes(), a.over)?;
    let c = box_at(graph.nodes(), r.over)?;
    Some(Fed { d, a, m, r, c })
}

// If there are two quantifiers.
fn under_two<'a>(graph: &'a Graph, d: &'a Node) -> Option<Fed<'a>>
    ensures { option_map spec.as_feeding result ≡ spec.under_two graph.now.boxes d.now d.now.quants }
{
    match d.quants.as_slice() {
        [a, r] => both_found(graph, d, *a, *r),
        [] | [_] | [_, _, _, ..] => None,
    }
}

/// The box of a number, if it is fed, with the boxes under it.
pub fn fed_at<'a>(graph: &'a Graph, b: BoxId) -> Option<Fed<'a>>
    ensures { option_map spec.as_feeding result ≡ spec.feeding graph.now b }
{
    graph.each_number_once();
    let d = box_at(graph.nodes(), b)?;
    if !d.parts.role.is_fed() {
        return None;
    }
    under_two(graph, d)
}

/// How many columns a box has.
pub fn width(node: &Node) -> usize
    ensures { result ≡ width node.now }
{
    match &node.parts.kind {
        BoxKind::Base(base) => base.types.len(),
        BoxKind::SetOp(_, types) => types.len(),
        BoxKind::Select | BoxKind::Group(_) | BoxKind::OuterJoin => node.parts.head.len(),
    }
}

// Whether columns 1 to w of a box are known to be error-free.
fn all_free(facts: &Props, b: BoxId, w: usize) -> bool
    ensures { result ≡ all_places w ((facts_of facts.now).error_free b) }
{
    let mut left = w;
    while left > 0 {
        if !facts.error_free(b, left) {
            return false;
        }
        left -= 1;
    }
    true
}

// Whether a box is inferred clean, and its columns error-free.
fn is_faultless(
    alloc: Global,
    graph: &Graph,
    known: &mut Inference,
    m: &Node,
) -> Result<bool, OutOfMemory>
    requires { KeptOf known.old graph.now.boxes }
    ensures known { KeptOf known.new graph.now.boxes }
    ensures test { IfOk result (λ fits. fits ≡ spec.is_faultless graph.now.boxes m.now) }
{
    let facts = known.take(alloc, graph)?;
    let fits = both(facts.clean(m.id), all_free(&facts, m.id, width(m)));
    known.put(facts);
    Ok(fits)
}

/// Whether the magic box is inferred clean, with error-free columns, and is closed, and the box beside
/// it is open. It fails only for want of memory.
pub fn is_ready(
    alloc: Global,
    graph: &Graph,
    known: &mut Inference,
    fed: &Fed<'_>,
) -> Result<bool, OutOfMemory>
    requires { KeptOf known.old graph.now.boxes }
    ensures known { KeptOf known.new graph.now.boxes }
    ensures test { IfOk result (λ ready. ready ≡ spec.is_ready graph.now.boxes (spec.as_feeding fed.now)) }
{
    if !is_faultless(alloc, graph, known, fed.m)? {
        return Ok(false);
    }
    let closed = is_closed(alloc, graph, fed.m.id)?;
    let open = !is_closed(alloc, graph, fed.c.id)?;
    Ok(closed && open)
}

/// Whether new boxes may still be added.
pub fn is_small(graph: &Graph) -> bool
    ensures { result ≡ spec.are_few graph.now.boxes }
{
    graph.len() <= MOST_BOXES
}
