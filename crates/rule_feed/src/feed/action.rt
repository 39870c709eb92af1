// The graph after G1, made on a copy.
ghost use Rattle.std.specs.Prelude.{ℕ, ◌≡◌, ◌≤◌, ◌-◌, length, slice_get, IfOk, Some};
ghost use Rattle.list_laws.specs.Lists.{In};
ghost use Rattle.qgm_core.specs.Boxes.{HasBox, HasQuant, box_of, numbers};
ghost use Rattle.qgm_core.specs.Held.{HasAll};
ghost use Rattle.qgm_core.specs.declared.node.Node.{Node};
ghost use Rattle.qgm_wellformed.specs.Sentences.{WellFormed};
ghost use Rattle.rule_api.specs.Rules.{Preserves};
ghost use Rattle.rule_feed.specs.FeedActs as act;
ghost use Rattle.rule_feed.specs.FeedActs.{Feeds};
ghost use Rattle.rule_feed.specs.FeedCode as code;
ghost use Rattle.rule_feed.specs.FeedMay.{MayFeed};
ghost use Rattle.rule_feed.specs.FeedSteps as spec;

use crate::feed::edits::numbers_of;
use crate::feed::fill::fill;
use crate::feed::settle::settle;
use crate::feed::split::{Split, make_split, part};
use qgm_core::{BoxId, Graph, Node, OwnedQuant, QuantKind};
use qgm_props::props;
use rule_api::Place;
use rule_facts::box_at;
use shared_types::OutOfMemory;
use std::alloc::Global;

// A copy of the graph, with an S settled.
fn settled(alloc: Global, graph: &Graph, b: &Node, r: OwnedQuant) -> Result<Graph, OutOfMemory>
    requires held { HasBox b.now.id graph.now }
    requires owned { HasQuant r.id graph.now }
    ensures graph { IfOk result (λ h. h ≡ spec.settle_edits b.now r graph.now) }
    ensures kept { IfOk result (λ h. HasAll graph.now h) }
{
    let mut after = graph.copy(alloc)?;
    settle(alloc, &mut after, b, r)?;
    Ok(after)
}

// One of these, by its place from 1.
fn quant_at(list: &[OwnedQuant], i: usize) -> OwnedQuant
    requires from_one { 1 ≤ i }
    requires within { i ≤ length list.now }
    ensures { Some result ≡ slice_get list.now (i - 1) }
{
    list[i - 1]
}

// The box of a place, and the quantifier.
fn found_at<'a>(graph: &'a Graph, place: Place) -> (&'a Node, OwnedQuant)
    requires { MayFeed place graph.now }
    ensures { code.IsPlace place graph.now result.0.now result.1 }
{
    graph.each_number_once();
    let Some(b) = box_at(graph.nodes(), place.at) else {
        unreachable!()
    };
    let r = quant_at(b.quants.as_slice(), place.i);
    (b, r)
}

// What a quantifier is when it is settled.
fn settled_quant(r: OwnedQuant) -> OwnedQuant
    ensures { result ≡ act.settled_quant r }
{
    if !r.kind.is_s() {
        return r;
    }
    OwnedQuant {
        id: r.id,
        kind: QuantKind::F,
        over: r.over,
    }
}

// Those that feed box c, and the conditions that go along, go from box b into a select of their own.
fn split_off(
    alloc: Global,
    graph: &Graph,
    after: &mut Graph,
    b: BoxId,
    c: BoxId,
) -> Result<Split, OutOfMemory>
    requires held { HasBox b after.old }
    requires all { (y : ℕ) → In y (numbers graph.now.boxes) → HasBox y after.old }
    ensures kept { HasAll after.old after.new }
    ensures held { IfOk result (λ y. HasBox y.s after.new) }
    ensures new_s { IfOk result (λ y. HasBox y.s after.old → ⊥) }
    ensures new_q { IfOk result (λ y. HasQuant y.q after.old → ⊥) }
    ensures graph { IfOk result (λ y. (n : Node) → box_of b after.old ≡ Some n → after.new ≡ spec.split_edits (numbers graph.now.boxes) graph.now.boxes b (spec.parted graph.now.boxes n c) y.s y.q after.old) }
{
    let facts = props(alloc, graph)?;
    let ids = numbers_of(alloc, graph.nodes())?;
    after.each_number_once();
    let Some(node) = box_at(after.nodes(), b) else {
        unreachable!()
    };
    let x = part(alloc, graph, &facts, node, c)?;
    graph.each_number_once();
    make_split(alloc, after, graph.nodes(), &ids, b, x)
}

/// The graph after G1 at a place. It fails, too, where there are too many columns to count.
pub fn fed_at(alloc: Global, graph: &Graph, place: Place) -> Result<Graph, OutOfMemory>
    requires formed { WellFormed graph.now }
    requires given { MayFeed place graph.now }
    ensures acts { IfOk result (λ h. Feeds place graph.now h) }
    ensures preserves { IfOk result (λ h. Preserves graph.now h) }
{
    graph.each_number_once();
    let (b, r) = found_at(graph, place);
    let mut after = settled(alloc, graph, b, r)?;
    let made = split_off(alloc, graph, &mut after, b.id, r.over)?;
    fill(alloc, &mut after, b.id, made, settled_quant(r))?;
    after.compact(alloc)?;
    Ok(after)
}
