// G1.
ghost use Rattle.std.specs.Prelude.{◌≡◌, map, true, IfOk};
ghost use Rattle.qgm_props.specs.Laws.{KeptOf};
ghost use Rattle.rule_api.specs.Picks.{picks};
ghost use Rattle.rule_api.specs.Rules.{place_at};
ghost use Rattle.rule_api.specs.declared.rule_id.RuleId.TheVariants.{G1};
ghost use Rattle.rule_feed.specs.FeedActs.{Feeds};
ghost use Rattle.rule_feed.specs.FeedCode.{may_grow};
ghost use Rattle.rule_feed.specs.FeedMay.{MayFeed, feed_pairs, may_fire};
ghost use Rattle.rule_feed.specs.FeedMayExact.{feed_exact};

mod action;
mod condition;
mod edits;
mod fill;
mod named;
mod settle;
mod split;
mod terms;

use crate::feed::action::fed_at;
use crate::feed::condition::{fs_of, may_feed, may_grow};
use qgm_core::{BoxId, Graph, Node};
use qgm_props::Inference;
use rule_api::{Place, Rule, RuleId, add_if};
use rule_facts::{box_at, is_closed};
use shared_types::OutOfMemory;
use std::alloc::Global;

/// G1: the open box under a quantifier of a closed select is fed with the distinct bindings that occur:
/// they stand in a magic box, and the box is joined with it in a fed box (Seshadri, Pirahesh and Leung
/// 1996, 4).
#[derive(Clone, Copy)]
pub struct Feed;

// The places at a plain select, of a graph to which boxes may be added.
fn places_in(
    alloc: Global,
    graph: &Graph,
    known: &mut Inference,
    node: &Node,
    b: BoxId,
) -> Result<Vec<Place>, OutOfMemory>
    requires known { KeptOf known.old graph.now.boxes }
    requires grow { may_grow graph.now.boxes node.now ≡ true }
    ensures list { IfOk result (λ v. v.items ≡ map (place_at b) (picks (may_fire graph.now.boxes node.now) 1 node.now.quants)) }
    ensures known { KeptOf known.new graph.now.boxes }
{
    let mut out = Vec::new(alloc);
    if !is_closed(alloc, graph, node.id)? {
        return Ok(out);
    }
    let list = node.quants.as_slice();
    let fs = fs_of(alloc, list)?;
    for k in 0..list.len() {
        let passes = may_feed(alloc, graph, known, &fs, list[k])?;
        add_if(&mut out, passes, b, k + 1, 0)?;
    }
    Ok(out)
}

impl Rule for Feed {
    ghost pairs = { λ _. feed_pairs };

    ghost may = { λ _. MayFeed };

    ghost act = { λ _. Feeds };

    ghost name = { λ _. G1 };

    ghost exact = { λ _. feed_exact };

    fn id(&self) -> RuleId {
        RuleId::G1
    }

    #[tactic(auto, using(crate::proofs::FeedPlaces::none_grown), unfolding(crate::specs::FeedMay::feed_pairs))]
    fn places(
        &self,
        alloc: Global,
        graph: &Graph,
        known: &mut Inference,
        b: BoxId,
    ) -> Result<Vec<Place>, OutOfMemory> {
        graph.each_number_once();
        let Some(node) = box_at(graph.nodes(), b) else {
            return Ok(Vec::new(alloc));
        };
        if !may_grow(graph.nodes(), node) {
            return Ok(Vec::new(alloc));
        }
        places_in(alloc, graph, known, node, b)
    }

    fn apply(&self, alloc: Global, graph: &mut Graph, place: Place) -> Result<(), OutOfMemory> {
        graph.each_number_once();
        let after = fed_at(alloc, graph, place)?;
        *graph = after;
        Ok(())
    }
}
