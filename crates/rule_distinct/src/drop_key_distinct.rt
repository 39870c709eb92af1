// L1.
ghost use Rattle.std.specs.Prelude.{◌≡◌, IfOk, OnErr, OnOk, true};
ghost use Rattle.qgm_wellformed.specs.Sentences.{WellFormed};
ghost use Rattle.qgm_core.specs.Boxes.{box_of};
ghost use Rattle.qgm_core.specs.Kinds.{is_select};
ghost use Rattle.qgm_props.specs.InferredKeys.{places_to};
ghost use Rattle.qgm_props.specs.Laws.{KeptOf};
ghost use Rattle.rule_api.specs.Rules.{Preserves};
ghost use Rattle.rule_api.specs.declared.rule_id.RuleId.TheVariants.{L1};
ghost use Rattle.rule_distinct.specs.DropKeyDistinct as spec;
ghost use Rattle.rule_distinct.specs.DropKeyDistinct.{MayDropKeyDistinct};
ghost use Rattle.rule_distinct.specs.DropKeyDistinctExact.{drop_key_distinct_exact};
ghost use Rattle.rule_distinct.specs.PlainAt.{DropsDistinct};
ghost use Rattle.rule_facts.specs.Places.{in_box};

use crate::parts::{is_plain_select, put_distinct};
use qgm_core::{BoxId, Distinct, Graph, Node};
use qgm_props::Inference;
use rule_api::{Place, Rule, RuleId, add_if};
use rule_facts::box_at;
use shared_types::OutOfMemory;
use std::alloc::Global;

/// L1: an ENFORCE plain select that as PRESERVE has an inferred key becomes PRESERVE, since no row of
/// it comes twice (Pirahesh, Hellerstein and Hasan 1992, 3). In the graph as it is all its columns are
/// a key, because it is ENFORCE. So the key is asked for as if it were PRESERVE.
#[derive(Clone, Copy)]
pub struct DropKeyDistinct;

// The places from a width down to 1.
fn all_places(alloc: Global, width: usize) -> Result<Vec<usize>, OutOfMemory>
    ensures { IfOk result (λ v. v.items ≡ places_to width) }
{
    let mut out = Vec::new(alloc);
    let mut k = width;
    while k > 0 {
        out.push(k)?;
        k -= 1;
    }
    Ok(out)
}

// Whether all columns of a select would hold a key if it were PRESERVE. No fact but a key hangs on
// DISTINCT, so the facts are those of the graph as it is.
fn is_keyed_preserve(
    alloc: Global,
    graph: &Graph,
    known: &mut Inference,
    node: &Node,
) -> Result<bool, OutOfMemory>
    requires select { is_select node.now.parts.kind ≡ true }
    requires known { KeptOf known.old graph.now.boxes }
    ensures test { IfOk result (λ key. key ≡ spec.is_keyed_preserve graph.now node.now) }
    ensures known { KeptOf known.new graph.now.boxes }
{
    let columns = all_places(alloc, node.parts.head.len())?;
    let facts = known.take(alloc, graph)?;
    let keyed = facts.holds_key_preserved(alloc, graph, node.id, &columns)?;
    known.put(facts);
    Ok(keyed)
}

// Whether L1 may fire at a box.
fn may_drop_key_distinct(
    alloc: Global,
    graph: &Graph,
    known: &mut Inference,
    node: &Node,
) -> Result<bool, OutOfMemory>
    requires { KeptOf known.old graph.now.boxes }
    ensures known { KeptOf known.new graph.now.boxes }
    ensures test { IfOk result (λ passes. passes ≡ spec.may_drop_key_distinct graph.now node.now) }
{
    if !is_plain_select(node) || !node.parts.distinct.is_enforce() {
        return Ok(false);
    }
    is_keyed_preserve(alloc, graph, known, node)
}

// Whether it may fire at the box of a number.
fn may_at(
    alloc: Global,
    graph: &Graph,
    known: &mut Inference,
    b: BoxId,
) -> Result<bool, OutOfMemory>
    requires { KeptOf known.old graph.now.boxes }
    ensures known { KeptOf known.new graph.now.boxes }
    ensures test { IfOk result (λ passes. passes ≡ in_box (spec.may_drop_key_distinct graph.now) (box_of b graph.now)) }
{
    graph.each_number_once();
    match box_at(graph.nodes(), b) {
        Some(node) => may_drop_key_distinct(alloc, graph, known, node),
        None => Ok(false),
    }
}

// Does L1 at a place.
fn dropped(alloc: Global, graph: &mut Graph, place: Place) -> Result<(), OutOfMemory>
    requires formed { WellFormed graph.old }
    requires given { MayDropKeyDistinct place graph.old }
    ensures acts { OnOk result (DropsDistinct place graph.old graph.new) }
    ensures preserves { OnOk result (Preserves graph.old graph.new) }
    ensures err { OnErr result (graph.new ≡ graph.old) }
{
    graph.each_number_once();
    put_distinct(alloc, graph, place.at, Distinct::Preserve)
}

impl Rule for DropKeyDistinct {
    ghost pairs = { λ _. spec.drop_key_distinct_pairs };

    ghost may = { λ _. MayDropKeyDistinct };

    ghost act = { λ _. DropsDistinct };

    ghost name = { λ _. L1 };

    ghost exact = { λ _. drop_key_distinct_exact };

    fn id(&self) -> RuleId {
        RuleId::L1
    }

    #[tactic(auto, unfolding(crate::specs::DropKeyDistinct::drop_key_distinct_pairs))]
    fn places(
        &self,
        alloc: Global,
        graph: &Graph,
        known: &mut Inference,
        b: BoxId,
    ) -> Result<Vec<Place>, OutOfMemory> {
        let mut out = Vec::new(alloc);
        let passes = may_at(alloc, graph, known, b)?;
        add_if(&mut out, passes, b, 0, 0)?;
        Ok(out)
    }

    fn apply(&self, alloc: Global, graph: &mut Graph, place: Place) -> Result<(), OutOfMemory> {
        graph.each_number_once();
        dropped(alloc, graph, place)?;
        Ok(())
    }
}
