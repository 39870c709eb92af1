// U2.
ghost use Rattle.std.specs.Prelude.{◌≡◌, OnErr, OnOk};
ghost use Rattle.qgm_wellformed.specs.Sentences.{WellFormed};
ghost use Rattle.rule_api.specs.Rules.{Preserves};
ghost use Rattle.rule_api.specs.declared.rule_id.RuleId.TheVariants.{U2};
ghost use Rattle.rule_subquery.specs.ScalarToGroup.{GroupsScalar, MayScalarToGroup, scalar_to_group_pairs};
ghost use Rattle.rule_subquery.specs.ScalarToGroupExact.{scalar_to_group_exact};

mod action;
mod condition;

use crate::parts::{GraphFacts, quant_at};
use crate::scalar_to_group::action::group;
use crate::scalar_to_group::condition::{may_group, may_have};
use qgm_core::{BoxId, Graph};
use qgm_props::Inference;
use rule_api::{Place, Rule, RuleId, add_if};
use rule_facts::box_at;
use shared_types::OutOfMemory;
use std::alloc::Global;

/// U2: a scalar subquery that may have no row, or several, ranges over a new group of exactly one row,
/// whose cell is null over no row, and an error over several (Pirahesh, Hellerstein and Hasan 1992, 3).
#[derive(Clone, Copy)]
pub struct ScalarToGroup;

// Does U2 at a place.
fn grouped(alloc: Global, graph: &mut Graph, place: Place) -> Result<(), OutOfMemory>
    requires formed { WellFormed graph.old }
    requires given { MayScalarToGroup place graph.old }
    ensures acts { OnOk result (GroupsScalar place graph.old graph.new) }
    ensures preserves { OnOk result (Preserves graph.old graph.new) }
    ensures err { OnErr result (graph.new ≡ graph.old) }
{
    graph.each_number_once();
    let r = quant_at(graph, place.at, place.i);
    group(alloc, graph, place.at, r)
}

impl Rule for ScalarToGroup {
    ghost pairs = { λ _. scalar_to_group_pairs };

    ghost may = { λ _. MayScalarToGroup };

    ghost act = { λ _. GroupsScalar };

    ghost name = { λ _. U2 };

    ghost exact = { λ _. scalar_to_group_exact };

    fn id(&self) -> RuleId {
        RuleId::U2
    }

    #[tactic(auto, using(crate::proofs::ScalarToGroupActs::none_found), unfolding(crate::specs::ScalarToGroup::scalar_to_group_pairs))]
    fn places(
        &self,
        alloc: Global,
        graph: &Graph,
        known: &mut Inference,
        b: BoxId,
    ) -> Result<Vec<Place>, OutOfMemory> {
        let mut out = Vec::new(alloc);
        graph.each_number_once();
        let Some(node) = box_at(graph.nodes(), b) else {
            return Ok(out);
        };
        if !may_have(graph, node) {
            return Ok(out);
        }
        let facts = known.take(alloc, graph)?;
        let told = GraphFacts {
            graph,
            props: &facts,
        };
        let list = node.quants.as_slice();
        for k in 0..list.len() {
            let passes = may_group(&told, node, list[k]);
            add_if(&mut out, passes, b, k + 1, 0)?;
        }
        known.put(facts);
        Ok(out)
    }

    fn apply(&self, alloc: Global, graph: &mut Graph, place: Place) -> Result<(), OutOfMemory> {
        grouped(alloc, graph, place)?;
        Ok(())
    }
}
