// U1.
ghost use Rattle.std.specs.Prelude.{IfOk};
ghost use Rattle.rule_api.specs.declared.rule_id.RuleId.TheVariants.{U1};
ghost use Rattle.rule_subquery.specs.ExistsToJoin.{JoinsExists, MayExistsToJoin, exists_to_join_pairs};
ghost use Rattle.rule_subquery.specs.ExistsToJoinExact.{exists_to_join_exact};
ghost use Rattle.rule_subquery.specs.ExistsToJoinSteps.{ExistsPlansAt};

mod action;
mod condition;
mod conjunct;

use crate::exists_to_join::action::{ExistsPlan, join, plan};
use crate::exists_to_join::condition::{any_joinable, each_fits, may_join};
use crate::parts::{GraphFacts, quant_at};
use qgm_core::{BoxId, Graph};
use qgm_props::Inference;
use rule_api::{Place, Rule, RuleId, add_if};
use rule_facts::box_at;
use shared_types::OutOfMemory;
use std::alloc::Global;

/// U1: EXISTS becomes a join: an E quantifier whose only node is a whole conjunct becomes an F, where
/// repeated rows do no harm, can't come, or are told by a key (Pirahesh, Hellerstein and Hasan 1992, 3).
#[derive(Clone, Copy)]
pub struct ExistsToJoin;

// What U1 does at a place.
fn plan_at(alloc: Global, graph: &Graph, place: Place) -> Result<ExistsPlan, OutOfMemory>
    requires { MayExistsToJoin place graph.now }
    ensures { IfOk result (λ m. ExistsPlansAt place graph.now m) }
{
    graph.each_number_once();
    let Some(b) = box_at(graph.nodes(), place.at) else {
        unreachable!()
    };
    let r = quant_at(graph, place.at, place.i);
    plan(alloc, graph, b, r)
}

impl Rule for ExistsToJoin {
    ghost pairs = { λ _. exists_to_join_pairs };

    ghost may = { λ _. MayExistsToJoin };

    ghost act = { λ _. JoinsExists };

    ghost name = { λ _. U1 };

    ghost exact = { λ _. exists_to_join_exact };

    fn id(&self) -> RuleId {
        RuleId::U1
    }

    #[tactic(auto, using(crate::proofs::ExistsToJoinActs::none_found), unfolding(crate::specs::ExistsToJoin::exists_to_join_pairs))]
    fn places(
        &self,
        alloc: Global,
        graph: &Graph,
        known: &mut Inference,
        b: BoxId,
    ) -> Result<Vec<Place>, OutOfMemory> {
        let mut out = Vec::new(alloc);
        graph.each_number_once();
        let Some(node) = box_at(graph.nodes(), b) else {
            return Ok(out);
        };
        if !any_joinable(node) {
            return Ok(out);
        }
        let facts = known.take(alloc, graph)?;
        let told = GraphFacts {
            graph,
            props: &facts,
        };
        let each = each_fits(alloc, &told, node)?;
        let list = node.quants.as_slice();
        for k in 0..list.len() {
            let passes = may_join(&told, node, each, list[k]);
            add_if(&mut out, passes, b, k + 1, 0)?;
        }
        known.put(facts);
        Ok(out)
    }

    fn apply(&self, alloc: Global, graph: &mut Graph, place: Place) -> Result<(), OutOfMemory> {
        graph.each_number_once();
        let m = plan_at(alloc, graph, place)?;
        join(alloc, graph, m)?;
        Ok(())
    }
}
