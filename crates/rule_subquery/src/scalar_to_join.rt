// U3.
ghost use Rattle.std.specs.Prelude.{IfOk};
ghost use Rattle.rule_api.specs.declared.rule_id.RuleId.TheVariants.{U3};
ghost use Rattle.rule_subquery.specs.ScalarToJoin.{JoinsScalar, MayScalarToJoin, scalar_to_join_pairs};
ghost use Rattle.rule_subquery.specs.ScalarToJoinExact.{scalar_to_join_exact};
ghost use Rattle.rule_subquery.specs.ScalarToJoinSteps.{ScalarPlansAt};

mod action;
mod condition;

use crate::parts::{GraphFacts, quant_at};
use crate::scalar_to_join::action::{ScalarPlan, join, plan};
use crate::scalar_to_join::condition::{may_have, may_join};
use qgm_core::{BoxId, Graph};
use qgm_props::Inference;
use rule_api::{Place, Rule, RuleId, add_if};
use rule_facts::box_at;
use shared_types::OutOfMemory;
use std::alloc::Global;

/// U3: a scalar subquery of exactly one row becomes a join: its S quantifier becomes an F, and its value
/// is the first column (Pirahesh, Hellerstein and Hasan 1992, 3).
#[derive(Clone, Copy)]
pub struct ScalarToJoin;

// What U3 does at a place.
fn plan_at(alloc: Global, graph: &Graph, place: Place) -> Result<ScalarPlan, OutOfMemory>
    requires { MayScalarToJoin place graph.now }
    ensures { IfOk result (λ m. ScalarPlansAt place graph.now m) }
{
    graph.each_number_once();
    let Some(b) = box_at(graph.nodes(), place.at) else {
        unreachable!()
    };
    let r = quant_at(graph, place.at, place.i);
    plan(alloc, b, r)
}

impl Rule for ScalarToJoin {
    ghost pairs = { λ _. scalar_to_join_pairs };

    ghost may = { λ _. MayScalarToJoin };

    ghost act = { λ _. JoinsScalar };

    ghost name = { λ _. U3 };

    ghost exact = { λ _. scalar_to_join_exact };

    fn id(&self) -> RuleId {
        RuleId::U3
    }

    #[tactic(auto, using(crate::proofs::ScalarToJoinActs::none_found), unfolding(crate::specs::ScalarToJoin::scalar_to_join_pairs))]
    fn places(
        &self,
        alloc: Global,
        graph: &Graph,
        known: &mut Inference,
        b: BoxId,
    ) -> Result<Vec<Place>, OutOfMemory> {
        let mut out = Vec::new(alloc);
        graph.each_number_once();
        let Some(node) = box_at(graph.nodes(), b) else {
            return Ok(out);
        };
        if !may_have(node) {
            return Ok(out);
        }
        let facts = known.take(alloc, graph)?;
        let told = GraphFacts {
            graph,
            props: &facts,
        };
        let list = node.quants.as_slice();
        for k in 0..list.len() {
            let passes = may_join(&told, node, list[k]);
            add_if(&mut out, passes, b, k + 1, 0)?;
        }
        known.put(facts);
        Ok(out)
    }

    fn apply(&self, alloc: Global, graph: &mut Graph, place: Place) -> Result<(), OutOfMemory> {
        graph.each_number_once();
        let m = plan_at(alloc, graph, place)?;
        join(alloc, graph, m)?;
        Ok(())
    }
}
