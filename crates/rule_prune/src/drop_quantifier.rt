// N2.
ghost use Rattle.std.specs.Prelude.{◌≡◌};
ghost use Rattle.rule_api.specs.declared.rule_id.RuleId.TheVariants.{N2};
ghost use Rattle.rule_prune.specs.DropQuantifier.{DropsQuantifier, GoesAt, MayDropQuantifier, drop_quantifier_pairs};
ghost use Rattle.rule_prune.specs.DropQuantifierExact.{drop_quantifier_exact};

mod action;
mod condition;

use crate::drop_quantifier::action::prune_quant;
use crate::drop_quantifier::condition::{may_drop, may_have};
use qgm_core::{BoxId, Graph, QuantId};
use qgm_props::Inference;
use rule_api::{Place, Rule, RuleId, add_if};
use rule_facts::box_at;
use shared_types::OutOfMemory;
use std::alloc::Global;

/// N2: a quantifier over exactly one row, which nothing reads, goes: the join with one row is no join.
#[derive(Clone, Copy)]
pub struct DropQuantifier;

// The quantifier that goes at a place.
fn quant_of(graph: &Graph, place: Place) -> QuantId
    requires { MayDropQuantifier place graph.now }
    ensures { GoesAt place graph.now result }
{
    graph.each_number_once();
    let Some(b) = box_at(graph.nodes(), place.at) else {
        unreachable!()
    };
    b.quants.as_slice()[place.i - 1].id
}

impl Rule for DropQuantifier {
    ghost pairs = { λ _. drop_quantifier_pairs };

    ghost may = { λ _. MayDropQuantifier };

    ghost act = { λ _. DropsQuantifier };

    ghost name = { λ _. N2 };

    ghost exact = { λ _. drop_quantifier_exact };

    fn id(&self) -> RuleId {
        RuleId::N2
    }

    #[tactic(auto, using(crate::proofs::DropQuantifierActs::none_found), unfolding(crate::specs::DropQuantifier::drop_quantifier_pairs))]
    fn places(
        &self,
        alloc: Global,
        graph: &Graph,
        known: &mut Inference,
        b: BoxId,
    ) -> Result<Vec<Place>, OutOfMemory> {
        let mut out = Vec::new(alloc);
        graph.each_number_once();
        let Some(node) = box_at(graph.nodes(), b) else {
            return Ok(out);
        };
        if !may_have(node) {
            return Ok(out);
        }
        let facts = known.take(alloc, graph)?;
        let list = node.quants.as_slice();
        for k in 0..list.len() {
            let passes = may_drop(alloc, graph, &facts, node, list[k])?;
            add_if(&mut out, passes, b, k + 1, 0)?;
        }
        known.put(facts);
        Ok(out)
    }

    fn apply(&self, alloc: Global, graph: &mut Graph, place: Place) -> Result<(), OutOfMemory> {
        graph.each_number_once();
        let q = quant_of(graph, place);
        prune_quant(alloc, graph, q)?;
        Ok(())
    }
}
