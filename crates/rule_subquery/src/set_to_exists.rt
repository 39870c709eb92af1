// U4.
ghost use Rattle.std.specs.Prelude.{IfOk};
ghost use Rattle.rule_api.specs.declared.rule_id.RuleId.TheVariants.{U4};
ghost use Rattle.rule_subquery.specs.SetToExists.{MaySetToExists, SelectsSet, set_to_exists_pairs};
ghost use Rattle.rule_subquery.specs.SetToExistsExact.{set_to_exists_exact};
ghost use Rattle.rule_subquery.specs.SetToExistsSteps.{SetPlansAt};

mod action;
mod condition;

use crate::set_to_exists::action::{SetPlan, plan, select};
use crate::set_to_exists::condition::may_at;
use qgm_core::{BoxId, BoxKind, Graph};
use qgm_props::Inference;
use rule_api::{Place, Rule, RuleId, add_if};
use rule_facts::box_at;
use shared_types::OutOfMemory;
use std::alloc::Global;

/// U4: INTERSECT and EXCEPT without ALL become a select of distinct rows of the left operand, for which
/// some row of the right one is the same, or none is (Pirahesh, Hellerstein and Hasan 1992, 3).
#[derive(Clone, Copy)]
pub struct SetToExists;

// What U4 does at a place.
fn plan_at(alloc: Global, graph: &Graph, place: Place) -> Result<SetPlan, OutOfMemory>
    requires { MaySetToExists place graph.now }
    ensures { IfOk result (λ m. SetPlansAt place graph.now m) }
{
    graph.each_number_once();
    let Some(b) = box_at(graph.nodes(), place.at) else {
        unreachable!()
    };
    let BoxKind::SetOp(form, types) = &b.parts.kind else {
        unreachable!()
    };
    let [l, r] = b.quants.as_slice() else {
        unreachable!()
    };
    plan(alloc, b, *form, types.len(), *l, *r)
}

impl Rule for SetToExists {
    ghost pairs = { λ _. set_to_exists_pairs };

    ghost may = { λ _. MaySetToExists };

    ghost act = { λ _. SelectsSet };

    ghost name = { λ _. U4 };

    ghost exact = { λ _. set_to_exists_exact };

    fn id(&self) -> RuleId {
        RuleId::U4
    }

    #[tactic(auto, unfolding(crate::specs::SetToExists::set_to_exists_pairs))]
    fn places(
        &self,
        alloc: Global,
        graph: &Graph,
        known: &mut Inference,
        b: BoxId,
    ) -> Result<Vec<Place>, OutOfMemory> {
        let mut out = Vec::new(alloc);
        let passes = may_at(alloc, graph, known, b)?;
        add_if(&mut out, passes, b, 0, 0)?;
        Ok(out)
    }

    fn apply(&self, alloc: Global, graph: &mut Graph, place: Place) -> Result<(), OutOfMemory> {
        graph.each_number_once();
        let m = plan_at(alloc, graph, place)?;
        select(alloc, graph, m)?;
        Ok(())
    }
}
