// M1.
ghost use Rattle.std.specs.Prelude.{◌≡◌, IfOk};
ghost use Rattle.qgm_wellformed.specs.Sentences.{WellFormed};
ghost use Rattle.rule_api.specs.declared.rule_id.RuleId.TheVariants.{M1};
ghost use Rattle.rule_merge.specs.MergeSelect.{MayMergeSelect, MergesSelect, merge_select_pairs};
ghost use Rattle.rule_merge.specs.MergeSelectExact.{PassesMerge, PlansAt, merge_select_exact};

mod action;
mod condition;
mod copies;
mod foreign;
mod lookups;
mod names;

use crate::merge_select::action::{MergePlan, merge, plan};
use crate::merge_select::condition::{may_at, may_fit, may_have};
use crate::merge_select::lookups::lookups_of;
use qgm_core::{BoxId, Graph};
use qgm_props::Inference;
use rule_api::{Place, Rule, RuleId, add_if};
use rule_facts::box_at;
use shared_types::OutOfMemory;
use std::alloc::Global;

/// M1: a plain select under an F quantifier of a select is merged into it, where it is PRESERVE, or
/// the upper one is ENFORCE, or the upper one is PERMIT and both are inferred to be clean, the lower
/// one without DISTINCT (Pirahesh, Hellerstein and Hasan 1992, 3.1).
#[derive(Clone, Copy)]
pub struct MergeSelect;

// What M1 does at a place.
fn plan_at(alloc: Global, graph: &Graph, place: Place) -> Result<MergePlan, OutOfMemory>
    requires formed { WellFormed graph.now }
    requires given { PassesMerge graph.now place.at place.i }
    ensures { IfOk result (λ m. PlansAt graph.now place m) }
{
    graph.each_number_once();
    let Some(b) = box_at(graph.nodes(), place.at) else {
        unreachable!()
    };
    let r = b.quants.as_slice()[place.i - 1];
    let Some(c) = box_at(graph.nodes(), r.over) else {
        unreachable!()
    };
    let steps = plan(alloc, graph, b, place.i, r, c)?;
    Ok(steps)
}

impl Rule for MergeSelect {
    ghost pairs = { λ _. merge_select_pairs };

    ghost may = { λ _. MayMergeSelect };

    ghost act = { λ _. MergesSelect };

    ghost name = { λ _. M1 };

    ghost exact = { λ _. merge_select_exact };

    fn id(&self) -> RuleId {
        RuleId::M1
    }

    #[tactic(auto, using(crate::proofs::MergeSelectBases::none_found, crate::proofs::MergeSelectBases::none_under), unfolding(crate::specs::MergeSelect::merge_select_pairs))]
    fn places(
        &self,
        alloc: Global,
        graph: &Graph,
        known: &mut Inference,
        b: BoxId,
    ) -> Result<Vec<Place>, OutOfMemory> {
        let mut out = Vec::new(alloc);
        let _facts = known;
        graph.each_number_once();
        let Some(node) = box_at(graph.nodes(), b) else {
            return Ok(out);
        };
        let list = node.quants.as_slice();
        if !may_have(node) || !may_fit(graph.nodes(), list) {
            return Ok(out);
        }
        let lookups = lookups_of(alloc, graph, list)?;
        let mut names = None;
        for k in 0..list.len() {
            let passes = may_at(alloc, &lookups, &mut names, node, k + 1, list[k])?;
            add_if(&mut out, passes, b, k + 1, 0)?;
        }
        Ok(out)
    }

    fn apply(&self, alloc: Global, graph: &mut Graph, place: Place) -> Result<(), OutOfMemory> {
        graph.each_number_once();
        let steps = plan_at(alloc, graph, place)?;
        merge(alloc, graph, steps)?;
        Ok(())
    }
}
