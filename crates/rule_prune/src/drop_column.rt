// N1.
ghost use Rattle.std.specs.Prelude.{◌≡◌};
ghost use Rattle.rule_api.specs.declared.rule_id.RuleId.TheVariants.{N1};
ghost use Rattle.rule_prune.specs.DropColumn.{DropsColumn, MayDropColumn, drop_column_pairs};
ghost use Rattle.rule_prune.specs.DropColumnExact.{drop_column_exact};

mod action;
mod cells;
mod condition;
mod named;

use crate::drop_column::action::pruned_column;
use crate::drop_column::condition::{may_drop, may_have};
use crate::drop_column::named::named_unless_all;
use qgm_core::{BoxId, Graph};
use qgm_props::Inference;
use rule_api::{Place, Rule, RuleId, add_if};
use rule_facts::box_at;
use shared_types::OutOfMemory;
use std::alloc::Global;

/// N1: a column that nobody names goes, and with it each E, A and S quantifier of its box that no node
/// names then.
#[derive(Clone, Copy)]
pub struct DropColumn;

impl Rule for DropColumn {
    ghost pairs = { λ _. drop_column_pairs };

    ghost may = { λ _. MayDropColumn };

    ghost act = { λ _. DropsColumn };

    ghost name = { λ _. N1 };

    ghost exact = { λ _. drop_column_exact };

    fn id(&self) -> RuleId {
        RuleId::N1
    }

    #[tactic(auto, using(crate::proofs::DropColumnActs::none_found, crate::proofs::DropColumnActs::none_left), unfolding(crate::specs::DropColumn::drop_column_pairs))]
    fn places(
        &self,
        alloc: Global,
        graph: &Graph,
        known: &mut Inference,
        b: BoxId,
    ) -> Result<Vec<Place>, OutOfMemory> {
        let mut out = Vec::new(alloc);
        let _facts = known;
        graph.each_number_once();
        let Some(node) = box_at(graph.nodes(), b) else {
            return Ok(out);
        };
        if !may_have(graph, node) {
            return Ok(out);
        }
        let Some(named) = named_unless_all(alloc, graph.nodes(), node)? else {
            return Ok(out);
        };
        for k in 0..node.parts.head.len() {
            let passes = may_drop(alloc, graph, &named, node, k + 1)?;
            add_if(&mut out, passes, b, k + 1, 0)?;
        }
        Ok(out)
    }

    fn apply(&self, alloc: Global, graph: &mut Graph, place: Place) -> Result<(), OutOfMemory> {
        graph.each_number_once();
        let after = pruned_column(alloc, graph, place.at, place.i)?;
        *graph = after;
        Ok(())
    }
}
