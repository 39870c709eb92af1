// M2.
ghost use Rattle.std.specs.Prelude.{◌≡◌, OnErr, OnOk, true};
ghost use Rattle.qgm_wellformed.specs.Sentences.{WellFormed};
ghost use Rattle.rule_api.specs.Rules.{Preserves};
ghost use Rattle.rule_api.specs.declared.rule_id.RuleId.TheVariants.{M2};
ghost use Rattle.rule_merge.specs.DropCopy as spec;
ghost use Rattle.rule_merge.specs.DropCopy.{DropsCopy, MayDropCopy, drop_copy_pairs};
ghost use Rattle.rule_merge.specs.DropCopyExact.{drop_copy_exact};

mod action;
mod condition;

use crate::drop_copy::action::moved;
use crate::drop_copy::condition::may_go;
use qgm_core::{BoxId, Graph};
use qgm_props::Inference;
use rule_api::{Place, Rule, RuleId, add_if};
use shared_types::OutOfMemory;
use std::alloc::Global;

/// M2: a plain select that gives what the box under its one quantifier gives goes, and quantifiers
/// over it range over that box (Pirahesh, Hellerstein and Hasan 1992, 3.2).
#[derive(Clone, Copy)]
pub struct DropCopy;

// Does M2 at a place.
fn dropped(alloc: Global, graph: &mut Graph, place: Place) -> Result<(), OutOfMemory>
    requires formed { WellFormed graph.old }
    requires given { spec.may_go graph.old place.at ≡ true }
    ensures acts { OnOk result (DropsCopy place graph.old graph.new) }
    ensures preserves { OnOk result (Preserves graph.old graph.new) }
    ensures err { OnErr result (graph.new ≡ graph.old) }
{
    graph.each_number_once();
    let quant = graph.quant_at(place.at, 1);
    moved(alloc, graph, place.at, quant.over)?;
    Ok(())
}

impl Rule for DropCopy {
    ghost pairs = { λ _. drop_copy_pairs };

    ghost may = { λ _. MayDropCopy };

    ghost act = { λ _. DropsCopy };

    ghost name = { λ _. M2 };

    ghost exact = { λ _. drop_copy_exact };

    fn id(&self) -> RuleId {
        RuleId::M2
    }

    #[tactic(auto, unfolding(crate::specs::DropCopy::drop_copy_pairs))]
    fn places(
        &self,
        alloc: Global,
        graph: &Graph,
        known: &mut Inference,
        b: BoxId,
    ) -> Result<Vec<Place>, OutOfMemory> {
        let mut out = Vec::new(alloc);
        let _facts = known;
        let passes = may_go(alloc, graph, b)?;
        add_if(&mut out, passes, b, 0, 0)?;
        Ok(out)
    }

    fn apply(&self, alloc: Global, graph: &mut Graph, place: Place) -> Result<(), OutOfMemory> {
        dropped(alloc, graph, place)?;
        Ok(())
    }
}
