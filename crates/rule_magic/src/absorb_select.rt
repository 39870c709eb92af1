// G2.
ghost use Rattle.std.specs.Prelude.{◌≡◌, IfOk};
ghost use Rattle.qgm_props.specs.Laws.{KeptOf};
ghost use Rattle.qgm_wellformed.specs.Sentences.{WellFormed};
ghost use Rattle.rule_api.specs.Rules.{Preserves};
ghost use Rattle.rule_api.specs.declared.rule_id.RuleId.TheVariants.{G2};
ghost use Rattle.rule_magic.specs.AbsorbSelect.{AbsorbsSelect, MayAbsorbSelect, absorb_select_pairs, may_absorb_select};
ghost use Rattle.rule_magic.specs.AbsorbSelectExact.{absorb_select_exact};
ghost use Rattle.rule_magic.specs.Feeding.{feeding, of_feeding};

mod action;

use crate::absorb_select::action::absorbed;
use crate::fed::{fed_at, is_ready};
use qgm_core::{BoxId, Graph};
use qgm_props::Inference;
use rule_api::{Place, Rule, RuleId, add_if};
use shared_types::OutOfMemory;
use std::alloc::Global;

/// G2: a select under a fed box takes the magic box as its first quantifier, and its columns as its
/// first cells, and stands in the place of the fed box (Seshadri, Pirahesh and Leung 1996, 4).
#[derive(Clone, Copy)]
pub struct AbsorbSelect;

// Whether G2 has a place at the box of a number.
fn may_at(
    alloc: Global,
    graph: &Graph,
    known: &mut Inference,
    b: BoxId,
) -> Result<bool, OutOfMemory>
    requires { KeptOf known.old graph.now.boxes }
    ensures known { KeptOf known.new graph.now.boxes }
    ensures test { IfOk result (λ passes. passes ≡ of_feeding (may_absorb_select graph.now) (feeding graph.now b)) }
{
    let Some(fed) = fed_at(graph, b) else {
        return Ok(false);
    };
    if !(fed.c.parts.kind.is_select() && fed.c.parts.role.is_plain()) {
        return Ok(false);
    }
    is_ready(alloc, graph, known, &fed)
}

// The graph after G2 at a place.
fn absorbed_at(alloc: Global, graph: &Graph, place: Place) -> Result<Graph, OutOfMemory>
    requires formed { WellFormed graph.now }
    requires given { MayAbsorbSelect place graph.now }
    ensures acts { IfOk result (λ h. AbsorbsSelect place graph.now h) }
    ensures preserves { IfOk result (λ h. Preserves graph.now h) }
{
    graph.each_number_once();
    let Some(fed) = fed_at(graph, place.at) else {
        unreachable!()
    };
    absorbed(alloc, graph, &fed)
}

impl Rule for AbsorbSelect {
    ghost pairs = { λ _. absorb_select_pairs };

    ghost may = { λ _. MayAbsorbSelect };

    ghost act = { λ _. AbsorbsSelect };

    ghost name = { λ _. G2 };

    ghost exact = { λ _. absorb_select_exact };

    fn id(&self) -> RuleId {
        RuleId::G2
    }

    #[tactic(auto, unfolding(crate::specs::AbsorbSelect::absorb_select_pairs))]
    fn places(
        &self,
        alloc: Global,
        graph: &Graph,
        known: &mut Inference,
        b: BoxId,
    ) -> Result<Vec<Place>, OutOfMemory> {
        let mut out = Vec::new(alloc);
        let passes = may_at(alloc, graph, known, b)?;
        add_if(&mut out, passes, b, 0, 0)?;
        Ok(out)
    }

    fn apply(&self, alloc: Global, graph: &mut Graph, place: Place) -> Result<(), OutOfMemory> {
        graph.each_number_once();
        let after = absorbed_at(alloc, graph, place)?;
        *graph = after;
        Ok(())
    }
}
