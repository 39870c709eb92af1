// G5.
ghost use Rattle.std.specs.Prelude.{◌≡◌, IfOk};
ghost use Rattle.qgm_props.specs.Laws.{KeptOf};
ghost use Rattle.qgm_wellformed.specs.Sentences.{WellFormed};
ghost use Rattle.rule_api.specs.Rules.{Preserves};
ghost use Rattle.rule_api.specs.declared.rule_id.RuleId.TheVariants.{G5};
ghost use Rattle.rule_magic.specs.AbsorbOuterJoin.{AbsorbsOuter, MayAbsorbOuter, absorb_outer_pairs, is_outer, may_absorb_outer};
ghost use Rattle.rule_magic.specs.AbsorbOuterExact.{absorb_outer_exact};
ghost use Rattle.rule_magic.specs.Feeding.{feeding, of_feeding};

mod action;
mod cells;

use crate::absorb_outer::action::{arms_outer, left_outer};
use crate::fed::{fed_at, is_ready, is_small};
use crate::operands::operands_of;
use qgm_core::{BoxId, BoxKind, Graph};
use qgm_props::Inference;
use rule_api::{Place, Rule, RuleId, add_if};
use rule_facts::is_closed;
use shared_types::OutOfMemory;
use std::alloc::Global;

/// G5: an outer join under a fed box stands in its place, over a select of the magic box and its left
/// operand, and one of the magic box and its right operand where that is open, joined on the columns of
/// the magic box too (Seshadri, Pirahesh and Leung 1996, 4).
#[derive(Clone, Copy)]
pub struct AbsorbOuterJoin;

fn is_outer(kind: &BoxKind) -> bool
    ensures { result ≡ is_outer kind.now }
{
    match kind {
        BoxKind::OuterJoin => true,
        BoxKind::Base(_) | BoxKind::Select | BoxKind::Group(_) | BoxKind::SetOp(_, _) => false,
    }
}

// Whether G5 has a place at the box of a number.
fn may_at(
    alloc: Global,
    graph: &Graph,
    known: &mut Inference,
    b: BoxId,
) -> Result<bool, OutOfMemory>
    requires { KeptOf known.old graph.now.boxes }
    ensures known { KeptOf known.new graph.now.boxes }
    ensures test { IfOk result (λ passes. passes ≡ of_feeding (may_absorb_outer graph.now) (feeding graph.now b)) }
{
    let Some(fed) = fed_at(graph, b) else {
        return Ok(false);
    };
    if !(is_outer(&fed.c.parts.kind) && is_small(graph)) {
        return Ok(false);
    }
    is_ready(alloc, graph, known, &fed)
}

// The graph after G5 at a place.
fn absorbed_at(alloc: Global, graph: &Graph, place: Place) -> Result<Graph, OutOfMemory>
    requires formed { WellFormed graph.now }
    requires given { MayAbsorbOuter place graph.now }
    ensures acts { IfOk result (λ h. AbsorbsOuter place graph.now h) }
    ensures preserves { IfOk result (λ h. Preserves graph.now h) }
{
    graph.each_number_once();
    let Some(fed) = fed_at(graph, place.at) else {
        unreachable!()
    };
    let Some(operands) = operands_of(graph, fed.c) else {
        unreachable!()
    };
    let closed = is_closed(alloc, graph, operands.y.id)?;
    if closed {
        left_outer(alloc, graph, &fed, &operands)
    } else {
        arms_outer(alloc, graph, &fed, &operands)
    }
}

impl Rule for AbsorbOuterJoin {
    ghost pairs = { λ _. absorb_outer_pairs };

    ghost may = { λ _. MayAbsorbOuter };

    ghost act = { λ _. AbsorbsOuter };

    ghost name = { λ _. G5 };

    ghost exact = { λ _. absorb_outer_exact };

    fn id(&self) -> RuleId {
        RuleId::G5
    }

    #[tactic(auto, unfolding(crate::specs::AbsorbOuterJoin::absorb_outer_pairs))]
    fn places(
        &self,
        alloc: Global,
        graph: &Graph,
        known: &mut Inference,
        b: BoxId,
    ) -> Result<Vec<Place>, OutOfMemory> {
        let mut out = Vec::new(alloc);
        let passes = may_at(alloc, graph, known, b)?;
        add_if(&mut out, passes, b, 0, 0)?;
        Ok(out)
    }

    fn apply(&self, alloc: Global, graph: &mut Graph, place: Place) -> Result<(), OutOfMemory> {
        graph.each_number_once();
        let after = absorbed_at(alloc, graph, place)?;
        *graph = after;
        Ok(())
    }
}
