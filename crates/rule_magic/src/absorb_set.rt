// G4.
ghost use Rattle.std.specs.Prelude.{◌≡◌, IfOk};
ghost use Rattle.qgm_props.specs.Laws.{KeptOf};
ghost use Rattle.qgm_wellformed.specs.Sentences.{WellFormed};
ghost use Rattle.rule_api.specs.Rules.{Preserves};
ghost use Rattle.rule_api.specs.declared.rule_id.RuleId.TheVariants.{G4};
ghost use Rattle.rule_magic.specs.AbsorbSetOperation.{AbsorbsSet, MayAbsorbSet, absorb_set_pairs, collapses, form_passes, may_absorb_set, operator_of};
ghost use Rattle.rule_magic.specs.AbsorbSetOperationExact.{absorb_set_exact};
ghost use Rattle.rule_magic.specs.Feeding.{feeding, of_feeding};

pub mod action;
mod types;

use crate::absorb_set::action::absorbed;
use crate::fed::{fed_at, is_ready, is_small};
use crate::operands::operands_of;
use qgm_core::{BoxId, BoxKind, Graph, Node, SetOperator};
use qgm_props::Inference;
use rule_api::{Place, Rule, RuleId, add_if};
use rule_facts::infers_clean;
use shared_types::OutOfMemory;
use std::alloc::Global;

/// G4: a set operation under a fed box stands in its place, over selects of the magic box and its
/// operands, each fed where its operand is open (Seshadri, Pirahesh and Leung 1996, 4).
#[derive(Clone, Copy)]
pub struct AbsorbSetOperation;

// Whether an error among the rows of an operand is the operation's result.
fn collapses(form: SetOperator) -> bool
    ensures { result ≡ collapses form }
{
    match form {
        SetOperator::Union | SetOperator::UnionAll => false,
        SetOperator::Intersect
        | SetOperator::IntersectAll
        | SetOperator::Except
        | SetOperator::ExceptAll => true,
    }
}

// How a set operation puts rows together.
fn operator_of(kind: &BoxKind) -> Option<SetOperator>
    ensures { result ≡ operator_of kind.now }
{
    match kind {
        BoxKind::SetOp(form, _) => Some(*form),
        BoxKind::Base(_) | BoxKind::Select | BoxKind::Group(_) | BoxKind::OuterJoin => None,
    }
}

// Whether a box is a set operation that may be absorbed, as far as errors go.
fn form_passes(
    alloc: Global,
    graph: &Graph,
    known: &mut Inference,
    c: &Node,
) -> Result<bool, OutOfMemory>
    requires { KeptOf known.old graph.now.boxes }
    ensures known { KeptOf known.new graph.now.boxes }
    ensures test { IfOk result (λ passes. passes ≡ form_passes graph.now.boxes c.now.id (operator_of c.now.parts.kind)) }
{
    let Some(form) = operator_of(&c.parts.kind) else {
        return Ok(false);
    };
    if !collapses(form) {
        return Ok(true);
    }
    infers_clean(alloc, graph, known, c.id)
}

// Whether G4 has a place at the box of a number.
fn may_at(
    alloc: Global,
    graph: &Graph,
    known: &mut Inference,
    b: BoxId,
) -> Result<bool, OutOfMemory>
    requires { KeptOf known.old graph.now.boxes }
    ensures known { KeptOf known.new graph.now.boxes }
    ensures test { IfOk result (λ passes. passes ≡ of_feeding (may_absorb_set graph.now) (feeding graph.now b)) }
{
    let Some(fed) = fed_at(graph, b) else {
        return Ok(false);
    };
    if !is_small(graph) {
        return Ok(false);
    }
    if !form_passes(alloc, graph, known, fed.c)? {
        return Ok(false);
    }
    is_ready(alloc, graph, known, &fed)
}

// The graph after G4 at a place.
fn absorbed_at(alloc: Global, graph: &Graph, place: Place) -> Result<Graph, OutOfMemory>
    requires formed { WellFormed graph.now }
    requires given { MayAbsorbSet place graph.now }
    ensures acts { IfOk result (λ h. AbsorbsSet place graph.now h) }
    ensures preserves { IfOk result (λ h. Preserves graph.now h) }
{
    graph.each_number_once();
    let Some(fed) = fed_at(graph, place.at) else {
        unreachable!()
    };
    let Some(form) = operator_of(&fed.c.parts.kind) else {
        unreachable!()
    };
    let Some(operands) = operands_of(graph, fed.c) else {
        unreachable!()
    };
    absorbed(alloc, graph, &fed, form, &operands)
}

impl Rule for AbsorbSetOperation {
    ghost pairs = { λ _. absorb_set_pairs };

    ghost may = { λ _. MayAbsorbSet };

    ghost act = { λ _. AbsorbsSet };

    ghost name = { λ _. G4 };

    ghost exact = { λ _. absorb_set_exact };

    fn id(&self) -> RuleId {
        RuleId::G4
    }

    #[tactic(auto, unfolding(crate::specs::AbsorbSetOperation::absorb_set_pairs))]
    fn places(
        &self,
        alloc: Global,
        graph: &Graph,
        known: &mut Inference,
        b: BoxId,
    ) -> Result<Vec<Place>, OutOfMemory> {
        let mut out = Vec::new(alloc);
        let passes = may_at(alloc, graph, known, b)?;
        add_if(&mut out, passes, b, 0, 0)?;
        Ok(out)
    }

    fn apply(&self, alloc: Global, graph: &mut Graph, place: Place) -> Result<(), OutOfMemory> {
        graph.each_number_once();
        let after = absorbed_at(alloc, graph, place)?;
        *graph = after;
        Ok(())
    }
}
