// G3.
ghost use Rattle.std.specs.Prelude.{◌≡◌, IfOk};
ghost use Rattle.qgm_props.specs.Laws.{KeptOf};
ghost use Rattle.qgm_wellformed.specs.Sentences.{WellFormed};
ghost use Rattle.rule_api.specs.Rules.{Preserves};
ghost use Rattle.rule_api.specs.declared.rule_id.RuleId.TheVariants.{G3};
ghost use Rattle.rule_magic.specs.AbsorbGroup.{AbsorbsGroup, MayAbsorbGroup, absorb_group_pairs, is_group, may_absorb_group};
ghost use Rattle.rule_magic.specs.AbsorbGroupExact.{absorb_group_exact};
ghost use Rattle.rule_magic.specs.Feeding.{feeding, of_feeding};

mod counts;
mod grouped;
mod joined;
mod keyed;
mod keyless;

use crate::absorb_group::grouped::group_of;
use crate::absorb_group::keyed::keyed_group;
use crate::absorb_group::keyless::keyless_group;
use crate::fed::{fed_at, is_ready, is_small};
use qgm_core::{BoxId, BoxKind, Graph};
use qgm_props::Inference;
use rule_api::{Place, Rule, RuleId, add_if};
use rule_facts::infers_clean;
use shared_types::OutOfMemory;
use std::alloc::Global;

/// G3: a group under a fed box takes the columns of the magic box as its first keys, over the fed box,
/// which now stands over its input; without keys an outer join gives back the rows of the magic box for
/// which no row is grouped, with counts of 0 (Seshadri, Pirahesh and Leung 1996, 4).
#[derive(Clone, Copy)]
pub struct AbsorbGroup;

fn is_group(kind: &BoxKind) -> bool
    ensures { result ≡ is_group kind.now }
{
    match kind {
        BoxKind::Group(_) => true,
        BoxKind::Base(_) | BoxKind::Select | BoxKind::SetOp(_, _) | BoxKind::OuterJoin => false,
    }
}

// Whether G3 has a place at the box of a number.
fn may_at(
    alloc: Global,
    graph: &Graph,
    known: &mut Inference,
    b: BoxId,
) -> Result<bool, OutOfMemory>
    requires { KeptOf known.old graph.now.boxes }
    ensures known { KeptOf known.new graph.now.boxes }
    ensures test { IfOk result (λ passes. passes ≡ of_feeding (may_absorb_group graph.now) (feeding graph.now b)) }
{
    let Some(fed) = fed_at(graph, b) else {
        return Ok(false);
    };
    if !(is_group(&fed.c.parts.kind) && is_small(graph)) {
        return Ok(false);
    }
    if !infers_clean(alloc, graph, known, fed.c.id)? {
        return Ok(false);
    }
    is_ready(alloc, graph, known, &fed)
}

// The graph after G3 at a place.
fn absorbed_at(alloc: Global, graph: &Graph, place: Place) -> Result<Graph, OutOfMemory>
    requires formed { WellFormed graph.now }
    requires given { MayAbsorbGroup place graph.now }
    ensures acts { IfOk result (λ h. AbsorbsGroup place graph.now h) }
    ensures preserves { IfOk result (λ h. Preserves graph.now h) }
{
    graph.each_number_once();
    let Some(fed) = fed_at(graph, place.at) else {
        unreachable!()
    };
    let Some(group) = group_of(graph, fed.c) else {
        unreachable!()
    };
    if group.keys == 0 {
        keyless_group(alloc, graph, &fed, &group)
    } else {
        keyed_group(alloc, graph, &fed, &group)
    }
}

impl Rule for AbsorbGroup {
    ghost pairs = { λ _. absorb_group_pairs };

    ghost may = { λ _. MayAbsorbGroup };

    ghost act = { λ _. AbsorbsGroup };

    ghost name = { λ _. G3 };

    ghost exact = { λ _. absorb_group_exact };

    fn id(&self) -> RuleId {
        RuleId::G3
    }

    #[tactic(auto, unfolding(crate::specs::AbsorbGroup::absorb_group_pairs))]
    fn places(
        &self,
        alloc: Global,
        graph: &Graph,
        known: &mut Inference,
        b: BoxId,
    ) -> Result<Vec<Place>, OutOfMemory> {
        let mut out = Vec::new(alloc);
        let passes = may_at(alloc, graph, known, b)?;
        add_if(&mut out, passes, b, 0, 0)?;
        Ok(out)
    }

    fn apply(&self, alloc: Global, graph: &mut Graph, place: Place) -> Result<(), OutOfMemory> {
        graph.each_number_once();
        let after = absorbed_at(alloc, graph, place)?;
        *graph = after;
        Ok(())
    }
}
