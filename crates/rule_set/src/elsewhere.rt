// The rules for a graph whose rows another engine makes.
ghost use Rattle.std.specs.Prelude.{◌≡◌, ◌==◌, ◌&&◌, filter, not, IfOk};
ghost use Rattle.qgm_core.specs.Boxes.{quants_of};
ghost use Rattle.qgm_wellformed.specs.Sentences.{WellFormed};
ghost use Rattle.rule_set.specs.Built.{built_act};
ghost use Rattle.rule_set.specs.Elsewhere as spec;

use crate::built::BuiltRules;
use qgm_core::{BoxId, Graph, OwnedQuant, QuantKind};
use qgm_props::Inference;
use rule_api::{Place, RuleId};
use rule_engine::{Rules, Trace, rewrite};
use rule_facts::box_at;
use rule_plan::Plan;
use shared_types::OutOfMemory;
use std::alloc::Global;

// Whether one only asks of its rows whether some, or every one, meets a condition.
fn is_asked_kind(kind: QuantKind) -> bool
    ensures { result ≡ spec.is_asked_kind kind }
{
    kind.is_e() || kind.is_a()
}

// The same of a quantifier, and whether its place is 1.
fn is_asked_here(i: usize, kind: QuantKind) -> bool
    ensures { result ≡ ((i == 1) && spec.is_asked_kind kind) }
{
    i == 1 && is_asked_kind(kind)
}

// Whether it is so of the quantifier at a place, from 1.
fn is_asked(ranges: &[OwnedQuant], place: usize) -> bool
    ensures { result ≡ spec.is_asked ranges.now place }
{
    let mut i = place;
    for r in ranges {
        if is_asked_here(i, r.kind) {
            return true;
        }
        i = i.saturating_sub(1);
    }
    false
}

// Whether it is so of that at a place of a graph.
fn is_asked_at(graph: &Graph, place: Place) -> bool
    ensures { result ≡ spec.is_asked (quants_of place.at graph.now) place.i }
{
    graph.each_number_once();
    match box_at(graph.nodes(), place.at) {
        Some(node) => is_asked(node.quants.as_slice(), place.i),
        None => false,
    }
}

// Whether G1 would feed such a subquery at a place.
fn feeds_asked(rule: RuleId, graph: &Graph, place: Place) -> bool
    ensures { result ≡ spec.feeds_asked rule graph.now place }
{
    RuleId::G1.rank() == rule.rank() && is_asked_at(graph, place)
}

// The places but these.
fn others(
    alloc: Global,
    rule: RuleId,
    graph: &Graph,
    places: &[Place],
) -> Result<Vec<Place>, OutOfMemory>
    ensures { IfOk result (λ v. v.items ≡ filter (λ p. not (spec.feeds_asked rule graph.now p)) places.now) }
{
    let mut out = Vec::new(alloc);
    for place in places {
        if !feeds_asked(rule, graph, *place) {
            out.push(*place)?;
        }
    }
    Ok(out)
}

/// All 22 rules, but that G1 feeds no subquery of EXISTS, IN, ANY or ALL.
#[derive(Clone, Copy)]
pub struct ElsewhereRules;

impl Rules for ElsewhereRules {
    ghost pairs = { λ _. spec.elsewhere_pairs };

    ghost may = { λ _. spec.elsewhere_may };

    ghost act = { λ _. built_act };

    ghost exact = { λ _. spec.elsewhere_exact };

    fn places(
        &self,
        alloc: Global,
        rule: RuleId,
        graph: &Graph,
        known: &mut Inference,
        b: BoxId,
    ) -> Result<Vec<Place>, OutOfMemory> {
        let places = BuiltRules.places(alloc, rule, graph, known, b)?;
        others(alloc, rule, graph, &places)
    }

    fn apply(
        &self,
        alloc: Global,
        rule: RuleId,
        graph: &mut Graph,
        place: Place,
    ) -> Result<(), OutOfMemory> {
        BuiltRules.apply(alloc, rule, graph, place)
    }
}

/// Rewrites a graph whose rows another engine makes: by the rules that are built, but that G1 feeds no
/// subquery of EXISTS, IN, ANY or ALL. It says what fired, and fails where there is no memory.
pub fn rewrite_elsewhere(
    alloc: Global,
    graph: Graph,
    plan: &Plan,
) -> Result<(Graph, Trace), OutOfMemory>
    requires { WellFormed graph }
    ensures { IfOk result (λ r. spec.RewritesElsewhere plan.now graph r.1 r.0) }
{
    rewrite(alloc, &ElsewhereRules, graph, plan)
}
