// The candidate that fires, found without those behind it where the order lets it.
ghost use Rattle.std.specs.Prelude.{◌≡◌, IfOk, map, slice_get};
ghost use Rattle.qgm_core.specs.Boxes.{HasBox};
ghost use Rattle.qgm_wellformed.specs.Sentences.{WellFormed};
ghost use Rattle.qgm_props.specs.Laws.{KeptOf};
ghost use Rattle.rule_api.specs.Rules.{place_at};
ghost use Rattle.rule_engine.specs.Control as spec;

use crate::choice::{earliest, next};
use crate::control::{add_box, candidates, enabled_rules};
use crate::rules::Rules;
use qgm_core::{BoxId, Graph};
use qgm_props::Inference;
use rule_api::{Firing, RuleId};
use rule_plan::{Order, Plan};
use shared_types::OutOfMemory;
use std::alloc::Global;

// The first place of a rule at a box.
fn first_of_rule<T: Rules>(
    alloc: Global,
    table: &T,
    graph: &Graph,
    known: &mut Inference,
    rule: RuleId,
    b: BoxId,
) -> Result<Option<Firing>, OutOfMemory>
    requires formed { WellFormed graph.now }
    requires held { HasBox b graph.now }
    requires known { KeptOf known.old graph.now.boxes }
    ensures found { IfOk result (λ f. f ≡ slice_get (map (spec.firing rule) (map (place_at b) (T.pairs table.now rule graph.now b))) 0) }
    ensures known { KeptOf known.new graph.now.boxes }
{
    let places = table.places(alloc, rule, graph, known, b)?;
    let Some(place) = places.first() else {
        return Ok(None);
    };
    Ok(Some(Firing {
        rule,
        place: *place,
    }))
}

// The first place of these rules at a box.
fn first_at_box<T: Rules>(
    alloc: Global,
    table: &T,
    graph: &Graph,
    known: &mut Inference,
    rules: &[RuleId],
    b: BoxId,
) -> Result<Option<Firing>, OutOfMemory>
    requires formed { WellFormed graph.now }
    requires held { HasBox b graph.now }
    requires known { KeptOf known.old graph.now.boxes }
    ensures found { IfOk result (λ f. f ≡ slice_get (spec.at_box (T.pairs table.now) rules.now graph.now b) 0) }
    ensures known { KeptOf known.new graph.now.boxes }
{
    for rule in rules {
        let found = first_of_rule(alloc, table, graph, known, *rule, b)?;
        if found.is_some() {
            return Ok(found);
        }
    }
    Ok(None)
}

// The first candidate.
#[tactic(auto, unfolding(crate::specs::Control::candidates))]
fn first_candidate<T: Rules>(
    alloc: Global,
    table: &T,
    graph: &Graph,
    plan: &Plan,
) -> Result<Option<Firing>, OutOfMemory>
    requires { WellFormed graph.now }
    ensures { IfOk result (λ f. f ≡ slice_get (spec.candidates (T.pairs table.now) plan.now graph.now) 0) }
{
    let rules = enabled_rules(alloc, plan.classes.as_slice())?;
    let boxes = graph.walk(alloc, plan.walk)?;
    let mut known = Inference::new();
    for b in &boxes {
        let found = first_at_box(alloc, table, graph, &mut known, &rules, *b)?;
        if found.is_some() {
            return Ok(found);
        }
    }
    Ok(None)
}

// Whether no rule of these ranks before that of a candidate.
fn is_foremost(rules: &[RuleId], f: Firing) -> bool
    ensures { result ≡ spec.is_foremost rules.now f }
{
    rules.iter().all(|r| f.rule.rank() <= r.rank())
}

// Whether one is found, and no rule of these ranks before its own.
fn ranks_first(rules: &[RuleId], found: Option<Firing>) -> bool
    ensures { result ≡ spec.ranks_first rules.now found }
{
    match found {
        Some(f) => is_foremost(rules, f),
        None => false,
    }
}

// The first of the candidates whose rule ranks first.
#[tactic(auto, unfolding(crate::specs::Control::candidates))]
fn earliest_candidate<T: Rules>(
    alloc: Global,
    table: &T,
    graph: &Graph,
    plan: &Plan,
) -> Result<Option<Firing>, OutOfMemory>
    requires { WellFormed graph.now }
    ensures { IfOk result (λ f. f ≡ spec.earliest (spec.candidates (T.pairs table.now) plan.now graph.now)) }
{
    let rules = enabled_rules(alloc, plan.classes.as_slice())?;
    let boxes = graph.walk(alloc, plan.walk)?;
    let mut known = Inference::new();
    let mut out = Vec::new(alloc);
    for b in &boxes {
        add_box(alloc, table, graph, &mut known, &rules, *b, &mut out)?;
        let found = earliest(&out);
        if ranks_first(&rules, found) {
            return Ok(found);
        }
    }
    Ok(earliest(&out))
}

/// Which of the candidates fires, `count` having fired before. It fails where there is no memory.
#[tactic(auto, unfolding(crate::specs::Control::next))]
pub fn chosen<T: Rules>(
    alloc: Global,
    table: &T,
    graph: &Graph,
    plan: &Plan,
    count: u64,
) -> Result<Option<Firing>, OutOfMemory>
    requires { WellFormed graph.now }
    ensures { IfOk result (λ f. f ≡ spec.next plan.now (spec.candidates (T.pairs table.now) plan.now graph.now) count) }
{
    match plan.order {
        Order::Sequence => first_candidate(alloc, table, graph, plan),
        Order::Priority => earliest_candidate(alloc, table, graph, plan),
        Order::Scatter => {
            let list = candidates(alloc, table, graph, plan)?;
            Ok(next(plan, &list, count))
        }
    }
}
