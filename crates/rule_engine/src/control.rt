// The candidates, in order.
ghost use Rattle.std.specs.Prelude.{◌≡◌, ◌++◌, IfOk, OnOk, filter, map};
ghost use Rattle.std.specs.List.{list_any};
ghost use Rattle.qgm_core.specs.Boxes.{HasBox};
ghost use Rattle.qgm_wellformed.specs.Sentences.{WellFormed};
ghost use Rattle.qgm_props.specs.Laws.{KeptOf};
ghost use Rattle.rule_api.specs.Rules.{place_at};
ghost use Rattle.rule_api.specs.RuleIds.{is_of, is_rule};
ghost use Rattle.rule_engine.specs.Control.{rules_of};
ghost use Rattle.rule_engine.specs.Control as spec;

use crate::rules::Rules;
use qgm_core::{BoxId, Graph};
use qgm_props::Inference;
use rule_api::{Firing, RuleId};
use rule_plan::{Class, Plan};
use shared_types::OutOfMemory;
use std::alloc::Global;

fn has_rule(out: &[RuleId], rule: RuleId) -> bool
    ensures { result ≡ list_any (is_rule rule) out.now }
{
    out.iter().any(|r| r.rank() == rule.rank())
}

// Adds a rule at the end, if it isn't there.
fn add_new(out: &mut Vec<RuleId>, rule: RuleId) -> Result<(), OutOfMemory>
    ensures { OnOk result (out.new.items ≡ spec.with_new out.old.items rule) }
{
    if !has_rule(out, rule) {
        out.push(rule)?;
    }
    Ok(())
}

// Adds those of these that are of a class and aren't there.
fn add_of(out: &mut Vec<RuleId>, rules: &[RuleId], class: Class) -> Result<(), OutOfMemory>
    ensures { OnOk result (out.new.items ≡ spec.all_new out.old.items (filter (is_of class) rules.now)) }
{
    for rule in rules {
        if rule.is_of(class) {
            add_new(out, *rule)?;
        }
    }
    Ok(())
}

#[tactic(auto, unfolding(crate::specs::Control::rules_of))]
fn add_class(out: &mut Vec<RuleId>, class: Class) -> Result<(), OutOfMemory>
    ensures { OnOk result (out.new.items ≡ spec.all_new out.old.items (rules_of class)) }
{
    add_of(out, &RuleId::all(), class)
}

// The rules of these classes.
pub fn enabled_rules(alloc: Global, classes: &[Class]) -> Result<Vec<RuleId>, OutOfMemory>
    ensures { IfOk result (λ v. v.items ≡ spec.enabled classes.now) }
{
    let mut out = Vec::new(alloc);
    for class in classes {
        add_class(&mut out, *class)?;
    }
    Ok(out)
}

// Adds the places of a rule at a box.
fn add_rule<T: Rules>(
    alloc: Global,
    table: &T,
    graph: &Graph,
    known: &mut Inference,
    rule: RuleId,
    b: BoxId,
    out: &mut Vec<Firing>,
) -> Result<(), OutOfMemory>
    requires formed { WellFormed graph.now }
    requires held { HasBox b graph.now }
    requires known { KeptOf known.old graph.now.boxes }
    ensures found { OnOk result (out.new.items ≡ out.old.items ++ map (spec.firing rule) (map (place_at b) (T.pairs table.now rule graph.now b))) }
    ensures known { KeptOf known.new graph.now.boxes }
{
    let places = table.places(alloc, rule, graph, known, b)?;
    for place in &places {
        out.push(Firing {
            rule,
            place: *place,
        })?;
    }
    Ok(())
}

// Adds the places of these rules at a box.
pub fn add_box<T: Rules>(
    alloc: Global,
    table: &T,
    graph: &Graph,
    known: &mut Inference,
    rules: &[RuleId],
    b: BoxId,
    out: &mut Vec<Firing>,
) -> Result<(), OutOfMemory>
    requires formed { WellFormed graph.now }
    requires held { HasBox b graph.now }
    requires known { KeptOf known.old graph.now.boxes }
    ensures found { OnOk result (out.new.items ≡ out.old.items ++ spec.at_box (T.pairs table.now) rules.now graph.now b) }
    ensures known { KeptOf known.new graph.now.boxes }
{
    for rule in rules {
        add_rule(alloc, table, graph, known, *rule, b, out)?;
    }
    Ok(())
}

/// What may fire next: for each box in the order of the walk, for each rule of the enabled classes,
/// its places at the box. It fails where there is no memory.
#[tactic(auto, unfolding(crate::specs::Control::candidates))]
pub fn candidates<T: Rules>(
    alloc: Global,
    table: &T,
    graph: &Graph,
    plan: &Plan,
) -> Result<Vec<Firing>, OutOfMemory>
    requires { WellFormed graph.now }
    ensures { IfOk result (λ v. v.items ≡ spec.candidates (T.pairs table.now) plan.now graph.now) }
{
    let rules = enabled_rules(alloc, plan.classes.as_slice())?;
    let boxes = graph.walk(alloc, plan.walk)?;
    let mut known = Inference::new();
    let mut out = Vec::new(alloc);
    for b in &boxes {
        add_box(alloc, table, graph, &mut known, &rules, *b, &mut out)?;
    }
    Ok(out)
}
