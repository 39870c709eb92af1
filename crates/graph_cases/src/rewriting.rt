// Rewritings by a plan for each step, as a script asks for them.
ghost use Rattle.std.specs.Prelude.{OnOk};
ghost use Rattle.qgm_wellformed.specs.Sentences.{WellFormed};

use crate::executed::rows;
use crate::faults::LineError;
use crate::items::number;
use crate::known::need;
use qgm_check::{IllFormed, check_graph};
use qgm_core::{Graph, Walk};
use row_bag::Tables;
use rule_api::Firing;
use rule_engine::rewrite_each;
use rule_plan::{Class, Classes, Order, Plan};
use rule_set::BuiltRules;
use std::alloc::Global;

fn class(word: &str) -> Result<Class, LineError> {
    match word {
        "merge" => Ok(Class::Merge),
        "subquery" => Ok(Class::Subquery),
        "distinct" => Ok(Class::Distinct),
        "push" => Ok(Class::Push),
        "trans" => Ok(Class::Trans),
        "prune" => Ok(Class::Prune),
        "magic" => Ok(Class::Magic),
        _ => Err(LineError::Faulty("no class has this name")),
    }
}

fn order(word: &str) -> Result<Order, LineError> {
    match word {
        "sequence" => Ok(Order::Sequence),
        "priority" => Ok(Order::Priority),
        "scatter" => Ok(Order::Scatter),
        _ => Err(LineError::Faulty("no order has this name")),
    }
}

fn walk(word: &str) -> Result<Walk, LineError> {
    match word {
        "depth" => Ok(Walk::Depth),
        "breadth" => Ok(Walk::Breadth),
        _ => Err(LineError::Faulty("a walk is depth or breadth")),
    }
}

// Classes parted by commas.
fn classes(alloc: Global, word: &str) -> Result<Classes, LineError> {
    let mut classes = Classes::new(alloc);
    for name in word.split(',') {
        classes.push(class(name)?)?;
    }
    Ok(classes)
}

// The plan that a word is, with a seed.
fn plan(alloc: Global, word: &str, seed: u64) -> Result<Plan, LineError> {
    let Some((listed, behind)) = word.split_once("/") else {
        return Err(LineError::Faulty("an order is missing"));
    };
    let Some((order_word, walk_word)) = behind.split_once("/") else {
        return Err(LineError::Faulty("a walk is missing"));
    };
    Ok(Plan {
        classes: classes(alloc, listed)?,
        order: order(order_word)?,
        walk: walk(walk_word)?,
        seed,
        budget: 1,
    })
}

// So many plans: those that these words are, over and over, each with its number from 0 as its seed.
fn plans(alloc: Global, many: usize, words: &[&str]) -> Result<Vec<Plan>, LineError> {
    need(!words.is_empty(), "a plan is missing")?;
    let mut plans = Vec::new(alloc);
    for k in 0..many {
        plans.push(plan(alloc, words[k % words.len()], k as u64)?)?;
    }
    Ok(plans)
}

// The plans that a text says: how many, and the words that they are.
fn plans_of(alloc: Global, text: &str) -> Result<Vec<Plan>, LineError> {
    let Some((many, behind)) = text.split_once(" ") else {
        return Err(LineError::Faulty("a plan is missing"));
    };
    let mut words = Vec::new(alloc);
    for word in behind.split_whitespace() {
        words.push(word)?;
    }
    plans(alloc, number(many)?, &words)
}

// It fails where a graph is ill-formed.
fn need_formed(alloc: Global, graph: &Graph) -> Result<(), LineError>
    ensures { OnOk result (WellFormed graph.now) }
{
    match check_graph(alloc, graph) {
        Ok(()) => Ok(()),
        Err(IllFormed::Fails(_)) => Err(LineError::Faulty("the graph is ill-formed")),
        Err(IllFormed::Memory) => Err(LineError::Memory),
    }
}

// What a graph is rewritten to by the plans that a text says, one for each step, and what fired.
fn rewritten(
    alloc: Global,
    graph: &Graph,
    text: &str,
) -> Result<(Graph, Vec<Option<Firing>>), LineError> {
    need_formed(alloc, graph)?;
    let plans = plans_of(alloc, text)?;
    let copy = graph.copy(alloc)?;
    Ok(rewrite_each(alloc, &BuiltRules, copy, &plans)?)
}

// Appends the name of a rule that fired, `-` where none did.
fn add_name(text: &mut String, fired: Option<Firing>) -> Result<(), LineError> {
    let Some(firing) = fired else {
        return Ok(text.push('-')?);
    };
    for letter in firing.rule.entry().word {
        text.push(char::from(*letter))?;
    }
    Ok(())
}

/// What fires in a graph by these plans at each step, as `- G1 M1`; the graph stays.
pub fn fired(alloc: Global, graph: &Graph, plans: &str) -> Result<String, LineError> {
    let (_after, steps) = rewritten(alloc, graph, plans)?;
    let mut text = String::new(alloc);
    for step in &steps {
        if !text.is_empty() {
            text.push(' ')?;
        }
        add_name(&mut text, *step)?;
    }
    Ok(text)
}

/// What the graph that a graph is rewritten to by these plans gives; the graph stays.
pub fn rows_after(
    alloc: Global,
    graph: &Graph,
    tables: &Tables,
    plans: &str,
) -> Result<String, LineError> {
    let (after, _steps) = rewritten(alloc, graph, plans)?;
    rows(alloc, &after, tables)
}
