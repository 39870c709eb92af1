// A step, and a whole rewriting.
ghost use Rattle.std.specs.Prelude.{◌≡◌, ◌<◌, IfOk, OnErr};
ghost use Rattle.qgm_wellformed.specs.Sentences.{WellFormed};
ghost use Rattle.rule_engine.specs.Trace.{Stepped, Traces, TracesEach};

use crate::rules::Rules;
use crate::selection::chosen;
use crate::trace::Trace;
use qgm_core::Graph;
use rule_api::Firing;
use rule_plan::Plan;
use shared_types::OutOfMemory;
use std::alloc::Global;
use std::marker::Brand;
use std::sync::ledger::{Blank, Ledger};
use step_count::Steps;

/// Fires once, `count` having fired before, or not where there is no candidate. What is free in each box
/// is computed first, where the graph doesn't keep it. Where there is no memory it fails, and the graph
/// is as before.
pub fn step<T: Rules>(
    alloc: Global,
    table: &T,
    graph: &mut Graph,
    plan: &Plan,
    count: u64,
) -> Result<Option<Firing>, OutOfMemory>
    requires { WellFormed graph.old }
    ensures ok { IfOk result (λ f. Stepped (T.pairs table.now) (T.may table.now) (T.act table.now) plan.now count graph.old f graph.new) }
    ensures err { OnErr result (graph.new ≡ graph.old) }
{
    refresh::<Brand>(alloc, graph, Blank::new(1))?;
    fire(alloc, table, graph, plan, count)
}

// Computes what is free in boxes, where the graph doesn't keep it.
fn refresh<L: Ledger>(alloc: Global, graph: &mut Graph, blank: Blank) -> Result<(), OutOfMemory>
    requires name { blank.name ≡ L.name }
    requires parts { blank.parts ≡ L.parts }
    requires some { 0 < blank.parts }
    ensures { graph.new ≡ graph.old }
{
    let mut steps = Steps::<L>::new(blank);
    graph.refresh(alloc, &mut steps)
}

// Fires the candidate that is next, if there is one.
fn fire<T: Rules>(
    alloc: Global,
    table: &T,
    graph: &mut Graph,
    plan: &Plan,
    count: u64,
) -> Result<Option<Firing>, OutOfMemory>
    requires { WellFormed graph.old }
    ensures ok { IfOk result (λ f. Stepped (T.pairs table.now) (T.may table.now) (T.act table.now) plan.now count graph.old f graph.new) }
    ensures err { OnErr result (graph.new ≡ graph.old) }
{
    graph.each_number_once();
    let Some(f) = chosen(alloc, table, graph, plan, count)? else {
        return Ok(None);
    };
    table.apply(alloc, f.rule, graph, f.place)?;
    Ok(Some(f))
}

/// Fires until the budget is spent or there is no candidate, and says what fired. Where there is no
/// memory it fails, and the graph is given up.
pub fn rewrite<T: Rules>(
    alloc: Global,
    table: &T,
    graph: Graph,
    plan: &Plan,
) -> Result<(Graph, Trace), OutOfMemory>
    requires { WellFormed graph }
    ensures { IfOk result (λ r. Traces (T.pairs table.now) (T.may table.now) (T.act table.now) plan.now graph r.1 r.0) }
{
    let mut graph = graph;
    let mut trace = Trace::new(alloc);
    for count in 0..plan.budget {
        let Some(f) = step(alloc, table, &mut graph, plan, count)? else {
            return Ok((graph, trace));
        };
        trace.push(f)?;
    }
    Ok((graph, trace))
}

/// Takes a step by each of these plans, the first being step 0, and says of each what fired, or that
/// there was no candidate. Budgets don't count. Where there is no memory it fails, and the graph is given
/// up.
pub fn rewrite_each<T: Rules>(
    alloc: Global,
    table: &T,
    graph: Graph,
    plans: &[Plan],
) -> Result<(Graph, Vec<Option<Firing>>), OutOfMemory>
    requires { WellFormed graph }
    ensures { IfOk result (λ r. TracesEach (T.pairs table.now) (T.may table.now) (T.act table.now) plans.now graph r.1.items r.0) }
{
    let mut graph = graph;
    let mut fired = Vec::new(alloc);
    for k in 0..plans.len() {
        let f = step(alloc, table, &mut graph, &plans[k], k as u64)?;
        fired.push(f)?;
    }
    Ok((graph, fired))
}
