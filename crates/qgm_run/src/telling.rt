// A rewriting that tells of each firing.
ghost use Rattle.std.specs.Prelude.{◌≡◌, ◌++◌, ◌<◌, IfOk};
ghost use Rattle.qgm_wellformed.specs.Sentences.{WellFormed};
ghost use Rattle.rule_set.specs.Built.{built_act, built_may, built_pairs};
ghost use Rattle.qgm_run.specs.Explained.{Told, step_lines};
ghost use Rattle.rule_engine.specs.Trace.{Stepped};

use crate::lines::{put_fire, put_graph};
use qgm_core::{Graph, Walk};
use rule_api::Firing;
use rule_engine::step;
use rule_plan::Plan;
use rule_set::BuiltRules;
use shared_types::{OutOfMemory, Text};
use std::alloc::Global;

// A step after `count` firings, whose lines are added.
fn told_step(
    alloc: Global,
    graph: &mut Graph,
    plan: &Plan,
    count: u64,
    out: &mut Text,
) -> Result<Option<Firing>, OutOfMemory>
    requires formed { WellFormed graph.old }
    requires more { count < 18446744073709551615 }
    ensures steps { IfOk result (λ f. Stepped built_pairs built_may built_act plan.now count graph.old f graph.new) }
    ensures told { IfOk result (λ f. out.new ≡ out.old ++ step_lines count graph.old f graph.new) }
{
    let order = graph.walk(alloc, Walk::Depth)?;
    let Some(firing) = step(alloc, &BuiltRules, graph, plan, count)? else {
        return Ok(None);
    };
    put_fire(count + 1, &order, firing, out)?;
    put_graph(alloc, count + 1, graph, out)?;
    Ok(Some(firing))
}

/// The graph that a rewriting ends in, and how many firings lead to it, whose lines are added behind
/// those of the first graph.
#[tactic(auto, using(crate::proofs::Firings::ran_none, crate::proofs::Firings::ran_more, crate::proofs::Firings::told_of, crate::proofs::Firings::told_stopped))]
pub fn told_rewriting(
    alloc: Global,
    graph: Graph,
    plan: &Plan,
    out: &mut Text,
) -> Result<(Graph, u64), OutOfMemory>
    requires { WellFormed graph }
    ensures { IfOk result (λ r. Told plan.now graph r.0 r.1 out.old out.new) }
{
    let mut graph = graph;
    put_graph(alloc, 0, &graph, out)?;
    for count in 0..plan.budget {
        let Some(_firing) = told_step(alloc, &mut graph, plan, count, out)? else {
            return Ok((graph, count));
        };
    }
    Ok((graph, plan.budget))
}
