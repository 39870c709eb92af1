// The rows of a graph that is rewritten first.
ghost use Rattle.std.specs.Prelude.{◌≡◌, ◌≤◌, ◌-◌, ◌++◌, ℕ, List, IfOk, min};
ghost use Rattle.qgm_wellformed.specs.Sentences.{WellFormed};
ghost use Rattle.qgm_meaning.specs.Meaning.{root_bag};
ghost use Rattle.qgm_meaning.specs.Satisfies.{Satisfies};
ghost use Rattle.qgm_run.specs.Answers.{IsRewritten};
ghost use Rattle.qgm_run.specs.Explained.{IsTold};
ghost use Rattle.row_bag.specs.Bags.{Agree};
ghost use Rattle.row_bag.specs.Sets.{same_cells};

use crate::execution::executed;
use crate::lines::put_counts;
use crate::outcome::Ran;
use crate::telling::told_rewriting;
use qgm_core::Graph;
use row_bag::Tables;
use rule_plan::Plan;
use rule_set::rewrite_built;
use shared_types::{OutOfMemory, Text};
use std::alloc::Global;
use std::sync::ledger::Ledger;
use step_count::Steps;

/// Rewrites a graph by the rules that are built, and executes the graph that the rewriting ends in over
/// tables that are given up.
/// It fails only where there is no memory.
#[tactic(auto, using(crate::proofs::Rewritten::rows_of_rewritten, crate::proofs::Rewritten::is_rewritten))]
pub fn run_rewritten<L: Ledger>(
    alloc: Global,
    graph: Graph,
    plan: &Plan,
    tables: Tables,
    steps: &mut Steps<L>,
) -> Result<Ran, OutOfMemory>
    requires formed { WellFormed graph }
    requires satisfied { Satisfies tables graph.boxes }
    ensures rows { IfOk result (λ a. Agree same_cells a.rows (root_bag tables graph)) }
    ensures rewritten { IfOk result (λ a. IsRewritten tables plan.now graph a.firings steps.old steps.new) }
    ensures counted { IfOk result (λ a. a.evals ≡ min (steps.new - steps.old) 18446744073709551615) }
    ensures never_less { steps.old ≤ steps.new }
{
    let (after, trace) = rewrite_built(alloc, graph, plan)?;
    let firings = trace.as_slice().len() as u64;
    let (rows, evals) = executed(alloc, &after, tables, steps)?;
    Ok(Ran {
        rows,
        firings,
        evals,
    })
}

/// Does what `run_rewritten` does, and adds lines that tell of it: the graph, each firing with the graph
/// after it, how many firings there were, and how many evaluations of boxes.
#[tactic(auto, using(crate::proofs::Rewritten::rows_of_told, crate::proofs::Rewritten::is_rewritten, crate::proofs::Rewritten::is_explained))]
pub fn tell_rewritten<L: Ledger>(
    alloc: Global,
    graph: Graph,
    plan: &Plan,
    tables: Tables,
    steps: &mut Steps<L>,
    out: &mut Text,
) -> Result<Ran, OutOfMemory>
    requires formed { WellFormed graph }
    requires satisfied { Satisfies tables graph.boxes }
    ensures rows { IfOk result (λ a. Agree same_cells a.rows (root_bag tables graph)) }
    ensures rewritten { IfOk result (λ a. IsRewritten tables plan.now graph a.firings steps.old steps.new) }
    ensures told { IfOk result (λ a. (text : List ℕ) × (out.new ≡ out.old ++ text) × IsTold tables plan.now graph a.firings a.evals steps.old steps.new text) }
    ensures counted { IfOk result (λ a. a.evals ≡ min (steps.new - steps.old) 18446744073709551615) }
    ensures never_less { steps.old ≤ steps.new }
{
    let (last, firings) = told_rewriting(alloc, graph, plan, out)?;
    let (rows, evals) = executed(alloc, &last, tables, steps)?;
    put_counts(firings, evals, out)?;
    Ok(Ran {
        rows,
        firings,
        evals,
    })
}
