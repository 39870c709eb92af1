// The execution of a well-formed graph.
ghost use Rattle.std.specs.Prelude.{◌≡◌, ◌≤◌, ◌-◌, IfOk, min};
ghost use Rattle.qgm_wellformed.specs.Sentences.{WellFormed};
ghost use Rattle.qgm_meaning.specs.Meaning.{root_bag};
ghost use Rattle.qgm_run.specs.Answers.{Evaluates};
ghost use Rattle.row_bag.specs.Bags.{Agree};
ghost use Rattle.row_bag.specs.Sets.{same_cells};

use box_exec::{execute_owned, execution_laws};
use qgm_core::Graph;
use row_bag::{Bag, Tables};
use shared_types::OutOfMemory;
use std::alloc::Global;
use std::sync::ledger::Ledger;
use step_count::Steps;

/// The rows of a well-formed graph over tables that are given up, and how many evaluations of boxes they
/// took.
#[tactic(auto, using(crate::proofs::Fit::fit_of_formed, crate::proofs::Fit::evaluates_of_formed))]
pub fn executed<L: Ledger>(
    alloc: Global,
    graph: &Graph,
    tables: Tables,
    steps: &mut Steps<L>,
) -> Result<(Bag, u64), OutOfMemory>
    requires { WellFormed graph.now }
    ensures rows { IfOk result (λ r. Agree same_cells r.0 (root_bag tables graph.now)) }
    ensures evaluates { IfOk result (λ r. Evaluates tables graph.now steps.old steps.new) }
    ensures counted { IfOk result (λ r. r.1 ≡ min (steps.new - steps.old) 18446744073709551615) }
    ensures never_less { steps.old ≤ steps.new }
{
    graph.each_number_once();
    execution_laws();
    let (rows, evals) = execute_owned(alloc, graph, tables, steps)?;
    Ok((rows, evals))
}
