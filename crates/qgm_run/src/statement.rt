// The statement of a graph that is rewritten first.
ghost use Rattle.std.specs.Prelude.{IfOk};
ghost use Rattle.qgm_wellformed.specs.Sentences.{WellFormed};
ghost use Rattle.qgm_run.specs.Stated.{IsStatement};

use graph_sql::{TableNames, statement};
use qgm_core::Graph;
use qgm_props::props;
use rule_plan::Plan;
use rule_set::rewrite_elsewhere;
use shared_types::{OutOfMemory, Text};
use std::alloc::Global;

/// Rewrites a graph by the rules for another engine, and writes the graph that the rewriting ends in as
/// one statement of SQL for PostgreSQL, with these names of tables and their columns. It fails only
/// where there is no memory.
pub fn rewritten_statement(
    alloc: Global,
    graph: Graph,
    plan: &Plan,
    tables: &[TableNames],
) -> Result<Text, OutOfMemory>
    requires { WellFormed graph }
    ensures { IfOk result (λ text. IsStatement tables.now plan.now graph text) }
{
    let (last, _trace) = rewrite_elsewhere(alloc, graph, plan)?;
    let facts = props(alloc, &last)?;
    statement(alloc, tables, &facts, &last)
}
