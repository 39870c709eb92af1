// A quantifier goes on a copy of the graph, which then stands in its place.
ghost use Rattle.std.specs.Prelude.{◌≡◌, IfOk, OnErr, OnOk};
ghost use Rattle.qgm_core.specs.Boxes.{HasQuant};
ghost use Rattle.qgm_core.specs.Edits as edits;

use qgm_core::{Graph, QuantId};
use shared_types::OutOfMemory;
use std::alloc::Global;

/// The graph without quantifier q and what the root then doesn't reach.
pub fn without_quant(alloc: Global, graph: &Graph, q: QuantId) -> Result<Graph, OutOfMemory>
    requires { HasQuant q graph.now }
    ensures { IfOk result (λ h. h ≡ edits.compact (edits.drop_quant q graph.now)) }
{
    let mut after = graph.copy(alloc)?;
    after.drop_quant(q);
    after.compact(alloc)?;
    Ok(after)
}

/// Drops quantifier q, and what the root then doesn't reach. Where there is no memory it fails, and
/// the graph is as before.
pub fn prune_quant(alloc: Global, graph: &mut Graph, q: QuantId) -> Result<(), OutOfMemory>
    requires { HasQuant q graph.old }
    ensures ok { OnOk result (graph.new ≡ edits.compact (edits.drop_quant q graph.old)) }
    ensures err { OnErr result (graph.new ≡ graph.old) }
{
    let after = without_quant(alloc, graph, q)?;
    *graph = after;
    Ok(())
}
