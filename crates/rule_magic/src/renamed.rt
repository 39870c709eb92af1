// Columns of a quantifier get other names in the boxes that a box reaches.
ghost use Rattle.std.specs.Prelude.{◌≡◌, OnOk};
ghost use Rattle.qgm_core.specs.Held.{HasAll};
ghost use Rattle.rule_magic.specs.RenameSteps as spec;

use qgm_core::{BoxId, Graph, Head, QuantId, reached};
use shared_types::OutOfMemory;
use std::alloc::Global;

/// In the boxes that y reaches in a graph, puts cells for the columns of a quantifier. They are put in
/// another graph, which has its boxes.
pub fn rename_below(
    alloc: Global,
    graph: &Graph,
    after: &mut Graph,
    y: BoxId,
    a: QuantId,
    cells: &Head,
) -> Result<(), OutOfMemory>
    requires { HasAll graph.now after.old }
    ensures ok { OnOk result (after.new ≡ spec.rename_below graph.now.boxes y a cells.now after.old) }
    ensures kept { HasAll after.old after.new }
{
    let marks = reached(alloc, graph.nodes(), y)?;
    for node in graph.nodes() {
        if marks.has(node.id) {
            after.substitute(alloc, node.id, a, cells)?;
        }
    }
    Ok(())
}
