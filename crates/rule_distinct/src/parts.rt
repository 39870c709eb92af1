// What kind of box it is, and another distinctness.
ghost use Rattle.std.specs.Prelude.{◌≡◌, OnErr, OnOk};
ghost use Rattle.qgm_core.specs.Boxes.{HasBox};
ghost use Rattle.qgm_core.specs.Edits.{compact, set_distinct};
ghost use Rattle.rule_facts.specs.Places as places;

use qgm_core::{BoxId, Distinct, Graph, Node, reached};
use shared_types::OutOfMemory;
use std::alloc::Global;

/// Whether a box is a plain select.
pub fn is_plain_select(node: &Node) -> bool
    ensures { result ≡ places.is_plain_select node.now }
{
    node.parts.kind.is_select() && node.parts.role.is_plain()
}

/// Gives a box another distinctness, and drops what the root doesn't reach. Where there is no memory
/// it fails, and the graph is as before.
pub fn put_distinct(
    alloc: Global,
    graph: &mut Graph,
    b: BoxId,
    distinct: Distinct,
) -> Result<(), OutOfMemory>
    requires { HasBox b graph.old }
    ensures ok { OnOk result (graph.new ≡ compact (set_distinct b distinct graph.old)) }
    ensures err { OnErr result (graph.new ≡ graph.old) }
{
    let marks = reached(alloc, graph.nodes(), graph.root())?;
    graph.set_distinct(b, distinct);
    graph.keep(&marks);
    Ok(())
}
