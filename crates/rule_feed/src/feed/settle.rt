// An S of the box becomes an F.
ghost use Rattle.std.specs.Prelude.{◌≡◌, OnOk};
ghost use Rattle.qgm_core.specs.Boxes.{HasBox, HasQuant};
ghost use Rattle.qgm_core.specs.Held.{HasAll};
ghost use Rattle.rule_feed.specs.FeedSteps as spec;

use qgm_core::{Graph, Node, OwnedQuant, QuantKind};
use rule_subquery::{column_conds, column_head};
use shared_types::OutOfMemory;
use std::alloc::Global;

/// Where r, a quantifier of the box, is an S, it goes behind the others as an F, and its scalars become
/// its first column. It fails only for want of memory.
pub fn settle(alloc: Global, graph: &mut Graph, b: &Node, r: OwnedQuant) -> Result<(), OutOfMemory>
    requires held { HasBox b.now.id graph.old }
    requires owned { HasQuant r.id graph.old }
    ensures ok { OnOk result (graph.new ≡ spec.settle_edits b.now r graph.old) }
    ensures kept { HasAll graph.old graph.new }
{
    if !r.kind.is_s() {
        return Ok(());
    }
    let conds = column_conds(alloc, &b.parts.conds, r.id)?;
    let head = column_head(alloc, &b.parts.head, r.id)?;
    let last = graph.places_for(r.id, b.id);
    graph.move_quant(r.id, b.id, last)?;
    graph.put_quant(r.id, QuantKind::F);
    graph.put_terms(b.id, conds, head);
    Ok(())
}
