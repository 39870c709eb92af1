// An S quantifier becomes an F.
ghost use Rattle.std.specs.Prelude.{◌≡◌, IfOk, OnErr, OnOk};
ghost use Rattle.qgm_core.specs.Boxes.{HasBox, HasQuant};
ghost use Rattle.rule_subquery.specs.ScalarToJoinSteps as spec;

use crate::first_column::{column_conds, column_head};
use qgm_core::{BoxId, Conds, Graph, Head, Node, OwnedQuant, QuantId, QuantKind, reached};
use shared_types::OutOfMemory;
use std::alloc::Global;

/// What box b gets, whose quantifier q becomes an F behind the others.
#[derive(Drop)]
pub struct ScalarPlan {
    pub b: BoxId,
    pub q: QuantId,
    pub conds: Conds,
    pub head: Head,
}

/// What U3 does at quantifier r of box b.
pub fn plan(alloc: Global, b: &Node, r: OwnedQuant) -> Result<ScalarPlan, OutOfMemory>
    ensures { IfOk result (λ m. m ≡ spec.scalar_plan b.now r) }
{
    let conds = column_conds(alloc, &b.parts.conds, r.id)?;
    let head = column_head(alloc, &b.parts.head, r.id)?;
    Ok(ScalarPlan {
        b: b.id,
        q: r.id,
        conds,
        head,
    })
}

/// Does it. Where there is no memory it fails, and the graph is as before.
pub fn join(alloc: Global, graph: &mut Graph, m: ScalarPlan) -> Result<(), OutOfMemory>
    requires held { HasBox m.b graph.old }
    requires owned { HasQuant m.q graph.old }
    ensures ok { OnOk result (graph.new ≡ spec.scalar_steps m graph.old) }
    ensures err { OnErr result (graph.new ≡ graph.old) }
{
    let marks = reached(alloc, graph.nodes(), graph.root())?;
    let last = graph.places_for(m.q, m.b);
    graph.move_quant(m.q, m.b, last)?;
    graph.put_quant(m.q, QuantKind::F);
    graph.put_terms(m.b, m.conds, m.head);
    graph.keep(&marks);
    Ok(())
}
