// An E quantifier becomes an F.
ghost use Rattle.std.specs.Prelude.{◌≡◌, IfOk, OnErr, OnOk};
ghost use Rattle.qgm_core.specs.Boxes.{HasBox, HasQuant, box_of};
ghost use Rattle.qgm_edit_laws.specs.PermitToPreserve.{permit_found};
ghost use Rattle.rule_subquery.specs.ExistsToJoinSteps as spec;

use crate::exists_to_join::condition::distinct_after;
use crate::exists_to_join::conjunct::joined_conds;
use qgm_core::{
    BoxId, Conds, Distinct, Graph, Head, Node, OwnedQuant, QuantId, QuantKind, reached,
};
use qgm_terms::{ROOM, copy_head};
use rule_facts::box_at;
use shared_types::OutOfMemory;
use std::alloc::Global;

/// What box b gets, whose quantifier q over box c becomes an F behind the others; whether c is PERMIT.
#[derive(Drop)]
pub struct ExistsPlan {
    pub b: BoxId,
    pub q: QuantId,
    pub c: BoxId,
    pub is_permit: bool,
    pub distinct: Distinct,
    pub conds: Conds,
    pub head: Head,
}

// Whether the box of a number is PERMIT.
fn is_permit(graph: &Graph, b: BoxId) -> bool
    ensures { result ≡ permit_found (box_of b graph.now) }
{
    graph.each_number_once();
    match box_at(graph.nodes(), b) {
        Some(node) => node.parts.distinct.is_permit(),
        None => false,
    }
}

/// What U1 does at quantifier r of box b.
pub fn plan(
    alloc: Global,
    graph: &Graph,
    b: &Node,
    r: OwnedQuant,
) -> Result<ExistsPlan, OutOfMemory>
    ensures { IfOk result (λ m. m ≡ spec.exists_plan graph.now b.now r) }
{
    let distinct = distinct_after(alloc, graph, b, r)?;
    let conds = joined_conds(alloc, &b.parts.conds, r.id)?;
    let head = copy_head(alloc, &b.parts.head, ROOM)?;
    Ok(ExistsPlan {
        b: b.id,
        q: r.id,
        c: r.over,
        is_permit: is_permit(graph, r.over),
        distinct,
        conds,
        head,
    })
}

/// Does it. Where there is no memory it fails, and the graph is as before.
pub fn join(alloc: Global, graph: &mut Graph, m: ExistsPlan) -> Result<(), OutOfMemory>
    requires held { HasBox m.b graph.old }
    requires owned { HasQuant m.q graph.old }
    requires over { HasBox m.c graph.old }
    ensures ok { OnOk result (graph.new ≡ spec.exists_steps m graph.old) }
    ensures err { OnErr result (graph.new ≡ graph.old) }
{
    let marks = reached(alloc, graph.nodes(), graph.root())?;
    let last = graph.places_for(m.q, m.b);
    graph.move_quant(m.q, m.b, last)?;
    graph.put_quant(m.q, QuantKind::F);
    graph.put_terms(m.b, m.conds, m.head);
    graph.set_distinct(m.b, m.distinct);
    if m.is_permit {
        graph.set_distinct(m.c, Distinct::Preserve);
    }
    graph.keep(&marks);
    Ok(())
}
