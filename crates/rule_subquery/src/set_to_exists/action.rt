// INTERSECT and EXCEPT become a select.
ghost use Rattle.std.specs.Prelude.{◌≡◌, IfOk, OnErr, OnOk};
ghost use Rattle.qgm_core.specs.Boxes.{HasBox, HasQuant};
ghost use Rattle.qgm_terms.specs.Shown.{cond};
ghost use Rattle.rule_subquery.specs.SetToExists.{matches};
ghost use Rattle.rule_subquery.specs.SetToExistsSteps as spec;

use crate::same_columns::{all_same, columns, only_cond};
use qgm_core::{
    BoxId, BoxKind, Conds, Distinct, Gc, Graph, Head, Node, OwnedQuant, QuantId, QuantKind, Role,
    SetOperator, reached,
};
use qgm_terms::negated;
use shared_types::OutOfMemory;
use std::alloc::Global;

/// What box b gets, and its quantifier q, which becomes an E.
#[derive(Drop)]
pub struct SetPlan {
    pub b: BoxId,
    pub role: Role,
    pub q: QuantId,
    pub conds: Conds,
    pub head: Head,
}

// Some row of r is the same, and for EXCEPT none is.
fn matches(
    alloc: Global,
    form: SetOperator,
    l: QuantId,
    r: QuantId,
    w: usize,
) -> Result<Gc, OutOfMemory>
    ensures { IfOk result (λ p. cond p ≡ matches form l r w) }
{
    let same = all_same(alloc, l, r, w)?;
    let found = Gc::Some(r, Box::new(alloc, same)?);
    match form {
        SetOperator::Except | SetOperator::ExceptAll => negated(alloc, found),
        SetOperator::UnionAll
        | SetOperator::Union
        | SetOperator::IntersectAll
        | SetOperator::Intersect => Ok(found),
    }
}

/// What U4 does at box b, of w columns, with operands l and r.
pub fn plan(
    alloc: Global,
    b: &Node,
    form: SetOperator,
    w: usize,
    l: OwnedQuant,
    r: OwnedQuant,
) -> Result<SetPlan, OutOfMemory>
    ensures { IfOk result (λ m. m ≡ spec.set_plan b.now form w l r) }
{
    let head = columns(alloc, l.id, w)?;
    let p = matches(alloc, form, l.id, r.id, w)?;
    let conds = only_cond(alloc, &b.parts.conds, p)?;
    Ok(SetPlan {
        b: b.id,
        role: b.parts.role,
        q: r.id,
        conds,
        head,
    })
}

/// Does it. Where there is no memory it fails, and the graph is as before.
pub fn select(alloc: Global, graph: &mut Graph, m: SetPlan) -> Result<(), OutOfMemory>
    requires held { HasBox m.b graph.old }
    requires owned { HasQuant m.q graph.old }
    ensures ok { OnOk result (graph.new ≡ spec.set_steps m graph.old) }
    ensures err { OnErr result (graph.new ≡ graph.old) }
{
    let marks = reached(alloc, graph.nodes(), graph.root())?;
    graph.put_box(m.b, BoxKind::Select, m.role, m.conds, m.head);
    graph.set_distinct(m.b, Distinct::Enforce);
    graph.put_quant(m.q, QuantKind::E);
    graph.keep(&marks);
    Ok(())
}
