// A conjunct goes from one box, and one comes at the end of those of another.
ghost use Rattle.std.specs.Prelude.{◌≡◌, ◌≤◌, ◌-◌, ◌++◌, ◌∷◌, [], length, IfOk, OnErr, OnOk};
ghost use Rattle.std.specs.List.{remove};
ghost use Rattle.qgm_core.specs.Boxes.{HasBox};
ghost use Rattle.qgm_terms.specs.Shown.{cond};
ghost use Rattle.rule_push.specs.Moves as spec;

use qgm_core::{BoxId, Conds, Gc, Graph, Head, Node, reached};
use qgm_terms::{ROOM, copy_conds, copy_head};
use shared_types::OutOfMemory;
use std::alloc::Global;

/// The conditions that box b and box n get, with copies of their heads.
#[derive(Drop)]
pub struct PushPlan {
    pub b: BoxId,
    pub b_conds: Conds,
    pub b_head: Head,
    pub n: BoxId,
    pub n_conds: Conds,
    pub n_head: Head,
}

/// The same, and the conditions that box m gets, with a copy of its head.
#[derive(Drop)]
pub struct ArmsPlan {
    pub first: PushPlan,
    pub m: BoxId,
    pub m_conds: Conds,
    pub m_head: Head,
}

// The conditions of a box, with one more at the end.
fn with_more(alloc: Global, node: &Node, p: Gc) -> Result<Conds, OutOfMemory>
    ensures { IfOk result (λ a. a ≡ record node.now.parts.conds { items = node.now.parts.conds.items ++ cond p ∷ [] }) }
{
    let mut all = copy_conds(alloc, &node.parts.conds, ROOM)?;
    all.add(p)?;
    Ok(all)
}

// The conditions of a box, without the one at this place, from 1.
fn with_less(alloc: Global, node: &Node, i: usize) -> Result<Conds, OutOfMemory>
    requires from_one { 1 ≤ i }
    requires within { i ≤ length node.now.parts.conds.items }
    ensures { IfOk result (λ a. a ≡ record node.now.parts.conds { items = remove node.now.parts.conds.items (i - 1) }) }
{
    let mut all = copy_conds(alloc, &node.parts.conds, ROOM)?;
    let _ = all.remove(i);
    Ok(all)
}

/// Of b the condition at place i, from 1, goes, and p comes to n.
pub fn plan_push(
    alloc: Global,
    b: &Node,
    i: usize,
    n: &Node,
    p: Gc,
) -> Result<PushPlan, OutOfMemory>
    requires from_one { 1 ≤ i }
    requires within { i ≤ length b.now.parts.conds.items }
    ensures { IfOk result (λ m. m ≡ spec.push_plan b.now (i - 1) n.now (cond p)) }
{
    let b_conds = with_less(alloc, b, i)?;
    let b_head = copy_head(alloc, &b.parts.head, ROOM)?;
    let n_conds = with_more(alloc, n, p)?;
    let n_head = copy_head(alloc, &n.parts.head, ROOM)?;
    Ok(PushPlan {
        b: b.id,
        b_conds,
        b_head,
        n: n.id,
        n_conds,
        n_head,
    })
}

/// Does it. Where there is no memory it fails, and the graph is as before.
pub fn push(alloc: Global, graph: &mut Graph, m: PushPlan) -> Result<(), OutOfMemory>
    requires from { HasBox m.b graph.old }
    requires to { HasBox m.n graph.old }
    ensures ok { OnOk result (graph.new ≡ spec.push_steps m graph.old) }
    ensures err { OnErr result (graph.new ≡ graph.old) }
{
    let marks = reached(alloc, graph.nodes(), graph.root())?;
    graph.put_terms(m.n, m.n_conds, m.n_head);
    graph.put_terms(m.b, m.b_conds, m.b_head);
    graph.keep(&marks);
    Ok(())
}

/// Of b the condition at place i, from 1, goes, p comes to n, and q to m.
pub fn plan_push_both(
    alloc: Global,
    b: &Node,
    i: usize,
    n: &Node,
    p: Gc,
    m: &Node,
    q: Gc,
) -> Result<ArmsPlan, OutOfMemory>
    requires from_one { 1 ≤ i }
    requires within { i ≤ length b.now.parts.conds.items }
    ensures { IfOk result (λ x. x ≡ spec.arms_plan b.now (i - 1) n.now (cond p) m.now (cond q)) }
{
    let first = plan_push(alloc, b, i, n, p)?;
    let m_conds = with_more(alloc, m, q)?;
    let m_head = copy_head(alloc, &m.parts.head, ROOM)?;
    Ok(ArmsPlan {
        first,
        m: m.id,
        m_conds,
        m_head,
    })
}

/// Does it. Where there is no memory it fails, and the graph is as before.
pub fn push_both(alloc: Global, graph: &mut Graph, x: ArmsPlan) -> Result<(), OutOfMemory>
    requires from { HasBox x.first.b graph.old }
    requires to_first { HasBox x.first.n graph.old }
    requires to_second { HasBox x.m graph.old }
    ensures ok { OnOk result (graph.new ≡ spec.arms_steps x graph.old) }
    ensures err { OnErr result (graph.new ≡ graph.old) }
{
    let marks = reached(alloc, graph.nodes(), graph.root())?;
    let ArmsPlan {
        first,
        m,
        m_conds,
        m_head,
    } = x;
    graph.put_terms(first.n, first.n_conds, first.n_head);
    graph.put_terms(m, m_conds, m_head);
    graph.put_terms(first.b, first.b_conds, first.b_head);
    graph.keep(&marks);
    Ok(())
}
