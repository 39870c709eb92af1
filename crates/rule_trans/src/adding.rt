// A conjunct is added to a box.
ghost use Rattle.std.specs.Prelude.{◌≡◌, ◌++◌, ◌∷◌, [], IfOk, OnErr, OnOk};
ghost use Rattle.qgm_core.specs.Boxes.{HasBox};
ghost use Rattle.qgm_terms.specs.Shown.{cond};
ghost use Rattle.rule_trans.specs.Adding as spec;

use qgm_core::{BoxId, Conds, Gc, Graph, Head, Node, reached};
use qgm_terms::{ROOM, copy_conds, copy_head};
use shared_types::OutOfMemory;
use std::alloc::Global;

/// The conditions that a box gets, with a copy of its head.
#[derive(Drop)]
pub struct AddPlan {
    pub n: BoxId,
    pub conds: Conds,
    pub head: Head,
}

// The conditions of a box, with one more at the end.
fn with_more(alloc: Global, node: &Node, p: Gc) -> Result<Conds, OutOfMemory>
    ensures { IfOk result (λ a. a ≡ record node.now.parts.conds { items = node.now.parts.conds.items ++ cond p ∷ [] }) }
{
    let mut all = copy_conds(alloc, &node.parts.conds, ROOM)?;
    all.add(p)?;
    Ok(all)
}

/// p comes to n.
pub fn plan_add(alloc: Global, n: &Node, p: Gc) -> Result<AddPlan, OutOfMemory>
    ensures { IfOk result (λ m. m ≡ spec.add_plan n.now (cond p)) }
{
    let conds = with_more(alloc, n, p)?;
    let head = copy_head(alloc, &n.parts.head, ROOM)?;
    Ok(AddPlan {
        n: n.id,
        conds,
        head,
    })
}

/// Does it. Where there is no memory it fails, and the graph is as before.
pub fn add(alloc: Global, graph: &mut Graph, m: AddPlan) -> Result<(), OutOfMemory>
    requires { HasBox m.n graph.old }
    ensures ok { OnOk result (graph.new ≡ spec.add_steps m graph.old) }
    ensures err { OnErr result (graph.new ≡ graph.old) }
{
    let marks = reached(alloc, graph.nodes(), graph.root())?;
    graph.put_terms(m.n, m.conds, m.head);
    graph.keep(&marks);
    Ok(())
}
