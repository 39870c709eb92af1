// Quantifiers over one box range over another.
ghost use Rattle.std.specs.Prelude.{ℕ, ◌≡◌, ◌++◌, IfOk, OnErr, OnOk};
ghost use Rattle.qgm_core.specs.Boxes.{HasBox, HasQuant};
ghost use Rattle.qgm_core.specs.Edits.{ids_over, on_boxes, quants_over};
ghost use Rattle.list_laws.specs.Lists.{In};
ghost use Rattle.rule_merge.specs.DropCopySteps.{drop_steps, turned};

use qgm_core::{BoxId, Graph, Node, OwnedQuant, QuantId, reached};
use shared_types::OutOfMemory;
use std::alloc::Global;

// Adds those of these that range over b.
fn add_over(ranges: &[OwnedQuant], b: BoxId, out: &mut Vec<QuantId>) -> Result<(), OutOfMemory>
    ensures { OnOk result (out.new.items ≡ out.old.items ++ ids_over b ranges.now) }
{
    for r in ranges {
        if r.over == b {
            out.push(r.id)?;
        }
    }
    Ok(())
}

// The quantifiers over b.
fn quants_over(alloc: Global, nodes: &[Node], b: BoxId) -> Result<Vec<QuantId>, OutOfMemory>
    ensures { IfOk result (λ v. v.items ≡ quants_over b nodes.now) }
{
    let mut out = Vec::new(alloc);
    for node in nodes {
        add_over(node.quants.as_slice(), b, &mut out)?;
    }
    Ok(out)
}

// These range over c now.
fn turn(graph: &mut Graph, list: &[QuantId], c: BoxId)
    requires held { HasBox c graph.old }
    requires quants { (q : ℕ) → In q list.now → HasQuant q graph.old }
    ensures { graph.new ≡ on_boxes (turned c list.now) graph.old }
{
    for q in list {
        graph.redirect(*q, c);
    }
}

/// Quantifiers over b range over c, and b goes, with what the root then doesn't reach. Where there is
/// no memory it fails, and the graph is as before.
pub fn moved(alloc: Global, graph: &mut Graph, b: BoxId, c: BoxId) -> Result<(), OutOfMemory>
    requires gone { HasBox b graph.old }
    requires held { HasBox c graph.old }
    ensures ok { OnOk result (graph.new ≡ drop_steps b c graph.old) }
    ensures err { OnErr result (graph.new ≡ graph.old) }
{
    let list = quants_over(alloc, graph.nodes(), b)?;
    let marks = reached(alloc, graph.nodes(), graph.root())?;
    turn(graph, &list, c);
    graph.drop_box(b);
    graph.keep(&marks);
    Ok(())
}
