// A column goes on a copy of the graph, and the quantifiers that nothing names then.
ghost use Rattle.std.specs.Prelude.{ℕ, ◌≡◌, ◌≤◌, length, IfOk};
ghost use Rattle.qgm_core.specs.Boxes.{HasBox, HasQuant, box_of};
ghost use Rattle.qgm_core.specs.Edits as edits;
ghost use Rattle.list_laws.specs.Lists.{EachOnce, In};
ghost use Rattle.qgm_edit_laws.specs.Graph.{nodes_in};
ghost use Rattle.qgm_wellformed.specs.Sentences.{WellFormed};
ghost use Rattle.rule_prune.specs.Pruned.{MayCut, Prunes};
ghost use Rattle.rule_prune.specs.Unnamed as spec;

use qgm_core::{BoxId, Graph, Node, QuantId};
use qgm_term_search::{stands_in_cells, stands_in_conds};
use qgm_terms::Sought;
use rule_facts::box_at;
use shared_types::OutOfMemory;
use std::alloc::Global;

/// The graph where column k of b has gone.
pub fn without_column(
    alloc: Global,
    graph: &Graph,
    b: BoxId,
    k: usize,
) -> Result<Graph, OutOfMemory>
    requires held { HasBox b graph.now }
    requires from_one { 1 ≤ k }
    requires within { k ≤ length (edits.head_in (box_of b graph.now)) }
    ensures graph { IfOk result (λ h. h ≡ edits.drop_column b k graph.now) }
    ensures held { IfOk result (λ h. HasBox b h) }
{
    let mut after = graph.copy(alloc)?;
    after.drop_column(b, k);
    Ok(after)
}

// Whether a node of q stands in a box.
fn has_node(node: &Node, q: QuantId) -> bool
    ensures { result ≡ nodes_in q node.now }
{
    stands_in_cells(node.parts.head.as_slice(), Sought::NodeOf(q))
        || stands_in_conds(node.parts.conds.as_slice(), Sought::NodeOf(q))
}

// The quantifiers of a box that are no F and of which no node stands in it.
pub fn unnamed(alloc: Global, node: &Node) -> Result<Vec<QuantId>, OutOfMemory>
    ensures { IfOk result (λ v. v.items ≡ spec.unnamed node.now node.now.quants) }
{
    let mut out = Vec::new(alloc);
    for r in node.quants.as_slice() {
        if !r.kind.is_f() && !has_node(node, r.id) {
            out.push(r.id)?;
        }
    }
    Ok(out)
}

// These go.
pub fn drop_all(graph: &mut Graph, list: &[QuantId])
    requires held { (q : ℕ) → In q list.now → HasQuant q graph.old }
    requires once { EachOnce list.now }
    ensures { graph.new ≡ spec.dropped_all list.now graph.old }
{
    for q in list {
        graph.drop_quant(*q);
    }
}

/// The graph where column k of b has gone, then the quantifiers of b that are no F and that nothing
/// names, and what the root then doesn't reach.
pub fn pruned_column(alloc: Global, graph: &Graph, b: BoxId, k: usize) -> Result<Graph, OutOfMemory>
    requires formed { WellFormed graph.now }
    requires held { HasBox b graph.now }
    requires from_one { 1 ≤ k }
    requires within { k ≤ length (edits.head_in (box_of b graph.now)) }
    requires given { MayCut graph.now b k }
    ensures { IfOk result (λ h. Prunes b k graph.now h) }
{
    graph.each_number_once();
    let mut after = without_column(alloc, graph, b, k)?;
    after.each_number_once();
    let Some(node) = box_at(after.nodes(), b) else {
        unreachable!()
    };
    let list = unnamed(alloc, node)?;
    drop_all(&mut after, &list);
    after.compact(alloc)?;
    Ok(after)
}
