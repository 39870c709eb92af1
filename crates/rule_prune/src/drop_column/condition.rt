// Where N1 may fire.
ghost use Rattle.std.specs.Prelude.{◌≡◌, ◌≤◌, length, true, IfOk, Some};
ghost use Rattle.qgm_core.specs.Boxes.{box_of};
ghost use Rattle.qgm_wellformed.specs.Sentences.{WellFormed};
ghost use Rattle.rule_prune.specs.DropColumn as spec;
ghost use Rattle.rule_prune.specs.NamedColumns.{named_of};
ghost use Rattle.rule_prune.specs.Pruned.{MayCut};

use crate::drop_column::action::{pruned_column, without_column};
use crate::drop_column::cells::may_lose;
use crate::drop_column::named::is_operand;
use qgm_core::{BoxId, Graph, Marks, Node};
use rule_facts::{any_fed, any_fed_closed};
use shared_types::OutOfMemory;
use std::alloc::Global;

/// Whether a column of a box may go, by what the box is and by what ranges over it. Else N1 has no place
/// there.
pub fn may_have(graph: &Graph, node: &Node) -> bool
    ensures { result ≡ spec.may_have graph.now node.now }
{
    let width = node.parts.head.len();
    graph.root() != node.id
        && node.parts.role.is_plain()
        && 2 <= width
        && may_lose(node, width)
        && !is_operand(graph.nodes(), node.id)
}

// Whether no fed box is over a closed one where column k of b has gone. Where no box is fed, none will be,
// so that the graphs after it aren't made.
fn leaves_open(alloc: Global, graph: &Graph, b: BoxId, k: usize) -> Result<bool, OutOfMemory>
    requires formed { WellFormed graph.now }
    requires given { MayCut graph.now b k }
    ensures { IfOk result (λ kept. kept ≡ spec.leaves_open graph.now b k) }
{
    graph.each_number_once();
    if !any_fed(graph.nodes()) {
        return Ok(true);
    }
    let middle = without_column(alloc, graph, b, k)?;
    if any_fed_closed(alloc, &middle)? {
        return Ok(false);
    }
    let last = pruned_column(alloc, graph, b, k)?;
    let closed = any_fed_closed(alloc, &last)?;
    Ok(!closed)
}

/// Whether N1 may fire at column k of such a box, whose named columns are given.
pub fn may_drop(
    alloc: Global,
    graph: &Graph,
    named: &Marks,
    node: &Node,
    k: usize,
) -> Result<bool, OutOfMemory>
    requires formed { WellFormed graph.now }
    requires named { named.now ≡ named_of node.now.id graph.now.boxes }
    requires found { box_of node.now.id graph.now ≡ Some node.now }
    requires fits { spec.may_have graph.now node.now ≡ true }
    requires from_one { 1 ≤ k }
    requires within { k ≤ length node.now.parts.head }
    ensures { IfOk result (λ may. may ≡ spec.may_drop_column graph.now node.now k) }
{
    if !may_lose(node, k) {
        return Ok(false);
    }
    if named.has(k) {
        return Ok(false);
    }
    leaves_open(alloc, graph, node.id, k)
}
