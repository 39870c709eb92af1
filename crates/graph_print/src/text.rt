// The text of a graph.
ghost use Rattle.std.specs.Prelude.{◌≡◌, ◌++◌, IfOk, OnOk};
ghost use Rattle.std.specs.List.{flat_map};
ghost use Rattle.graph_print.specs.GraphText as spec;
ghost use Rattle.graph_print.specs.Indexed.{IsIndex};

use crate::index::{Index, find_box, index_of};
use crate::lines::{put_box_line, put_order_line, put_out_line, put_part_lines};
use qgm_core::{BoxId, Graph, Walk};
use qgm_wellformed::is_closed;
use shared_types::{OutOfMemory, Text};
use std::alloc::Global;

// Adds the lines of a box.
#[tactic(auto, unfolding(crate::specs::GraphText::box_lines))]
fn put_box(
    alloc: Global,
    graph: &Graph,
    index: &Index,
    b: BoxId,
    out: &mut Text,
) -> Result<(), OutOfMemory>
    requires { IsIndex index.now graph.now }
    ensures { OnOk result (out.new ≡ out.old ++ spec.box_lines graph.now b) }
{
    let Some(node) = find_box(graph.nodes(), b) else {
        return Ok(());
    };
    let closed = is_closed(alloc, graph.nodes(), b)?;
    put_box_line(index.boxes.place_of(b), closed, node, out)?;
    put_part_lines(&index.types, &index.boxes, &index.quants, node, out)
}

// Adds the lines of boxes.
fn put_boxes(
    alloc: Global,
    graph: &Graph,
    index: &Index,
    order: &[BoxId],
    out: &mut Text,
) -> Result<(), OutOfMemory>
    requires { IsIndex index.now graph.now }
    ensures { OnOk result (out.new ≡ out.old ++ flat_map (spec.box_lines graph.now) order.now) }
{
    for b in order {
        put_box(alloc, graph, index, *b, out)?;
    }
    Ok(())
}

/// The text of a graph: a line of its output columns, one of its order, and then the lines of each
/// box that the root reaches, in the order of the depth walk. Boxes have their places in that order
/// as numbers, from 1, and quantifiers theirs, by the numbers of their owners and then by place. Each
/// line ends with a line feed. It fails for want of memory alone.
pub fn print(alloc: Global, graph: &Graph) -> Result<Text, OutOfMemory>
    ensures { IfOk result (λ t. t ≡ spec.text_of graph.now) }
{
    let order = graph.walk(alloc, Walk::Depth)?;
    let index = index_of(alloc, graph, &order)?;
    let mut out = Text::new(alloc)?;
    put_out_line(graph.names().as_slice(), &mut out)?;
    put_order_line(graph.order().as_slice(), &mut out)?;
    put_boxes(alloc, graph, &index, &order, &mut out)?;
    Ok(out)
}
