// Names of columns, where a box loses a column.
ghost use Rattle.std.specs.Prelude.{◌≡◌, ◌<◌, length, slice_get};
ghost use Rattle.qgm_core.specs.Boxes.{quants_in};
ghost use Rattle.qgm_core.specs.Edits.{ids_over, shift_boxes, shifted_over};
ghost use Rattle.list_laws.specs.Lists.{each};

use crate::kinds::BoxId;
use crate::node::Node;
use qgm_terms::QuantId;

// Shifts names of later columns of a quantifier that loses its column k, in all boxes.
fn shift_nodes(nodes: &mut Vec<Node>, q: QuantId, k: usize)
    ensures { nodes.new.items ≡ shift_boxes k q nodes.old.items }
{
    for i in 0..nodes.len() {
        let parts = &mut nodes[i].parts;
        parts.head.shift(q, k);
        parts.conds.shift(q, k);
    }
}

// The same for each quantifier of the box at a place, from 0, that ranges over box b.
fn shift_owned(nodes: &mut Vec<Node>, i: usize, b: BoxId, k: usize)
    requires { i < length nodes.old.items }
    ensures { nodes.new.items ≡ each (shift_boxes k) (ids_over b (quants_in (slice_get nodes.old.items i))) nodes.old.items }
{
    for j in 0..nodes[i].quants.as_slice().len() {
        let range = nodes[i].quants.as_slice()[j];
        if range.over == b {
            shift_nodes(nodes, range.id, k);
        }
    }
}

// The same for each quantifier that ranges over box b.
pub fn shift_over(nodes: &mut Vec<Node>, b: BoxId, k: usize)
    ensures { nodes.new.items ≡ shifted_over b k nodes.old.items }
{
    for i in 0..nodes.len() {
        shift_owned(nodes, i, b, k);
    }
}
