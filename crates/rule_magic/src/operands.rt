// A box with two quantifiers, with the boxes under them.
ghost use Rattle.std.specs.Prelude.{◌≡◌, IfOk, option_map};
ghost use Rattle.list_laws.specs.Lists.{first};
ghost use Rattle.qgm_core.specs.Boxes.{is_box};
ghost use Rattle.rule_magic.specs.AbsorbArms.{role_over};
ghost use Rattle.rule_magic.specs.Operands as spec;

use qgm_core::{BoxId, Graph, Node, OwnedQuant, Role};
use rule_facts::{box_at, is_closed};
use shared_types::OutOfMemory;
use std::alloc::Global;

/// The two operands of a box: its quantifiers l over x and r over y.
#[derive(Drop)]
pub struct Operands<'a> {
    pub l: OwnedQuant,
    pub x: &'a Node,
    pub r: OwnedQuant,
    pub y: &'a Node,
}

// With the boxes under both quantifiers.
fn both_under<'a>(graph: &'a Graph, l: OwnedQuant, r: OwnedQuant) -> Option<Operands<'a>>
    ensures { option_map spec.as_pair result ≡ spec.both_under l r (first (is_box l.over) graph.now.boxes) (first (is_box r.over) graph.now.boxes) }
{
    graph.each_number_once();
    let x = box_at(graph.nodes(), l.over)?;
    let y = box_at(graph.nodes(), r.over)?;
    Some(Operands { l, x, r, y })
}

/// The operands of a box, if it has two quantifiers.
pub fn operands_of<'a>(graph: &'a Graph, c: &'a Node) -> Option<Operands<'a>>
    ensures { option_map spec.as_pair result ≡ spec.pair_under graph.now.boxes c.now.quants }
{
    match c.quants.as_slice() {
        [l, r] => both_under(graph, *l, *r),
        [] | [_] | [_, _, _, ..] => None,
    }
}

/// The role of the select over the magic box and another: fed where that one is open. It fails only for
/// want of memory.
pub fn role_over(alloc: Global, graph: &Graph, b: BoxId) -> Result<Role, OutOfMemory>
    ensures { IfOk result (λ role. role ≡ role_over graph.now.boxes b) }
{
    let closed = is_closed(alloc, graph, b)?;
    Ok(if closed { Role::Plain } else { Role::Fed })
}
