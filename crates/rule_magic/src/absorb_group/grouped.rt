// A group with its input.
ghost use Rattle.std.specs.Prelude.{◌≡◌, option_map};
ghost use Rattle.rule_magic.specs.AbsorbGroupSteps as spec;
ghost use Rattle.list_laws.specs.Lists.{first};
ghost use Rattle.qgm_core.specs.Boxes.{is_box};

use qgm_core::{BoxKind, Graph, Node, OwnedQuant};
use rule_facts::box_at;

/// A group of so many keys: its quantifier q over the box x.
#[derive(Drop)]
pub struct Grouped<'a> {
    pub keys: usize,
    pub q: OwnedQuant,
    pub x: &'a Node,
}

// With the box under its quantifier.
fn over_found<'a>(graph: &'a Graph, keys: usize, q: OwnedQuant) -> Option<Grouped<'a>>
    ensures { option_map spec.as_grouping result ≡ spec.over_found keys q (first (is_box q.over) graph.now.boxes) }
{
    graph.each_number_once();
    let x = box_at(graph.nodes(), q.over)?;
    Some(Grouped { keys, q, x })
}

/// A box, if it is a group, with its input.
pub fn group_of<'a>(graph: &'a Graph, c: &'a Node) -> Option<Grouped<'a>>
    ensures { option_map spec.as_grouping result ≡ spec.grouping graph.now.boxes c.now }
{
    match &c.parts.kind {
        BoxKind::Group(keys) => match c.quants.as_slice() {
            [q] => over_found(graph, *keys, *q),
            [] | [_, _, ..] => None,
        },
        BoxKind::Base(_) | BoxKind::Select | BoxKind::SetOp(_, _) | BoxKind::OuterJoin => None,
    }
}
