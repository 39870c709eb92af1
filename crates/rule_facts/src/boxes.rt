// The box of a number.
ghost use Rattle.std.specs.Prelude.{◌≡◌, option_map};
ghost use Rattle.qgm_core.specs.Boxes.{is_box, numbers};
ghost use Rattle.list_laws.specs.Lists.{EachOnce, first};

use qgm_core::{BoxId, Node};

// The box of a number, sought among all.
fn box_among(nodes: &[Node], b: BoxId) -> Option<&Node>
    ensures { option_map (λ n. n.now) result ≡ first (is_box b) nodes.now }
{
    for node in nodes {
        if node.id == b {
            return Some(node);
        }
    }
    None
}

/// The box of a number. Boxes stand mostly by descending numbers, so it is looked for by halves first.
pub fn box_at(nodes: &[Node], b: BoxId) -> Option<&Node>
    requires { EachOnce (numbers nodes.now) }
    ensures { option_map (λ n. n.now) result ≡ first (is_box b) nodes.now }
{
    let i = nodes.partition_point(|n| n.id > b);
    if i < nodes.len() && nodes[i].id == b {
        return Some(&nodes[i]);
    }
    box_among(nodes, b)
}
