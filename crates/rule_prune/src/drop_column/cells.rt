// Which cells of a box may go.
ghost use Rattle.std.specs.Prelude.{◌≡◌};
ghost use Rattle.rule_prune.specs.DropColumn as spec;

use qgm_core::{BoxKind, Node};

/// Whether cell k of a box may go, by the kind of the box.
pub fn may_lose(node: &Node, k: usize) -> bool
    ensures { result ≡ spec.may_lose node.now k }
{
    match &node.parts.kind {
        BoxKind::Base(_) | BoxKind::SetOp(_, _) => false,
        BoxKind::Select => !node.parts.distinct.is_enforce(),
        BoxKind::Group(keys) => *keys < k,
        BoxKind::OuterJoin => true,
    }
}
