// Where U2 may fire.
ghost use Rattle.std.specs.Prelude.{◌≡◌};
ghost use Rattle.rule_subquery.specs.GraphFacts.{AreFacts};
ghost use Rattle.rule_subquery.specs.ScalarToGroup as spec;

use crate::parts::{
    GraphFacts, any_scalar, has_at_most_one, has_exactly_one, is_error_free, is_plain_select,
};
use qgm_core::{BoxId, Graph, Node, OwnedQuant};

/// At how many boxes the rule has places no more: each firing adds one.
const MOST_BOXES: usize = 65_530;

// Whether there are few boxes.
fn is_small(graph: &Graph) -> bool
    ensures { result ≡ spec.are_few graph.now.boxes }
{
    graph.len() <= MOST_BOXES
}

/// Whether a box is a plain select with an S quantifier, in a graph of few boxes. Else U2 has no place
/// there.
pub fn may_have(graph: &Graph, node: &Node) -> bool
    ensures { result ≡ spec.may_have graph.now.boxes node.now }
{
    is_plain_select(node) && any_scalar(node.quants.as_slice()) && is_small(graph)
}

// Whether column 1 of a box is inferred error-free, or the box to have at most one row.
fn is_safe(k: &GraphFacts, b: BoxId) -> bool
    requires { AreFacts k.now }
    ensures { result ≡ spec.is_safe k.now.graph.now.boxes b }
{
    is_error_free(k, b, 1) || has_at_most_one(k, b)
}

/// Whether U2 may fire at a quantifier of a box.
pub fn may_group(k: &GraphFacts, node: &Node, r: OwnedQuant) -> bool
    requires { AreFacts k.now }
    ensures { result ≡ spec.may_scalar_to_group k.now.graph.now.boxes node.now r }
{
    is_plain_select(node)
        && r.kind.is_s()
        && !has_exactly_one(k, r.over)
        && is_safe(k, r.over)
        && is_small(k.graph)
}
