// Where U3 may fire.
ghost use Rattle.std.specs.Prelude.{◌≡◌};
ghost use Rattle.rule_subquery.specs.GraphFacts.{AreFacts};
ghost use Rattle.rule_subquery.specs.ScalarToJoin as spec;

use crate::parts::{GraphFacts, any_scalar, has_exactly_one, is_clean, is_plain_select};
use qgm_core::{Node, OwnedQuant};

/// Whether a box is a plain select with an S quantifier. Else U3 has no place there.
pub fn may_have(node: &Node) -> bool
    ensures { result ≡ spec.may_have node.now }
{
    is_plain_select(node) && any_scalar(node.quants.as_slice())
}

/// Whether U3 may fire at a quantifier of a box.
pub fn may_join(k: &GraphFacts, node: &Node, r: OwnedQuant) -> bool
    requires { AreFacts k.now }
    ensures { result ≡ spec.may_scalar_to_join k.now.graph.now.boxes node.now r }
{
    is_plain_select(node) && r.kind.is_s() && is_clean(k, r.over) && has_exactly_one(k, r.over)
}
