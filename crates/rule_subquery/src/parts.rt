// What kind of box it is, and what is inferred of a graph.
ghost use Rattle.std.specs.Prelude.{◌≡◌, ◌≤◌, ◌-◌, length, slice_get, Some};
ghost use Rattle.qgm_core.specs.Boxes.{HasBox, quants_of, width};
ghost use Rattle.qgm_props.specs.Inferred.{at_most_one, clean, error_free, exactly_one};
ghost use Rattle.rule_facts.specs.Places as places;
ghost use Rattle.rule_facts.specs.Told.{infers};
ghost use Rattle.rule_subquery.specs.GraphFacts.{AreFacts};
ghost use Rattle.rule_subquery.specs.ScalarToGroup.{any_scalar};

use qgm_core::{BoxId, BoxKind, Graph, Node, OwnedQuant};
use qgm_props::Props;
use rule_facts::box_at;

/// Whether a box is a plain select.
pub fn is_plain_select(node: &Node) -> bool
    ensures { result ≡ places.is_plain_select node.now }
{
    node.parts.kind.is_select() && node.parts.role.is_plain()
}

/// Whether one of these is an S quantifier.
pub fn any_scalar(ranges: &[OwnedQuant]) -> bool
    ensures { result ≡ any_scalar ranges.now }
{
    ranges.iter().any(|r| r.kind.is_s())
}

/// How many columns a box has.
pub fn width(node: &Node) -> usize
    ensures { result ≡ width node.now }
{
    match &node.parts.kind {
        BoxKind::Base(base) => base.types.len(),
        BoxKind::SetOp(_, types) => types.len(),
        BoxKind::Select | BoxKind::Group(_) | BoxKind::OuterJoin => node.parts.head.len(),
    }
}

/// A graph, and what is inferred of it.
#[derive(Drop)]
pub struct GraphFacts<'a> {
    pub graph: &'a Graph,
    pub props: &'a Props,
}

/// Whether it is inferred that no row of a box is at an error level.
pub fn is_clean(k: &GraphFacts, b: BoxId) -> bool
    requires { AreFacts k.now }
    ensures { result ≡ infers k.now.graph.now.boxes (clean b) }
{
    k.props.clean(b)
}

/// Whether it is inferred that no row of a box holds an error in a column, from 1.
pub fn is_error_free(k: &GraphFacts, b: BoxId, column: usize) -> bool
    requires { AreFacts k.now }
    ensures { result ≡ infers k.now.graph.now.boxes (error_free b column) }
{
    k.props.error_free(b, column)
}

/// Whether it is inferred that at most one row of a box is there.
pub fn has_at_most_one(k: &GraphFacts, b: BoxId) -> bool
    requires { AreFacts k.now }
    ensures { result ≡ infers k.now.graph.now.boxes (at_most_one b) }
{
    k.props.at_most_one(b)
}

/// Whether it is inferred that exactly one row of a box is there.
pub fn has_exactly_one(k: &GraphFacts, b: BoxId) -> bool
    requires { AreFacts k.now }
    ensures { result ≡ infers k.now.graph.now.boxes (exactly_one b) }
{
    k.props.exactly_one(b)
}

/// A quantifier of a box, by its place from 1.
pub fn quant_at(graph: &Graph, b: BoxId, i: usize) -> OwnedQuant
    requires held { HasBox b graph.now }
    requires from_one { 1 ≤ i }
    requires within { i ≤ length (quants_of b graph.now) }
    ensures { Some result ≡ slice_get (quants_of b graph.now) (i - 1) }
{
    graph.each_number_once();
    let Some(node) = box_at(graph.nodes(), b) else {
        unreachable!()
    };
    node.quants.as_slice()[i - 1]
}
