// What is known of a column: over which box it is, and whether it is inferred to hold no error.
ghost use Rattle.std.specs.Prelude.{◌≡◌, option_map};
ghost use Rattle.qgm_core.specs.Boxes.{is_quant, owns, range_in};
ghost use Rattle.list_laws.specs.Lists.{first};
ghost use Rattle.qgm_props.specs.Laws.{Tells};
ghost use Rattle.qgm_props.specs.Table.{facts_of};
ghost use Rattle.rule_trans.specs.EqualColumnsPlaces as spec;
ghost use Rattle.rule_trans.specs.EqualLiteralPlaces as bases;

use qgm_core::{Column, Graph, Node, OwnedQuant, QuantId, has_range};
use qgm_props::Props;
use rule_facts::box_at;

// The owner of a quantifier.
fn owner_of(nodes: &[Node], q: QuantId) -> Option<&Node>
    ensures { option_map (λ n. n.now) result ≡ first (owns q) nodes.now }
{
    for node in nodes {
        if has_range(node.quants.as_slice(), q) {
            return Some(node);
        }
    }
    None
}

// A quantifier in its owner.
fn range_at(ranges: &[OwnedQuant], q: QuantId) -> Option<OwnedQuant>
    ensures { result ≡ first (is_quant q) ranges.now }
{
    for range in ranges {
        if range.id == q {
            return Some(*range);
        }
    }
    None
}

// A quantifier among those of all boxes.
fn range_of(nodes: &[Node], q: QuantId) -> Option<OwnedQuant>
    ensures { result ≡ range_in q (first (owns q) nodes.now) }
{
    let owner = owner_of(nodes, q)?;
    range_at(owner.quants.as_slice(), q)
}

/// Whether it is inferred that a column holds no error, by what is inferred of the graph.
pub fn infers_free(graph: &Graph, known: &Props, b: Column) -> bool
    requires { Tells (facts_of known.now) graph.now.boxes }
    ensures { result ≡ spec.infers_free graph.now b }
{
    match range_of(graph.nodes(), b.quant) {
        Some(range) => known.error_free(range.over, b.place),
        None => false,
    }
}

// Whether a quantifier is an F over a base.
fn is_over_base(graph: &Graph, range: OwnedQuant) -> bool
    ensures { result ≡ bases.is_over_base graph.now range }
{
    graph.each_number_once();
    if !range.kind.is_f() {
        return false;
    }
    match box_at(graph.nodes(), range.over) {
        Some(node) => node.parts.kind.is_base(),
        None => false,
    }
}

/// Whether a quantifier, of whichever box, is an F over a base.
#[tactic(auto, unfolding(crate::specs::EqualLiteralPlaces::ranges_over_base))]
pub fn ranges_over_base(graph: &Graph, q: QuantId) -> bool
    ensures { result ≡ bases.ranges_over_base graph.now q }
{
    match range_of(graph.nodes(), q) {
        Some(range) => is_over_base(graph, range),
        None => false,
    }
}
