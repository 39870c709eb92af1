// Where U1 may fire, and what the distinctness of the box is then.
ghost use Rattle.std.specs.Prelude.{◌≡◌, IfOk};
ghost use Rattle.qgm_core.specs.Boxes.{width};
ghost use Rattle.qgm_props.specs.InferredKeys.{places_to};
ghost use Rattle.rule_facts.specs.Told.{infers_key};
ghost use Rattle.rule_subquery.specs.ExistsToJoin as spec;
ghost use Rattle.rule_subquery.specs.GraphFacts.{AreFacts};

use crate::exists_to_join::conjunct::one_whole;
use crate::parts::{GraphFacts, has_at_most_one, is_clean, is_plain_select, width};
use qgm_core::{Distinct, Graph, Node, OwnedQuant};
use qgm_props::props;
use qgm_term_search::stands_in_cells;
use qgm_terms::Sought;
use shared_types::OutOfMemory;
use std::alloc::Global;

// The places from w down to 1.
fn places_to(alloc: Global, w: usize) -> Result<Vec<usize>, OutOfMemory>
    ensures { IfOk result (λ v. v.items ≡ places_to w) }
{
    let mut out = Vec::new(alloc);
    let mut left = w;
    while left > 0 {
        out.push(left)?;
        left -= 1;
    }
    Ok(out)
}

// Whether it is inferred that all columns of a box hold a key.
fn has_key(alloc: Global, k: &GraphFacts, node: &Node) -> Result<bool, OutOfMemory>
    requires { AreFacts k.now }
    ensures { IfOk result (λ held. held ≡ infers_key k.now.graph.now.boxes node.now.id (places_to (width node.now))) }
{
    let columns = places_to(alloc, width(node))?;
    k.props.holds_key(alloc, k.graph, node.id, &columns)
}

// Whether r is an E of a plain select, whose one node is a whole conjunct.
fn is_joinable(node: &Node, r: OwnedQuant) -> bool
    ensures { result ≡ spec.is_joinable node.now r }
{
    is_plain_select(node)
        && r.kind.is_e()
        && !stands_in_cells(node.parts.head.as_slice(), Sought::NodeOf(r.id))
        && one_whole(node.parts.conds.as_slice(), r.id)
}

/// Whether a box has such a quantifier. Else U1 has no place there.
pub fn any_joinable(node: &Node) -> bool
    ensures { result ≡ spec.any_joinable node.now }
{
    node.quants.as_slice().iter().any(|r| is_joinable(node, *r))
}

// Whether rows don't count, since each is given once or may be given more often.
fn is_set(k: &GraphFacts, node: &Node) -> bool
    requires { AreFacts k.now }
    ensures { result ≡ spec.is_set k.now.graph.now.boxes node.now }
{
    node.parts.distinct.is_enforce() || (node.parts.distinct.is_permit() && is_clean(k, node.id))
}

/// Whether repeated rows do no harm at a box, or are told by a key: then each of its E fits.
pub fn each_fits(alloc: Global, k: &GraphFacts, node: &Node) -> Result<bool, OutOfMemory>
    requires { AreFacts k.now }
    ensures { IfOk result (λ each. each ≡ spec.each_fits k.now.graph.now.boxes node.now) }
{
    if is_set(k, node) {
        return Ok(true);
    }
    has_key(alloc, k, node)
}

/// Whether U1 may fire at a quantifier of a box, each or not each of whose E fits: where its box has at
/// most one row, it does. Its one node is sought last: that takes all conjuncts.
pub fn may_join(k: &GraphFacts, node: &Node, each: bool, r: OwnedQuant) -> bool
    requires known { AreFacts k.now }
    requires each { each ≡ spec.each_fits k.now.graph.now.boxes node.now }
    ensures { result ≡ spec.may_exists_to_join k.now.graph.now.boxes node.now r }
{
    r.kind.is_e() && (each || has_at_most_one(k, r.over)) && is_joinable(node, r)
}

/// What the distinctness of the box is then: its own, and ENFORCE where only a key lets U1 fire.
pub fn distinct_after(
    alloc: Global,
    graph: &Graph,
    node: &Node,
    r: OwnedQuant,
) -> Result<Distinct, OutOfMemory>
    ensures { IfOk result (λ d. d ≡ spec.distinct_after graph.now.boxes node.now r) }
{
    let props = props(alloc, graph)?;
    let k = GraphFacts {
        graph,
        props: &props,
    };
    if is_set(&k, node) || has_at_most_one(&k, r.over) {
        return Ok(node.parts.distinct);
    }
    Ok(Distinct::Enforce)
}
