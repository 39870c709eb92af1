// Whether U4 has a place at a box.
ghost use Rattle.std.specs.Prelude.{◌≡◌, IfOk};
ghost use Rattle.qgm_core.specs.Boxes.{box_of};
ghost use Rattle.qgm_props.specs.Laws.{KeptOf};
ghost use Rattle.rule_facts.specs.Places.{in_box};
ghost use Rattle.rule_subquery.specs.GraphFacts.{AreFacts};
ghost use Rattle.rule_subquery.specs.SetToExists as spec;

use crate::parts::{GraphFacts, is_clean, is_error_free};
use qgm_core::{BoxId, BoxKind, Graph, Node, OwnedQuant, SetOperator};
use qgm_props::Inference;
use rule_facts::box_at;
use shared_types::OutOfMemory;
use std::alloc::Global;

// Whether the operator is INTERSECT or EXCEPT, without ALL.
fn is_intersect_or_except(form: SetOperator) -> bool
    ensures { result ≡ spec.is_intersect_or_except form }
{
    match form {
        SetOperator::Intersect | SetOperator::Except => true,
        SetOperator::UnionAll
        | SetOperator::Union
        | SetOperator::IntersectAll
        | SetOperator::ExceptAll => false,
    }
}

// Whether columns 1 to w of both boxes are inferred error-free.
fn all_free(k: &GraphFacts, l: OwnedQuant, r: OwnedQuant, w: usize) -> bool
    requires { AreFacts k.now }
    ensures { result ≡ spec.all_free k.now.graph.now.boxes l r w }
{
    let mut left = w;
    while left > 0 {
        if !(is_error_free(k, l.over, left) && is_error_free(k, r.over, left)) {
            return false;
        }
        left -= 1;
    }
    true
}

// Whether both boxes are inferred clean, and all their columns error-free.
fn arms_fit(
    alloc: Global,
    graph: &Graph,
    known: &mut Inference,
    w: usize,
    l: OwnedQuant,
    r: OwnedQuant,
) -> Result<bool, OutOfMemory>
    requires { KeptOf known.old graph.now.boxes }
    ensures known { KeptOf known.new graph.now.boxes }
    ensures test { IfOk result (λ fit. fit ≡ spec.arms_fit graph.now.boxes w l r) }
{
    let facts = known.take(alloc, graph)?;
    let k = GraphFacts {
        graph,
        props: &facts,
    };
    let fit = is_clean(&k, l.over) && is_clean(&k, r.over) && all_free(&k, l, r, w);
    known.put(facts);
    Ok(fit)
}

// Whether there are two arms, which fit.
fn both_fit(
    alloc: Global,
    graph: &Graph,
    known: &mut Inference,
    w: usize,
    ranges: &[OwnedQuant],
) -> Result<bool, OutOfMemory>
    requires { KeptOf known.old graph.now.boxes }
    ensures known { KeptOf known.new graph.now.boxes }
    ensures test { IfOk result (λ fit. fit ≡ spec.of_two (spec.arms_fit graph.now.boxes w) ranges.now) }
{
    match ranges {
        [] | [_] | [_, _, _, ..] => Ok(false),
        [l, r] => arms_fit(alloc, graph, known, w, *l, *r),
    }
}

// Whether U4 may fire at a box.
fn may_set_to_exists(
    alloc: Global,
    graph: &Graph,
    known: &mut Inference,
    node: &Node,
) -> Result<bool, OutOfMemory>
    requires { KeptOf known.old graph.now.boxes }
    ensures known { KeptOf known.new graph.now.boxes }
    ensures test { IfOk result (λ passes. passes ≡ spec.may_set_to_exists graph.now.boxes node.now) }
{
    match &node.parts.kind {
        BoxKind::SetOp(form, types) => {
            if !is_intersect_or_except(*form) {
                return Ok(false);
            }
            both_fit(alloc, graph, known, types.len(), node.quants.as_slice())
        }
        BoxKind::Base(_) | BoxKind::Select | BoxKind::Group(_) | BoxKind::OuterJoin => Ok(false),
    }
}

/// Whether U4 has a place at the box of a number.
pub fn may_at(
    alloc: Global,
    graph: &Graph,
    known: &mut Inference,
    b: BoxId,
) -> Result<bool, OutOfMemory>
    requires { KeptOf known.old graph.now.boxes }
    ensures known { KeptOf known.new graph.now.boxes }
    ensures test { IfOk result (λ passes. passes ≡ in_box (spec.may_set_to_exists graph.now.boxes) (box_of b graph.now)) }
{
    graph.each_number_once();
    match box_at(graph.nodes(), b) {
        Some(node) => may_set_to_exists(alloc, graph, known, node),
        None => Ok(false),
    }
}
