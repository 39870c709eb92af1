// Whether a box gives what the box under it gives.
ghost use Rattle.std.specs.Prelude.{◌≡◌, IfOk, Some, option_map};
ghost use Rattle.std.specs.List.{list_any};
ghost use Rattle.qgm_core.specs.Boxes.{is_box, numbers, width};
ghost use Rattle.list_laws.specs.Lists.{EachOnce, first};
ghost use Rattle.qgm_terms.specs.Shown.{conds, term};
ghost use Rattle.qgm_terms.specs.Terms.{col};
ghost use Rattle.rule_merge.specs.DropCopy as spec;

use qgm_core::{BoxId, BoxKind, Gc, Graph, Gx, Head, Node, OwnedQuant, QuantId};
use qgm_term_search::same_term;
use rule_facts::box_at;
use shared_types::OutOfMemory;
use std::alloc::Global;

// How many columns a box has.
fn width(node: &Node) -> usize
    ensures { result ≡ width node.now }
{
    match &node.parts.kind {
        BoxKind::Base(base) => base.types.len(),
        BoxKind::SetOp(_, types) => types.len(),
        BoxKind::Select | BoxKind::Group(_) | BoxKind::OuterJoin => node.parts.head.len(),
    }
}

fn no_cond(list: &[Gc]) -> bool
    ensures { result ≡ spec.no_cond (conds list.now) }
{
    match list {
        [] => true,
        [_, ..] => false,
    }
}

// Whether an expression is column k of q.
fn is_col(alloc: Global, x: &Gx, q: QuantId, k: usize) -> Result<bool, OutOfMemory>
    ensures { IfOk result (λ same. same ≡ spec.is_col q k (term x.now)) }
{
    let wanted = Gx::Col(q, k);
    let same = same_term(alloc, x, &wanted)?;
    Ok(same)
}

// Whether a head is the columns of q from the first on.
fn are_columns(alloc: Global, head: &Head, q: QuantId) -> Result<bool, OutOfMemory>
    ensures { IfOk result (λ all. all ≡ spec.are_columns q 1 head.now) }
{
    for k in 0..head.len() {
        let cell = head.at(k + 1);
        let same = is_col(alloc, cell, q, k + 1)?;
        if !same {
            return Ok(false);
        }
    }
    Ok(true)
}

// Whether a head is all columns of a quantifier over this box.
fn gives_all(alloc: Global, node: &Node, q: QuantId, head: &Head) -> Result<bool, OutOfMemory>
    ensures { IfOk result (λ all. all ≡ spec.gives_all (Some node.now) q head.now) }
{
    if head.len() != width(node) {
        return Ok(false);
    }
    are_columns(alloc, head, q)
}

// Whether a head is all columns of this quantifier, an F.
fn copies_one(
    alloc: Global,
    nodes: &[Node],
    head: &Head,
    r: OwnedQuant,
) -> Result<bool, OutOfMemory>
    requires { EachOnce (numbers nodes.now) }
    ensures { IfOk result (λ all. all ≡ spec.copies_one nodes.now head.now r) }
{
    if !r.kind.is_f() {
        return Ok(false);
    }
    let Some(node) = box_at(nodes, r.over) else {
        return Ok(false);
    };
    gives_all(alloc, node, r.id, head)
}

// Whether there is one quantifier, an F, of whose box the head is all columns.
fn copies_by(
    alloc: Global,
    nodes: &[Node],
    head: &Head,
    ranges: &[OwnedQuant],
) -> Result<bool, OutOfMemory>
    requires { EachOnce (numbers nodes.now) }
    ensures { IfOk result (λ all. all ≡ spec.copies_by nodes.now head.now ranges.now) }
{
    match ranges {
        [] | [_, _, ..] => Ok(false),
        [r] => copies_one(alloc, nodes, head, *r),
    }
}

fn ranges_over(ranges: &[OwnedQuant], b: BoxId) -> bool
    ensures { result ≡ spec.ranges_over b ranges.now }
{
    ranges.iter().any(|r| r.over == b)
}

// Whether a box is fed and owns a quantifier over b.
fn feeds(node: &Node, b: BoxId) -> bool
    ensures { result ≡ spec.feeds b node.now }
{
    node.parts.role.is_fed() && ranges_over(node.quants.as_slice(), b)
}

fn is_fed_by(nodes: &[Node], b: BoxId) -> bool
    ensures { result ≡ list_any (spec.feeds b) nodes.now }
{
    nodes.iter().any(|n| feeds(n, b))
}

fn is_plain_copy(node: &Node) -> bool
    ensures { result ≡ spec.is_plain_copy node.now }
{
    node.parts.kind.is_select()
        && node.parts.role.is_plain()
        && node.parts.distinct.is_preserve()
        && no_cond(node.parts.conds.as_slice())
}

fn is_copy(alloc: Global, graph: &Graph, node: &Node) -> Result<bool, OutOfMemory>
    ensures { IfOk result (λ copy. copy ≡ spec.is_copy graph.now node.now) }
{
    if !is_plain_copy(node) {
        return Ok(false);
    }
    graph.each_number_once();
    let all = copies_by(
        alloc,
        graph.nodes(),
        &node.parts.head,
        node.quants.as_slice(),
    )?;
    Ok(all && !is_fed_by(graph.nodes(), node.id))
}

// Whether a box gives what the box under it gives, and no fed box owns a quantifier over it.
pub fn copies(alloc: Global, graph: &Graph, b: BoxId) -> Result<bool, OutOfMemory>
    ensures { IfOk result (λ copy. copy ≡ spec.copies graph.now b) }
{
    graph.each_number_once();
    let Some(node) = box_at(graph.nodes(), b) else {
        return Ok(false);
    };
    is_copy(alloc, graph, node)
}

/// Whether M2 has a place at a box.
pub fn may_go(alloc: Global, graph: &Graph, b: BoxId) -> Result<bool, OutOfMemory>
    ensures { IfOk result (λ may. may ≡ spec.may_go graph.now b) }
{
    if b == graph.root() {
        return Ok(false);
    }
    copies(alloc, graph, b)
}
