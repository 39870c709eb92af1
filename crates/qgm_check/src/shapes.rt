// The shapes of boxes.
ghost use Rattle.std.specs.Prelude.{◌≡◌, ◌++◌, ◌&&◌, not, take, drop, length, ◌≤◌, OnOk, IfOk};
ghost use Rattle.std.specs.List.{flat_map, list_all, list_any};
ghost use Rattle.qgm_core.specs.Boxes.{is_box, owns};
ghost use Rattle.qgm_core.specs.Kinds.{is_A, is_E, is_S};
ghost use Rattle.list_laws.specs.Lists.{first};
ghost use Rattle.qgm_terms.specs.Named.{names_in};
ghost use Rattle.qgm_terms.specs.Wanted.{has_aggregate};
ghost use Rattle.qgm_terms.specs.Shown.{links, term, terms};
ghost use Rattle.qgm_wellformed.specs.Shapes as spec;

use crate::columns_fit::{box_at, width};
use qgm_core::{
    BoxId, BoxKind, Column, Gx, Link, Node, OwnedQuant, QuantId, QuantNode, Role, has_range,
};
use qgm_term_search::{
    add_columns_of_cells, add_nodes_of_cells, add_nodes_of_conds, has_aggregate, stands_in_cells,
    stands_in_conds,
};
use qgm_terms::{Sought, add_names_of_cells, both};
use qgm_wellformed::is_free_alone;
use shared_types::OutOfMemory;
use std::alloc::Global;

// Whether no operand stands behind the first one.
fn is_alone(list: &[Link]) -> bool
    ensures { result ≡ spec.is_none (links list.now) }
{
    match list {
        [] => true,
        [_, ..] => false,
    }
}

// Whether an expression is a column.
fn is_column(x: &Gx) -> bool
    ensures { result ≡ spec.is_column (term x.now) }
{
    match x {
        Gx::Col(_, _) => true,
        Gx::Chain(a, list) => both(is_alone(list), is_column(a)),
        Gx::Int(_)
        | Gx::Text(_)
        | Gx::NullInt
        | Gx::NullText
        | Gx::Scalar(_)
        | Gx::Neg(_)
        | Gx::Case(_, _)
        | Gx::CountAll
        | Gx::Fold(_, _, _) => false,
    }
}

// Whether an expression is an aggregate, whose argument holds none.
fn is_aggregate(x: &Gx) -> bool
    ensures { result ≡ spec.is_aggregate (term x.now) }
{
    match x {
        Gx::CountAll => true,
        Gx::Fold(_, _, a) => !has_aggregate(a),
        Gx::Chain(a, list) => both(is_alone(list), is_aggregate(a)),
        Gx::Int(_)
        | Gx::Text(_)
        | Gx::NullInt
        | Gx::NullText
        | Gx::Col(_, _)
        | Gx::Scalar(_)
        | Gx::Neg(_)
        | Gx::Case(_, _) => false,
    }
}

// Whether each cell of a head is a column.
fn all_columns(list: &[Gx]) -> bool
    ensures { result ≡ list_all spec.is_column (terms list.now) }
{
    for x in list {
        if !is_column(x) {
            return false;
        }
    }
    true
}

// Whether each of these cells is an aggregate.
fn all_aggregates(list: &[Gx]) -> bool
    ensures { result ≡ list_all spec.is_aggregate (terms list.now) }
{
    for x in list {
        if !is_aggregate(x) {
            return false;
        }
    }
    true
}

fn all_f(ranges: &[OwnedQuant]) -> bool
    ensures { result ≡ spec.all_F ranges.now }
{
    ranges.iter().all(|r| r.kind.is_f())
}

// Whether these are so many F quantifiers.
fn are_f(count: usize, ranges: &[OwnedQuant]) -> bool
    ensures { result ≡ spec.are_F count ranges.now }
{
    ranges.len() == count && all_f(ranges)
}

// Whether q is an S quantifier of these.
fn has_s(q: QuantId, ranges: &[OwnedQuant]) -> bool
    ensures { result ≡ spec.is_among is_S q ranges.now }
{
    ranges.iter().any(|r| r.id == q && r.kind.is_s())
}

// Whether q is an E quantifier of these.
fn has_e(q: QuantId, ranges: &[OwnedQuant]) -> bool
    ensures { result ≡ spec.is_among is_E q ranges.now }
{
    ranges.iter().any(|r| r.id == q && r.kind.is_e())
}

// Whether q is an A quantifier of these.
fn has_a(q: QuantId, ranges: &[OwnedQuant]) -> bool
    ensures { result ≡ spec.is_among is_A q ranges.now }
{
    ranges.iter().any(|r| r.id == q && r.kind.is_a())
}

// Whether a node is of an own quantifier of its kind.
fn node_fits(ranges: &[OwnedQuant], node: QuantNode) -> bool
    ensures { result ≡ spec.node_fits ranges.now node }
{
    match node {
        QuantNode::Scalar(q) => has_s(q, ranges),
        QuantNode::Some(q) => has_e(q, ranges),
        QuantNode::Every(q) => has_a(q, ranges),
    }
}

// Whether each node of a box is of an own quantifier of its kind.
fn nodes_fit(alloc: Global, node: &Node) -> Result<bool, OutOfMemory>
    ensures { IfOk result (λ k. k ≡ list_all (spec.node_fits node.now.quants) (spec.nodes_of node.now)) }
{
    let mut nodes = Vec::new(alloc);
    add_nodes_of_cells(node.parts.head.as_slice(), &mut nodes)?;
    add_nodes_of_conds(node.parts.conds.as_slice(), &mut nodes)?;
    Ok(nodes.iter().all(|n| node_fits(node.quants.as_slice(), *n)))
}

// Whether a box looks a quantifier up, outside of a some or every of it.
fn looks_up(q: QuantId, node: &Node) -> bool
    ensures { result ≡ spec.looks_up q node.now }
{
    stands_in_cells(node.parts.head.as_slice(), Sought::Row(q))
        || stands_in_conds(node.parts.conds.as_slice(), Sought::Row(q))
}

// Whether each column of an own quantifier is of an F, or stands in a some or every of it.
fn columns_placed(node: &Node) -> bool
    ensures { result ≡ spec.columns_placed node.now }
{
    node.quants
        .as_slice()
        .iter()
        .all(|r| r.kind.is_f() || !looks_up(r.id, node))
}

// Whether a head names own quantifiers alone.
fn head_is_own(alloc: Global, node: &Node) -> Result<bool, OutOfMemory>
    ensures { IfOk result (λ k. k ≡ spec.head_is_own node.now) }
{
    let mut names = Vec::new(alloc);
    add_names_of_cells(node.parts.head.as_slice(), &mut names)?;
    Ok(names.iter().all(|q| has_range(node.quants.as_slice(), *q)))
}

// Whether no aggregate stands in a box.
fn is_unfolded(node: &Node) -> bool
    ensures { result ≡ spec.is_unfolded node.now }
{
    !stands_in_cells(node.parts.head.as_slice(), Sought::Aggregate)
        && !stands_in_conds(node.parts.conds.as_slice(), Sought::Aggregate)
}

fn is_scalar_in(ranges: &[OwnedQuant], b: BoxId) -> bool
    ensures { result ≡ spec.is_scalar_in ranges.now b }
{
    ranges.iter().any(|r| r.over == b && r.kind.is_s())
}

// Whether an S quantifier ranges over the box.
fn is_scalar(nodes: &[Node], b: BoxId) -> bool
    ensures { result ≡ spec.is_scalar nodes.now b }
{
    nodes.iter().any(|n| is_scalar_in(n.quants.as_slice(), b))
}

fn magic_found(nodes: &[Node], b: BoxId) -> bool
    ensures { result ≡ spec.magic_found (first (is_box b) nodes.now) }
{
    match box_at(nodes, b) {
        Some(node) => node.parts.role.is_magic(),
        None => false,
    }
}

fn width_found(nodes: &[Node], b: BoxId) -> usize
    ensures { result ≡ spec.width_found (first (is_box b) nodes.now) }
{
    match box_at(nodes, b) {
        Some(node) => width(node),
        None => 0,
    }
}

// Appends columns of a quantifier, from the first on.
fn add_columns_from(q: QuantId, width: usize, out: &mut Vec<Column>) -> Result<(), OutOfMemory>
    ensures { OnOk result (out.new.items ≡ out.old.items ++ spec.columns_from q 1 width) }
{
    for k in 0..width {
        out.push(Column {
            quant: q,
            place: k + 1,
        })?;
    }
    Ok(())
}

// Whether the columns are the same.
fn same_columns(a: &[Column], b: &[Column]) -> bool
    ensures { result ≡ spec.same_columns a.now b.now }
{
    let [c, cs @ ..] = a else {
        return b.is_empty();
    };
    let [d, ds @ ..] = b else {
        return false;
    };
    c.quant == d.quant && c.place == d.place && same_columns(cs, ds)
}

// Whether a head is all columns of two quantifiers.
fn heads_are(
    alloc: Global,
    nodes: &[Node],
    list: &[Gx],
    first: OwnedQuant,
    second: OwnedQuant,
) -> Result<bool, OutOfMemory>
    ensures { IfOk result (λ k. k ≡ spec.heads_are (terms list.now) (spec.columns_through nodes.now first ++ spec.columns_through nodes.now second)) }
{
    let mut wanted = Vec::new(alloc);
    add_columns_from(first.id, width_found(nodes, first.over), &mut wanted)?;
    add_columns_from(second.id, width_found(nodes, second.over), &mut wanted)?;
    let mut named = Vec::new(alloc);
    add_columns_of_cells(list, &mut named)?;
    Ok(all_columns(list) && same_columns(&named, &wanted))
}

// Whether two quantifiers and a head are those of a fed box.
fn fed_by_two(
    alloc: Global,
    nodes: &[Node],
    list: &[Gx],
    first: OwnedQuant,
    second: OwnedQuant,
) -> Result<bool, OutOfMemory>
    ensures { IfOk result (λ k. k ≡ spec.fed_by_two nodes.now (terms list.now) first second) }
{
    let fed = is_free_alone(alloc, nodes, second.over, first.id)?;
    let heads = heads_are(alloc, nodes, list, first, second)?;
    Ok(first.kind.is_f() && second.kind.is_f() && magic_found(nodes, first.over) && fed && heads)
}

fn fed_by(
    alloc: Global,
    nodes: &[Node],
    list: &[Gx],
    ranges: &[OwnedQuant],
) -> Result<bool, OutOfMemory>
    ensures { IfOk result (λ k. k ≡ spec.fed_by nodes.now (terms list.now) ranges.now) }
{
    match ranges {
        [] | [_] | [_, _, _, ..] => Ok(false),
        [first, second] => fed_by_two(alloc, nodes, list, *first, *second),
    }
}

fn is_fed(alloc: Global, root: BoxId, nodes: &[Node], node: &Node) -> Result<bool, OutOfMemory>
    ensures { IfOk result (λ k. k ≡ spec.is_fed root nodes.now node.now) }
{
    let fed = fed_by(
        alloc,
        nodes,
        node.parts.head.as_slice(),
        node.quants.as_slice(),
    )?;
    Ok(node.id != root && node.parts.distinct.is_preserve() && node.parts.conds.len() == 0 && fed)
}

fn role_fits(alloc: Global, root: BoxId, nodes: &[Node], node: &Node) -> Result<bool, OutOfMemory>
    ensures { IfOk result (λ k. k ≡ spec.role_fits root nodes.now node.now node.now.parts.role) }
{
    match node.parts.role {
        Role::Plain => Ok(true),
        Role::Magic => Ok(node.parts.distinct.is_enforce() && all_f(node.quants.as_slice())),
        Role::Fed => is_fed(alloc, root, nodes, node),
    }
}

fn is_base(node: &Node) -> bool
    ensures { result ≡ spec.is_base node.now }
{
    node.quants.as_slice().is_empty()
        && node.parts.conds.len() == 0
        && node.parts.head.len() == 0
        && node.parts.role.is_plain()
}

// The first cells.
fn first_cells(list: &[Gx], count: usize) -> &[Gx]
    requires { count ≤ length list.now }
    ensures { result.now ≡ take count list.now }
{
    &list[..count]
}

// The cells behind the first ones.
fn other_cells(list: &[Gx], count: usize) -> &[Gx]
    requires { count ≤ length list.now }
    ensures { result.now ≡ drop count list.now }
{
    &list[count..]
}

// Whether no aggregate stands in the first cells.
fn keys_unfolded(keys: usize, list: &[Gx]) -> bool
    requires { keys ≤ length list.now }
    ensures { result ≡ not (list_any has_aggregate (take keys (terms list.now))) }
{
    !stands_in_cells(first_cells(list, keys), Sought::Aggregate)
}

// Whether the cells behind the first ones are aggregates.
fn others_fold(keys: usize, list: &[Gx]) -> bool
    requires { keys ≤ length list.now }
    ensures { result ≡ list_all spec.is_aggregate (drop keys (terms list.now)) }
{
    all_aggregates(other_cells(list, keys))
}

// Whether a head is keys without aggregates and then aggregates.
fn head_folds(keys: usize, list: &[Gx]) -> bool
    ensures { result ≡ spec.head_folds keys (terms list.now) }
{
    keys <= list.len() && keys_unfolded(keys, list) && others_fold(keys, list)
}

fn is_group(alloc: Global, keys: usize, node: &Node) -> Result<bool, OutOfMemory>
    ensures { IfOk result (λ k. k ≡ spec.is_group keys node.now) }
{
    let own = head_is_own(alloc, node)?;
    Ok(
        are_f(1, node.quants.as_slice())
            && node.parts.conds.len() == 0
            && node.parts.role.is_plain()
            && head_folds(keys, node.parts.head.as_slice())
            && own,
    )
}

// Whether the boxes under these have so many columns.
fn arms_fit(nodes: &[Node], width: usize, ranges: &[OwnedQuant]) -> bool
    ensures { result ≡ list_all (spec.arm_fits nodes.now width) ranges.now }
{
    ranges.iter().all(|r| width_found(nodes, r.over) == width)
}

fn is_set_op(nodes: &[Node], node: &Node) -> bool
    ensures { result ≡ spec.is_set_op nodes.now node.now }
{
    are_f(2, node.quants.as_slice())
        && arms_fit(nodes, width(node), node.quants.as_slice())
        && 0 < width(node)
        && node.parts.conds.len() == 0
        && node.parts.head.len() == 0
        && node.parts.role.is_plain()
}

fn is_outer_join(alloc: Global, node: &Node) -> Result<bool, OutOfMemory>
    ensures { IfOk result (λ k. k ≡ spec.is_outer_join node.now) }
{
    let own = head_is_own(alloc, node)?;
    Ok(
        are_f(2, node.quants.as_slice())
            && all_columns(node.parts.head.as_slice())
            && own
            && is_unfolded(node)
            && node.parts.role.is_plain(),
    )
}

fn kind_fits(alloc: Global, root: BoxId, nodes: &[Node], node: &Node) -> Result<bool, OutOfMemory>
    ensures { IfOk result (λ k. k ≡ spec.kind_fits root nodes.now node.now node.now.parts.kind) }
{
    match &node.parts.kind {
        BoxKind::Base(_) => Ok(is_base(node)),
        BoxKind::Select => {
            let role = role_fits(alloc, root, nodes, node)?;
            Ok(is_unfolded(node) && role)
        }
        BoxKind::Group(keys) => is_group(alloc, *keys, node),
        BoxKind::SetOp(_, _) => Ok(is_set_op(nodes, node)),
        BoxKind::OuterJoin => is_outer_join(alloc, node),
    }
}

// Whether a box has the shape of its kind and role, nodes of its own quantifiers, and a column if
// an S quantifier ranges over it.
pub fn shape_fits(
    alloc: Global,
    root: BoxId,
    nodes: &[Node],
    node: &Node,
) -> Result<bool, OutOfMemory>
    ensures { IfOk result (λ k. k ≡ spec.shape_fits root nodes.now node.now) }
{
    let kind = kind_fits(alloc, root, nodes, node)?;
    let own = nodes_fit(alloc, node)?;
    Ok(kind && own && columns_placed(node) && (0 < width(node) || !is_scalar(nodes, node.id)))
}
