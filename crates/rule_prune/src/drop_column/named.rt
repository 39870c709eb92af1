// Which columns of a box are named, and whether a set operation ranges over it.
ghost use Rattle.std.specs.Prelude.{ℕ, ◌≡◌, ◌≤◌, ◌++◌, [], true, length, IfOk, IfSome, IsTrue, None, OnOk};
ghost use Rattle.list_laws.specs.Lists.{holds};
ghost use Rattle.qgm_core.specs.Edits as edits;
ghost use Rattle.qgm_edit_laws.specs.Changes as changes;
ghost use Rattle.rule_prune.specs.DropColumn.{AllNamed, may_lose};
ghost use Rattle.rule_prune.specs.NamedColumns as spec;

use crate::drop_column::cells::may_lose;
use qgm_core::{BoxId, BoxKind, Column, Marks, Node, OwnedQuant, QuantNode};
use qgm_term_search::{
    add_columns_of_cells, add_columns_of_conds, add_nodes_of_cells, add_nodes_of_conds,
};
use shared_types::OutOfMemory;
use std::alloc::Global;

fn is_set_op(kind: &BoxKind) -> bool
    ensures { result ≡ changes.is_set_op kind.now }
{
    match kind {
        BoxKind::SetOp(_, _) => true,
        BoxKind::Base(_) | BoxKind::Select | BoxKind::Group(_) | BoxKind::OuterJoin => false,
    }
}

// Whether a quantifier of a box ranges over b.
fn has_over(node: &Node, b: BoxId) -> bool
    ensures { result ≡ spec.has_over b node.now }
{
    node.quants.as_slice().iter().any(|r| r.over == b)
}

/// Whether a set operation ranges over b.
pub fn is_operand(nodes: &[Node], b: BoxId) -> bool
    ensures { result ≡ spec.is_operand b nodes.now }
{
    nodes
        .iter()
        .any(|n| is_set_op(&n.parts.kind) && has_over(n, b))
}

// Marks those of these quantifiers that range over b.
fn mark_over(ranges: &[OwnedQuant], b: BoxId, marks: &mut Marks) -> Result<(), OutOfMemory>
    ensures { OnOk result (marks.new ≡ marks.old ++ edits.ids_over b ranges.now) }
{
    for r in ranges {
        if r.over == b {
            marks.push(r.id)?;
        }
    }
    Ok(())
}

// Marks the places of those of these columns that are of such quantifiers.
fn mark_places(columns: &[Column], quants: &Marks, named: &mut Marks) -> Result<(), OutOfMemory>
    ensures { OnOk result (named.new ≡ named.old ++ spec.places_of quants.now columns.now) }
{
    for c in columns {
        if quants.has(c.quant) {
            named.push(c.place)?;
        }
    }
    Ok(())
}

// Whether it is a scalar of such a quantifier.
fn is_scalar_of(node: QuantNode, quants: &Marks) -> bool
    ensures { result ≡ spec.is_scalar_of quants.now node }
{
    match node {
        QuantNode::Scalar(q) => quants.has(q),
        QuantNode::Some(_) | QuantNode::Every(_) => false,
    }
}

// Marks column 1 for each scalar of such a quantifier.
fn mark_firsts(nodes: &[QuantNode], quants: &Marks, named: &mut Marks) -> Result<(), OutOfMemory>
    ensures { OnOk result (named.new ≡ named.old ++ spec.firsts_of quants.now nodes.now) }
{
    for node in nodes {
        if is_scalar_of(*node, quants) {
            named.push(1)?;
        }
    }
    Ok(())
}

// Marks the columns of such quantifiers that a box names, over two lists that are filled anew.
fn mark_box(
    node: &Node,
    quants: &Marks,
    columns: &mut Vec<Column>,
    nodes: &mut Vec<QuantNode>,
    named: &mut Marks,
) -> Result<(), OutOfMemory>
    ensures { OnOk result (named.new ≡ named.old ++ spec.named_in_box quants.now node.now) }
{
    columns.clear();
    add_columns_of_cells(node.parts.head.as_slice(), columns)?;
    add_columns_of_conds(node.parts.conds.as_slice(), columns)?;
    mark_places(columns, quants, named)?;
    nodes.clear();
    add_nodes_of_cells(node.parts.head.as_slice(), nodes)?;
    add_nodes_of_conds(node.parts.conds.as_slice(), nodes)?;
    mark_firsts(nodes, quants, named)
}

// The columns of these quantifiers that boxes name.
fn named_in(alloc: Global, nodes: &[Node], quants: &Marks) -> Result<Marks, OutOfMemory>
    ensures { IfOk result (λ m. m ≡ spec.named_in quants.now nodes.now) }
{
    let mut named = Marks::new(alloc);
    let mut columns = Vec::new(alloc);
    let mut found = Vec::new(alloc);
    for node in nodes {
        mark_box(node, quants, &mut columns, &mut found, &mut named)?;
    }
    Ok(named)
}

// The quantifiers over b. It marks columns of b that their owners name: mostly all that are named.
fn quants_over(
    alloc: Global,
    nodes: &[Node],
    b: BoxId,
    named: &mut Marks,
) -> Result<Marks, OutOfMemory>
    requires { named.old ≡ [] }
    ensures quants { IfOk result (λ m. m ≡ edits.quants_over b nodes.now) }
    ensures named { OnOk result ((k : ℕ) → holds k named.new ≡ true → holds k (spec.named_of b nodes.now) ≡ true) }
{
    let mut quants = Marks::new(alloc);
    let mut columns = Vec::new(alloc);
    let mut found = Vec::new(alloc);
    for node in nodes {
        if has_over(node, b) {
            mark_over(node.quants.as_slice(), b, &mut quants)?;
            mark_box(node, &quants, &mut columns, &mut found, named)?;
        }
    }
    Ok(quants)
}

// Whether all columns that may go are among these.
fn all_among(node: &Node, named: &Marks) -> bool
    ensures { IsTrue result → ((k : ℕ) → 1 ≤ k → k ≤ length node.now.parts.head → may_lose node.now k ≡ true → holds k named.now ≡ true) }
{
    for k in 0..node.parts.head.len() {
        if may_lose(node, k + 1) && !named.has(k + 1) {
            return false;
        }
    }
    true
}

/// The columns of a box that boxes name, or none where all that may go are named. Mostly the boxes
/// right above it name them all, and then no others are looked at.
pub fn named_unless_all(
    alloc: Global,
    nodes: &[Node],
    node: &Node,
) -> Result<Option<Marks>, OutOfMemory>
    ensures mask { IfOk result (λ o. IfSome o (λ m. m ≡ spec.named_of node.now.id nodes.now)) }
    ensures all { IfOk result (λ o. o ≡ None → AllNamed nodes.now node.now) }
{
    let mut above = Marks::new(alloc);
    let quants = quants_over(alloc, nodes, node.id, &mut above)?;
    if all_among(node, &above) {
        return Ok(None);
    }
    let named = named_in(alloc, nodes, &quants)?;
    Ok(Some(named))
}
