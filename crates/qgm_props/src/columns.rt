// What is inferred of the columns of a box.
ghost use Rattle.std.specs.Prelude.{◌≡◌, ◌≤◌, ◌&&◌, option_map, take};
ghost use Rattle.std.specs.List.{list_any};
ghost use Rattle.qgm_core.specs.Boxes.{is_quant};
ghost use Rattle.list_laws.specs.Lists.{holds};
ghost use Rattle.qgm_terms.specs.Shown.{aggregate, links, term, terms};
ghost use Rattle.qgm_props.specs.Inferred as spec;
ghost use Rattle.qgm_props.specs.Table.{element, facts_of};

use crate::expressions::{is_alone, is_free};
use crate::fact_table::FactTable;
use crate::facts::{has_at_most_one, is_clean, is_error_free};
use crate::range_table::RangeTable;
use crate::ranges::is_not_null_under;
use qgm_core::{BoxKind, Gx, Node, OwnedQuant, QuantId, SetOperator, is_marked};
use qgm_terms::{Aggregate, both};

// Whether a column of the boxes under the first two quantifiers is known to hold no error.
pub fn is_free_in_arms(table: &FactTable, ranges: &[OwnedQuant], k: usize) -> bool
    ensures { result ≡ spec.under_two (λ b. (facts_of table.now).error_free b k) ranges.now }
{
    match ranges {
        [] => false,
        [_] => false,
        [p, q, ..] => both(
            is_error_free(table, p.over, k),
            is_error_free(table, q.over, k),
        ),
    }
}

// Whether the box under the first quantifier is known to have at most one row.
fn is_single_first(table: &FactTable, ranges: &[OwnedQuant]) -> bool
    ensures { result ≡ spec.under_first (facts_of table.now).at_most_one ranges.now }
{
    match ranges {
        [] => false,
        [p, ..] => has_at_most_one(table, p.over),
    }
}

// The cell at a place, from 1.
pub fn cell_at(head: &[Gx], k: usize) -> Option<&Gx>
    ensures { option_map (λ x. x.now) result ≡ element k head.now }
{
    if k == 0 {
        return None;
    }
    head.get(k - 1)
}

// Whether the cell at a place is without errors.
fn is_free_at(nodes: &RangeTable<'_>, table: &FactTable, one: bool, head: &[Gx], k: usize) -> bool
    ensures { result ≡ spec.at_place (spec.is_free nodes.now (facts_of table.now) one) (terms head.now) k }
{
    match cell_at(head, k) {
        Some(x) => is_free(nodes, table, one, x),
        None => false,
    }
}

// Whether a column of a set operation holds no error.
fn is_op_free(
    nodes: &RangeTable<'_>,
    table: &FactTable,
    operator: SetOperator,
    node: &Node,
    k: usize,
) -> bool
    ensures { result ≡ spec.free_op nodes.now (facts_of table.now) operator node.now.id node.now.quants k }
{
    let _boxes = nodes;
    let arms = is_free_in_arms(table, node.quants.as_slice(), k);
    match operator {
        SetOperator::UnionAll | SetOperator::Union => arms,
        SetOperator::IntersectAll
        | SetOperator::Intersect
        | SetOperator::ExceptAll
        | SetOperator::Except => both(is_clean(table, node.id), arms),
    }
}

// Whether a column holds no error.
pub fn is_column_free(nodes: &RangeTable<'_>, table: &FactTable, node: &Node, k: usize) -> bool
    ensures { result ≡ spec.free_by nodes.now (facts_of table.now) node.now.parts.kind node.now k }
{
    let head = node.parts.head.as_slice();
    match &node.parts.kind {
        BoxKind::Base(_) => true,
        BoxKind::Select | BoxKind::OuterJoin => is_free_at(nodes, table, false, head, k),
        BoxKind::Group(_) => {
            let one = is_single_first(table, node.quants.as_slice());
            both(
                is_clean(table, node.id),
                is_free_at(nodes, table, one, head, k),
            )
        }
        BoxKind::SetOp(operator, _) => is_op_free(nodes, table, *operator, node, k),
    }
}

// Whether a cell holds a value: a literal, or a column that does.
fn has_value(nodes: &RangeTable<'_>, table: &FactTable, x: &Gx) -> bool
    ensures { result ≡ spec.holds_value nodes.now (facts_of table.now) (term x.now) }
{
    match x {
        Gx::Int(_) | Gx::Text(_) => true,
        Gx::Col(q, k) => is_not_null_under(nodes, table, *q, *k),
        Gx::Chain(a, list) => both(is_alone(list), has_value(nodes, table, a)),
        Gx::NullInt
        | Gx::NullText
        | Gx::CountAll
        | Gx::Scalar(_)
        | Gx::Case(_, _)
        | Gx::Neg(_)
        | Gx::Fold(_, _, _) => false,
    }
}

// Whether an aggregate counts.
fn counts(f: Aggregate) -> bool
    ensures { result ≡ spec.counts (aggregate f) }
{
    match f {
        Aggregate::Count => true,
        Aggregate::Single | Aggregate::Sum | Aggregate::Avg | Aggregate::Min | Aggregate::Max =>
            false,
    }
}

// Whether a cell is a COUNT.
fn is_count(x: &Gx) -> bool
    ensures { result ≡ spec.is_count (term x.now) }
{
    match x {
        Gx::CountAll => true,
        Gx::Fold(f, _, _) => counts(*f),
        Gx::Chain(a, list) => both(is_alone(list), is_count(a)),
        Gx::Int(_)
        | Gx::Text(_)
        | Gx::NullInt
        | Gx::NullText
        | Gx::Col(_, _)
        | Gx::Scalar(_)
        | Gx::Case(_, _)
        | Gx::Neg(_) => false,
    }
}

// Whether a quantifier is the first of these.
fn is_first(ranges: &[OwnedQuant], q: QuantId) -> bool
    ensures { result ≡ list_any (is_quant q) (take 1 ranges.now) }
{
    match ranges {
        [] => false,
        [p, ..] => p.id == q,
    }
}

// Whether a cell of an outer join holds a value: a literal, or a left column that does.
fn has_left_value(nodes: &RangeTable<'_>, table: &FactTable, ranges: &[OwnedQuant], x: &Gx) -> bool
    ensures { result ≡ spec.holds_left nodes.now (facts_of table.now) ranges.now (term x.now) }
{
    match x {
        Gx::Int(_) | Gx::Text(_) => true,
        Gx::Col(q, k) => both(
            is_first(ranges, *q),
            is_not_null_under(nodes, table, *q, *k),
        ),
        Gx::Chain(a, list) => both(is_alone(list), has_left_value(nodes, table, ranges, a)),
        Gx::NullInt
        | Gx::NullText
        | Gx::CountAll
        | Gx::Scalar(_)
        | Gx::Case(_, _)
        | Gx::Neg(_)
        | Gx::Fold(_, _, _) => false,
    }
}

// Whether a column holds no null.
pub fn is_column_filled(nodes: &RangeTable<'_>, table: &FactTable, node: &Node, k: usize) -> bool
    ensures { result ≡ spec.not_null_by nodes.now (facts_of table.now) node.now.parts.kind node.now k }
{
    let head = node.parts.head.as_slice();
    match &node.parts.kind {
        BoxKind::Base(base) => is_marked(base.not_null.as_slice(), k),
        BoxKind::Select => has_value_at(nodes, table, head, k),
        BoxKind::Group(keys) => {
            if k <= *keys {
                has_value_at(nodes, table, head, k)
            } else {
                is_count_at(head, k)
            }
        }
        BoxKind::SetOp(_, _) => false,
        BoxKind::OuterJoin => has_left_value_at(nodes, table, node.quants.as_slice(), head, k),
    }
}

// The same of the cell at a place.
fn has_value_at(nodes: &RangeTable<'_>, table: &FactTable, head: &[Gx], k: usize) -> bool
    ensures { result ≡ spec.at_place (spec.holds_value nodes.now (facts_of table.now)) (terms head.now) k }
{
    match cell_at(head, k) {
        Some(x) => has_value(nodes, table, x),
        None => false,
    }
}

fn is_count_at(head: &[Gx], k: usize) -> bool
    ensures { result ≡ spec.at_place spec.is_count (terms head.now) k }
{
    match cell_at(head, k) {
        Some(x) => is_count(x),
        None => false,
    }
}

fn has_left_value_at(
    nodes: &RangeTable<'_>,
    table: &FactTable,
    ranges: &[OwnedQuant],
    head: &[Gx],
    k: usize,
) -> bool
    ensures { result ≡ spec.at_place (spec.holds_left nodes.now (facts_of table.now) ranges.now) (terms head.now) k }
{
    match cell_at(head, k) {
        Some(x) => has_left_value(nodes, table, ranges, x),
        None => false,
    }
}
