// What is inferred of a box.
ghost use Rattle.std.specs.Prelude.{◌≡◌, ◌||◌, ◌&&◌, ◌++◌, false, IfOk, OnOk, IsTrue, take};
ghost use Rattle.std.specs.List.{list_all};
ghost use Rattle.qgm_core.specs.Boxes.{width};
ghost use Rattle.qgm_terms.specs.Shown.{conds, terms};
ghost use Rattle.qgm_props.specs.Inferred as spec;
ghost use Rattle.qgm_props.specs.Table.{either_flags, facts_of, flags, improved, nothing_of};

use crate::columns::{is_column_filled, is_column_free, is_free_in_arms};
use crate::expressions::{are_conds_free, is_free};
use crate::fact_table::FactTable;
use crate::facts::{BoxFacts, has_at_most_one, has_exactly_one, is_clean};
use crate::range_table::RangeTable;
use qgm_core::{BoxKind, Gx, Node, OwnedQuant, SetOperator};
use qgm_terms::{both, either};
use shared_types::OutOfMemory;
use sqlite_items::Items;
use std::alloc::Global;

// Whether the boxes under the F quantifiers are known to be clean.
fn are_clean_under(table: &FactTable, ranges: &[OwnedQuant]) -> bool
    ensures { result ≡ spec.all_under_F (facts_of table.now).clean ranges.now }
{
    for range in ranges {
        if range.kind.is_f() && !is_clean(table, range.over) {
            return false;
        }
    }
    true
}

// Whether they are known to have at most one row each.
fn are_single_under(table: &FactTable, ranges: &[OwnedQuant]) -> bool
    ensures { result ≡ spec.all_under_F (facts_of table.now).at_most_one ranges.now }
{
    for range in ranges {
        if range.kind.is_f() && !has_at_most_one(table, range.over) {
            return false;
        }
    }
    true
}

// Whether they are known to have exactly one row each.
fn are_exact_under(table: &FactTable, ranges: &[OwnedQuant]) -> bool
    ensures { result ≡ spec.all_under_F (facts_of table.now).exactly_one ranges.now }
{
    for range in ranges {
        if range.kind.is_f() && !has_exactly_one(table, range.over) {
            return false;
        }
    }
    true
}

// Whether the boxes under the first two quantifiers are known to be clean.
fn are_two_clean(table: &FactTable, ranges: &[OwnedQuant]) -> bool
    ensures { result ≡ spec.under_two (facts_of table.now).clean ranges.now }
{
    match ranges {
        [] => false,
        [_] => false,
        [p, q, ..] => both(is_clean(table, p.over), is_clean(table, q.over)),
    }
}

// Whether the box under the first quantifier is known to be clean.
fn is_first_clean(table: &FactTable, ranges: &[OwnedQuant]) -> bool
    ensures { result ≡ spec.under_first (facts_of table.now).clean ranges.now }
{
    match ranges {
        [] => false,
        [p, ..] => is_clean(table, p.over),
    }
}

// Whether each column of the boxes under the first two quantifiers holds no error.
fn are_arms_free(
    nodes: &RangeTable<'_>,
    table: &FactTable,
    width: usize,
    ranges: &[OwnedQuant],
) -> bool
    ensures { result ≡ spec.arms_error_free nodes.now (facts_of table.now) width ranges.now }
{
    let _boxes = nodes;
    let mut k = width;
    while k > 0 {
        if !is_free_in_arms(table, ranges, k) {
            return false;
        }
        k -= 1;
    }
    true
}

// Whether a set operation is clean.
fn is_op_clean(
    nodes: &RangeTable<'_>,
    table: &FactTable,
    operator: SetOperator,
    width: usize,
    ranges: &[OwnedQuant],
) -> bool
    ensures { result ≡ spec.clean_op nodes.now (facts_of table.now) operator width ranges.now }
{
    let clean = are_two_clean(table, ranges);
    match operator {
        SetOperator::UnionAll | SetOperator::Union => clean,
        SetOperator::IntersectAll
        | SetOperator::Intersect
        | SetOperator::ExceptAll
        | SetOperator::Except => both(clean, are_arms_free(nodes, table, width, ranges)),
    }
}

// Whether cells are without errors.
fn are_cells_free(nodes: &RangeTable<'_>, table: &FactTable, list: &[Gx]) -> bool
    ensures { result ≡ list_all (spec.is_free nodes.now (facts_of table.now) false) (terms list.now) }
{
    for x in list {
        if !is_free(nodes, table, false, x) {
            return false;
        }
    }
    true
}

// Whether the first k cells are without errors.
fn are_keys_free(nodes: &RangeTable<'_>, table: &FactTable, k: usize, head: &[Gx]) -> bool
    ensures { result ≡ list_all (spec.is_free nodes.now (facts_of table.now) false) (take k (terms head.now)) }
{
    are_cells_free(nodes, table, &head[..k.min(head.len())])
}

// Whether a box is clean.
pub fn is_box_clean(nodes: &RangeTable<'_>, table: &FactTable, node: &Node) -> bool
    ensures { result ≡ spec.clean_by nodes.now (facts_of table.now) node.now.parts.kind node.now }
{
    let ranges = node.quants.as_slice();
    let conds = node.parts.conds.as_slice();
    match &node.parts.kind {
        BoxKind::Base(_) => true,
        BoxKind::Select => both(
            are_clean_under(table, ranges),
            are_conds_free(nodes, table, false, conds),
        ),
        BoxKind::Group(k) => {
            let head = node.parts.head.as_slice();
            both(
                is_first_clean(table, ranges),
                are_keys_free(nodes, table, *k, head),
            )
        }
        BoxKind::SetOp(operator, types) => is_op_clean(
            nodes,
            table,
            *operator,
            types.len(),
            ranges,
        ),
        BoxKind::OuterJoin => both(
            are_two_clean(table, ranges),
            are_conds_free(nodes, table, false, conds),
        ),
    }
}

// Whether a box has exactly one row.
pub fn is_box_exact(nodes: &RangeTable<'_>, table: &FactTable, node: &Node) -> bool
    ensures { result ≡ spec.exactly_one_by nodes.now (facts_of table.now) node.now.parts.kind node.now }
{
    let _boxes = nodes;
    let ranges = node.quants.as_slice();
    match &node.parts.kind {
        BoxKind::Base(_) | BoxKind::SetOp(_, _) => false,
        BoxKind::Select => both(
            are_exact_under(table, ranges),
            node.parts.conds.as_slice().is_empty(),
        ),
        BoxKind::Group(k) => both(*k == 0, !ranges.is_empty()),
        BoxKind::OuterJoin => match ranges {
            [] => false,
            [_] => false,
            [p, q, ..] => both(
                has_exactly_one(table, p.over),
                has_at_most_one(table, q.over),
            ),
        },
    }
}

// Whether a box has at most one row.
pub fn is_box_single(nodes: &RangeTable<'_>, table: &FactTable, node: &Node) -> bool
    ensures { result ≡ spec.at_most_one_by nodes.now (facts_of table.now) node.now.parts.kind node.now }
{
    let _boxes = nodes;
    let ranges = node.quants.as_slice();
    match &node.parts.kind {
        BoxKind::Base(_) | BoxKind::SetOp(_, _) | BoxKind::Group(_) => false,
        BoxKind::Select => are_single_under(table, ranges),
        BoxKind::OuterJoin => match ranges {
            [] => false,
            [_] => false,
            [p, q, ..] => both(
                has_at_most_one(table, p.over),
                has_at_most_one(table, q.over),
            ),
        },
    }
}

// How many columns a box has.
pub fn width_of(node: &Node) -> usize
    ensures { result ≡ width node.now }
{
    match &node.parts.kind {
        BoxKind::Base(base) => base.types.len(),
        BoxKind::SetOp(_, types) => types.len(),
        BoxKind::Select | BoxKind::Group(_) | BoxKind::OuterJoin => node.parts.head.len(),
    }
}

// Which columns of a box hold no error.
fn free_flags(
    alloc: Global,
    nodes: &RangeTable<'_>,
    table: &FactTable,
    node: &Node,
) -> Result<Items<bool>, OutOfMemory>
    ensures { IfOk result (λ all. all ≡ flags (width node.now) (spec.free_by nodes.now (facts_of table.now) node.now.parts.kind node.now)) }
{
    let mut all = Items::new(alloc);
    for k in 0..width_of(node) {
        all.push(is_column_free(nodes, table, node, k + 1))?;
    }
    Ok(all)
}

// Which columns of a box hold no null.
fn filled_flags(
    alloc: Global,
    nodes: &RangeTable<'_>,
    table: &FactTable,
    node: &Node,
) -> Result<Items<bool>, OutOfMemory>
    ensures { IfOk result (λ all. all ≡ flags (width node.now) (spec.not_null_by nodes.now (facts_of table.now) node.now.parts.kind node.now)) }
{
    let mut all = Items::new(alloc);
    for k in 0..width_of(node) {
        all.push(is_column_filled(nodes, table, node, k + 1))?;
    }
    Ok(all)
}

// So many flags that say nothing.
fn no_flags(alloc: Global, width: usize) -> Result<Items<bool>, OutOfMemory>
    ensures { IfOk result (λ all. all ≡ flags width (λ k. false)) }
{
    let mut all = Items::new(alloc);
    for k in 0..width {
        let _place = k;
        all.push(false)?;
    }
    Ok(all)
}

// The flags of either, column by column.
fn either_of(alloc: Global, old: &[bool], now: &[bool]) -> Result<Items<bool>, OutOfMemory>
    ensures { IfOk result (λ all. all ≡ either_flags old.now now.now) }
{
    let mut all = Items::new(alloc);
    for i in 0..old.len().min(now.len()) {
        all.push(either(old[i], now[i]))?;
    }
    Ok(all)
}

/// Nothing is known of a box.
pub fn nothing_known(alloc: Global, node: &Node) -> Result<BoxFacts, OutOfMemory>
    ensures { IfOk result (λ f. f ≡ nothing_of node.now) }
{
    let width = width_of(node);
    Ok(BoxFacts {
        id: node.id,
        clean: false,
        at_most_one: false,
        exactly_one: false,
        error_free: no_flags(alloc, width)?,
        not_null: no_flags(alloc, width)?,
    })
}

/// What was known of a box and what is inferred of it.
pub fn improved_facts(
    alloc: Global,
    nodes: &RangeTable<'_>,
    table: &FactTable,
    node: &Node,
    old: &BoxFacts,
) -> Result<BoxFacts, OutOfMemory>
    ensures { IfOk result (λ f. f ≡ improved nodes.now (facts_of table.now) node.now old.now) }
{
    let free = free_flags(alloc, nodes, table, node)?;
    let filled = filled_flags(alloc, nodes, table, node)?;
    let single = either(
        has_exactly_one(table, node.id),
        is_box_single(nodes, table, node),
    );
    Ok(BoxFacts {
        id: old.id,
        clean: either(old.clean, is_box_clean(nodes, table, node)),
        at_most_one: either(old.at_most_one, single),
        exactly_one: either(old.exactly_one, is_box_exact(nodes, table, node)),
        error_free: either_of(alloc, old.error_free.as_slice(), free.as_slice())?,
        not_null: either_of(alloc, old.not_null.as_slice(), filled.as_slice())?,
    })
}
