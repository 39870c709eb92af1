// Which columns hold a key.
ghost use Rattle.std.specs.Prelude.{◌≡◌, ◌&&◌, ◌++◌, option_map, OnOk, IfOk, Some, drop};
ghost use Rattle.std.specs.List.{list_all, list_any};
ghost use Rattle.list_laws.specs.Lists.{change};
ghost use Rattle.qgm_core.specs.Boxes.{is_box};
ghost use Rattle.qgm_core.specs.Edits.{with_distinct};
ghost use Rattle.qgm_core.specs.declared.kinds.Distinct.TheVariants.{Preserve};
ghost use Rattle.qgm_terms.specs.Shown.{term, terms};
ghost use Rattle.qgm_props.specs.Inferred as inferred;
ghost use Rattle.qgm_props.specs.Keys as spec;
ghost use Rattle.qgm_props.specs.Table.{facts_of};

use crate::columns::cell_at;
use crate::expressions::is_alone;
use crate::fact_table::FactTable;
use crate::facts::has_at_most_one;
use qgm_core::{BaseTable, BoxId, BoxKind, Gx, Node, OwnedQuant, QuantId, SetOperator, is_marked};
use qgm_terms::both;
use shared_types::OutOfMemory;
use sqlite_items::Items;
use std::alloc::Global;

// Whether all of these columns are among those.
fn are_among(columns: &[usize], those: &[usize]) -> bool
    ensures { result ≡ spec.among columns.now those.now }
{
    columns.iter().all(|k| is_marked(those, *k))
}

// Whether each column of so many is among these.
fn are_all_within(width: usize, columns: &[usize]) -> bool
    ensures { result ≡ spec.all_within width columns.now }
{
    let mut k = width;
    while k > 0 {
        if !is_marked(columns, k) {
            return false;
        }
        k -= 1;
    }
    true
}

// Whether a key of a base whose columns hold no null is among these columns.
fn has_base_key(base: &BaseTable, keys: &[Items<usize>], columns: &[usize]) -> bool
    ensures { result ≡ list_any (λ key. spec.among key base.now.not_null && spec.among key columns.now) keys.now }
{
    for key in keys {
        if both(
            are_among(key.as_slice(), base.not_null.as_slice()),
            are_among(key.as_slice(), columns),
        ) {
            return true;
        }
    }
    false
}

// Adds the column of a quantifier that a cell is.
fn add_column_of(q: QuantId, x: &Gx, out: &mut Vec<usize>) -> Result<(), OutOfMemory>
    ensures { OnOk result (out.new.items ≡ out.old.items ++ spec.column_of q (Some (term x.now))) }
{
    match x {
        Gx::Col(r, k) => {
            if *r == q {
                out.push(*k)?;
            }
            Ok(())
        }
        Gx::Chain(a, list) => {
            if is_alone(list) {
                add_column_of(q, a, out)?;
            }
            Ok(())
        }
        Gx::Int(_)
        | Gx::Text(_)
        | Gx::NullInt
        | Gx::NullText
        | Gx::CountAll
        | Gx::Scalar(_)
        | Gx::Case(_, _)
        | Gx::Neg(_)
        | Gx::Fold(_, _, _) => Ok(()),
    }
}

// Adds the column of a quantifier that stands at a place.
fn add_column_at(q: QuantId, head: &[Gx], k: usize, out: &mut Vec<usize>) -> Result<(), OutOfMemory>
    ensures { OnOk result (out.new.items ≡ out.old.items ++ spec.column_of q (spec.cell_at (terms head.now) k)) }
{
    match cell_at(head, k) {
        Some(x) => add_column_of(q, x, out),
        None => Ok(()),
    }
}

// The columns of a quantifier that stand at these places of a head.
fn columns_at(
    alloc: Global,
    q: QuantId,
    head: &[Gx],
    places: &[usize],
) -> Result<Vec<usize>, OutOfMemory>
    ensures { IfOk result (λ ks. ks.items ≡ spec.columns_at q (terms head.now) places.now) }
{
    let mut columns = Vec::new(alloc);
    for k in places {
        add_column_at(q, head, *k, &mut columns)?;
    }
    Ok(columns)
}

// Whether the columns hold a key of a set operation.
fn has_op_key(operator: SetOperator, width: usize, columns: &[usize]) -> bool
    ensures { result ≡ spec.keyed_op operator width columns.now }
{
    match operator {
        SetOperator::UnionAll | SetOperator::IntersectAll | SetOperator::ExceptAll => false,
        SetOperator::Union | SetOperator::Intersect | SetOperator::Except => are_all_within(
            width, columns,
        ),
    }
}

/// Whether the columns at these places hold a key of a box among these. It fails only for want of
/// memory.
#[cycle(keys)]
pub fn has_key(
    alloc: Global,
    boxes: &[Node],
    table: &FactTable,
    b: BoxId,
    columns: &[usize],
) -> Result<bool, OutOfMemory>
    ensures { IfOk result (λ k. k ≡ spec.holds_key (facts_of table.now).at_most_one boxes.now b columns.now) }
{
    for i in 0..boxes.len() {
        if boxes[i].id == b {
            return has_key_of(alloc, &boxes[i], &boxes[i + 1..], table, columns);
        }
    }
    Ok(false)
}

// Whether they hold a key of this box over those behind it.
#[cycle(keys)]
fn has_key_of(
    alloc: Global,
    node: &Node,
    below: &[Node],
    table: &FactTable,
    columns: &[usize],
) -> Result<bool, OutOfMemory>
    ensures { IfOk result (λ k. k ≡ spec.keyed (facts_of table.now).at_most_one node.now (spec.holds_key (facts_of table.now).at_most_one below.now) columns.now) }
{
    if has_at_most_one(table, node.id) {
        return Ok(true);
    }
    let head = node.parts.head.as_slice();
    match &node.parts.kind {
        BoxKind::Base(base) => Ok(has_base_key(base, base.keys.as_slice(), columns)),
        BoxKind::Select => {
            if both(
                node.parts.distinct.is_enforce(),
                are_all_within(head.len(), columns),
            ) {
                return Ok(true);
            }
            have_keys(alloc, node, below, table, columns)
        }
        BoxKind::Group(k) => Ok(are_all_within(*k, columns)),
        BoxKind::SetOp(operator, types) => Ok(has_op_key(*operator, types.len(), columns)),
        BoxKind::OuterJoin => have_two_keys(alloc, node, below, table, columns),
    }
}

// Whether they would hold a key of this box if it were PRESERVE, over those behind it.
fn has_key_without_distinct(
    alloc: Global,
    node: &Node,
    below: &[Node],
    table: &FactTable,
    columns: &[usize],
) -> Result<bool, OutOfMemory>
    ensures { IfOk result (λ k. k ≡ spec.keyed (facts_of table.now).at_most_one (with_distinct Preserve node.now) (spec.holds_key (facts_of table.now).at_most_one below.now) columns.now) }
{
    match &node.parts.kind {
        BoxKind::Select => {
            if has_at_most_one(table, node.id) {
                return Ok(true);
            }
            have_keys(alloc, node, below, table, columns)
        }
        BoxKind::Base(_) | BoxKind::Group(_) | BoxKind::SetOp(_, _) | BoxKind::OuterJoin =>
            has_key_of(alloc, node, below, table, columns),
    }
}

/// Whether the columns at these places would hold a key of a box among these if it were PRESERVE. It
/// fails only for want of memory.
pub fn has_key_preserved(
    alloc: Global,
    boxes: &[Node],
    table: &FactTable,
    b: BoxId,
    columns: &[usize],
) -> Result<bool, OutOfMemory>
    ensures { IfOk result (λ k. k ≡ spec.holds_key (facts_of table.now).at_most_one (change (is_box b) (with_distinct Preserve) boxes.now) b columns.now) }
{
    for i in 0..boxes.len() {
        if boxes[i].id == b {
            return has_key_without_distinct(alloc, &boxes[i], &boxes[i + 1..], table, columns);
        }
    }
    Ok(false)
}

// Whether they hold a key of the box under each F quantifier.
#[cycle(keys)]
fn have_keys(
    alloc: Global,
    node: &Node,
    below: &[Node],
    table: &FactTable,
    columns: &[usize],
) -> Result<bool, OutOfMemory>
    ensures { IfOk result (λ k. k ≡ spec.keyed_under_F node.now.parts.head (spec.holds_key (facts_of table.now).at_most_one below.now) columns.now node.now.quants) }
{
    for range in node.quants.as_slice() {
        if range.kind.is_f() && !has_key_under(alloc, node, below, table, columns, *range)? {
            return Ok(false);
        }
    }
    Ok(true)
}

// Whether they hold a key of the boxes under the first two quantifiers.
#[cycle(keys)]
fn have_two_keys(
    alloc: Global,
    node: &Node,
    below: &[Node],
    table: &FactTable,
    columns: &[usize],
) -> Result<bool, OutOfMemory>
    ensures { IfOk result (λ k. k ≡ spec.keyed_under_two node.now.parts.head (spec.holds_key (facts_of table.now).at_most_one below.now) columns.now node.now.quants) }
{
    match node.quants.as_slice() {
        [] => Ok(false),
        [_] => Ok(false),
        [p, q, ..] => {
            let left = has_key_under(alloc, node, below, table, columns, *p)?;
            let right = has_key_under(alloc, node, below, table, columns, *q)?;
            Ok(both(left, right))
        }
    }
}

// Whether they hold a key of the box under a quantifier.
#[cycle(keys)]
fn has_key_under(
    alloc: Global,
    node: &Node,
    below: &[Node],
    table: &FactTable,
    columns: &[usize],
    range: OwnedQuant,
) -> Result<bool, OutOfMemory>
    ensures { IfOk result (λ k. k ≡ spec.keyed_under node.now.parts.head (spec.holds_key (facts_of table.now).at_most_one below.now) columns.now range) }
{
    let under = columns_at(alloc, range.id, node.parts.head.as_slice(), columns)?;
    has_key(alloc, below, table, range.over, &under)
}
