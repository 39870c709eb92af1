// Whether a graph is calm.
ghost use Rattle.std.specs.Prelude.{◌≡◌, ◌||◌, not, IfOk};
ghost use Rattle.std.specs.List.{list_all};
ghost use Rattle.qgm_wellformed.specs.Columns.{columns_of};
ghost use Rattle.qgm_core.specs.Kinds.{is_magic};
ghost use Rattle.qgm_props.specs.Calm as spec;
ghost use Rattle.qgm_props.specs.Inferred.{all_places, all_under};
ghost use Rattle.qgm_props.specs.Table.{facts_of};

use crate::answers::Props;
use crate::boxes::width_of;
use crate::fact_table::FactTable;
use crate::facts::{has_at_most_one, is_clean, is_error_free};
use crate::range_table::RangeTable;
use crate::ranges::is_error_free_under;
use qgm_core::{BoxId, Column, Graph, Node, OwnedQuant, free_in, has_range};
use qgm_term_search::{add_columns_of_cells, add_columns_of_conds};
use qgm_terms::{both, either};
use shared_types::OutOfMemory;
use std::alloc::Global;

// Whether nothing is free in a box.
fn is_closed(alloc: Global, boxes: &RangeTable<'_>, b: BoxId) -> Result<bool, OutOfMemory>
    ensures { IfOk result (λ k. k ≡ spec.is_closed boxes.now b) }
{
    let free = free_in(alloc, boxes.nodes(), b)?;
    Ok(free.is_empty())
}

// Whether the boxes under all of these quantifiers are closed.
fn are_closed_under(
    alloc: Global,
    boxes: &RangeTable<'_>,
    ranges: &[OwnedQuant],
) -> Result<bool, OutOfMemory>
    ensures { IfOk result (λ k. k ≡ all_under (spec.is_closed boxes.now) ranges.now) }
{
    for range in ranges {
        if !is_closed(alloc, boxes, range.over)? {
            return Ok(false);
        }
    }
    Ok(true)
}

// The columns that a box names.
fn named_columns(alloc: Global, node: &Node) -> Result<Vec<Column>, OutOfMemory>
    ensures { IfOk result (λ columns. columns.items ≡ columns_of node.now) }
{
    let mut columns = Vec::new(alloc);
    add_columns_of_cells(node.parts.head.as_slice(), &mut columns)?;
    add_columns_of_conds(node.parts.conds.as_slice(), &mut columns)?;
    Ok(columns)
}

// Whether a column that a box names is one of its own quantifiers, or known to hold no error.
fn is_column_calm(boxes: &RangeTable<'_>, table: &FactTable, node: &Node, column: Column) -> bool
    ensures { result ≡ spec.calm_column boxes.now (facts_of table.now) node.now column }
{
    either(
        has_range(node.quants.as_slice(), column.quant),
        is_error_free_under(boxes, table, column.quant, column.place),
    )
}

// Whether all of them are.
fn are_columns_calm(
    boxes: &RangeTable<'_>,
    table: &FactTable,
    node: &Node,
    columns: &[Column],
) -> bool
    ensures { result ≡ list_all (spec.calm_column boxes.now (facts_of table.now) node.now) columns.now }
{
    columns
        .iter()
        .all(|c| is_column_calm(boxes, table, node, *c))
}

// Whether a quantifier is calm as an S quantifier, or is none.
fn is_scalar_calm(
    alloc: Global,
    boxes: &RangeTable<'_>,
    table: &FactTable,
    range: OwnedQuant,
) -> Result<bool, OutOfMemory>
    ensures { IfOk result (λ k. k ≡ spec.calm_scalar boxes.now (facts_of table.now) range) }
{
    if !range.kind.is_s() {
        return Ok(true);
    }
    let known = either(
        has_at_most_one(table, range.over),
        is_error_free(table, range.over, 1),
    );
    Ok(either(is_closed(alloc, boxes, range.over)?, known))
}

// Whether all of these are.
fn are_scalars_calm(
    alloc: Global,
    boxes: &RangeTable<'_>,
    table: &FactTable,
    ranges: &[OwnedQuant],
) -> Result<bool, OutOfMemory>
    ensures { IfOk result (λ k. k ≡ list_all (spec.calm_scalar boxes.now (facts_of table.now)) ranges.now) }
{
    for range in ranges {
        if !is_scalar_calm(alloc, boxes, table, *range)? {
            return Ok(false);
        }
    }
    Ok(true)
}

// Whether each of so many columns of a box is known to hold no error.
fn are_all_free(table: &FactTable, b: BoxId, width: usize) -> bool
    ensures { result ≡ all_places width ((facts_of table.now).error_free b) }
{
    let mut k = width;
    while k > 0 {
        if !is_error_free(table, b, k) {
            return false;
        }
        k -= 1;
    }
    true
}

// Whether a magic box is calm.
fn is_magic_calm(
    alloc: Global,
    boxes: &RangeTable<'_>,
    table: &FactTable,
    node: &Node,
) -> Result<bool, OutOfMemory>
    ensures { IfOk result (λ k. k ≡ spec.calm_magic boxes.now (facts_of table.now) node.now) }
{
    let closed = is_closed(alloc, boxes, node.id)?;
    let under = are_closed_under(alloc, boxes, node.quants.as_slice())?;
    let free = are_all_free(table, node.id, width_of(node));
    Ok(both(closed, both(under, free)))
}

// Whether a box is calm as a magic box, or is none.
fn is_role_calm(
    alloc: Global,
    boxes: &RangeTable<'_>,
    table: &FactTable,
    node: &Node,
) -> Result<bool, OutOfMemory>
    ensures { IfOk result (λ k. k ≡ (not (is_magic node.now.parts.role) || spec.calm_magic boxes.now (facts_of table.now) node.now)) }
{
    if !node.parts.role.is_magic() {
        return Ok(true);
    }
    is_magic_calm(alloc, boxes, table, node)
}

// Whether a box is calm.
fn is_box_calm(
    alloc: Global,
    boxes: &RangeTable<'_>,
    root: BoxId,
    table: &FactTable,
    node: &Node,
) -> Result<bool, OutOfMemory>
    ensures { IfOk result (λ k. k ≡ spec.calm_box boxes.now (facts_of table.now) root node.now) }
{
    let columns = named_columns(alloc, node)?;
    let free = are_columns_calm(boxes, table, node, &columns);
    let clean = either(node.id == root, is_clean(table, node.id));
    let scalars = are_scalars_calm(alloc, boxes, table, node.quants.as_slice())?;
    let role = is_role_calm(alloc, boxes, table, node)?;
    Ok(both(both(clean, free), both(scalars, role)))
}

/// Whether the graph is calm, where the facts are what is inferred of it: each box but the root is
/// clean, columns that are read from outside are without errors, and magic boxes are closed. It
/// fails only for want of memory.
pub fn is_calm(alloc: Global, graph: &Graph, props: &Props) -> Result<bool, OutOfMemory>
    ensures { IfOk result (λ k. k ≡ spec.calm graph.now.boxes (facts_of props.now) graph.now.root) }
{
    let boxes = RangeTable::of(alloc, graph.nodes())?;
    for node in boxes.nodes() {
        if !is_box_calm(alloc, &boxes, graph.root(), props.table(), node)? {
            return Ok(false);
        }
    }
    Ok(true)
}
