// Whether what is known of a box improves. It takes no memory.
ghost use Rattle.std.specs.Prelude.{◌≡◌, ◌&&◌, ◌||◌, not};
ghost use Rattle.qgm_core.specs.Boxes.{width};
ghost use Rattle.qgm_props.specs.Inferred as inferred;
ghost use Rattle.qgm_props.specs.SettledFacts as spec;
ghost use Rattle.qgm_props.specs.Table.{facts_of, flags};

use crate::boxes::{is_box_clean, is_box_exact, is_box_single, width_of};
use crate::columns::{is_column_filled, is_column_free};
use crate::fact_table::FactTable;
use crate::facts::{BoxFacts, has_exactly_one};
use crate::range_table::RangeTable;
use qgm_core::Node;

// Whether it is inferred, and not known yet, that a column holds no error.
fn is_free_anew(
    nodes: &RangeTable<'_>,
    table: &FactTable,
    node: &Node,
    known: bool,
    k: usize,
) -> bool
    ensures { result ≡ (not known && inferred.free_by nodes.now (facts_of table.now) node.now.parts.kind node.now k) }
{
    !known && is_column_free(nodes, table, node, k)
}

// Whether it is inferred, and not known yet, that a column holds no null.
fn is_filled_anew(
    nodes: &RangeTable<'_>,
    table: &FactTable,
    node: &Node,
    known: bool,
    k: usize,
) -> bool
    ensures { result ≡ (not known && inferred.not_null_by nodes.now (facts_of table.now) node.now.parts.kind node.now k) }
{
    !known && is_column_filled(nodes, table, node, k)
}

// Whether each column that is inferred to hold no error is known to.
fn is_free_settled(nodes: &RangeTable<'_>, table: &FactTable, node: &Node, old: &[bool]) -> bool
    ensures { result ≡ spec.settled_flags old.now (flags (width node.now) (inferred.free_by nodes.now (facts_of table.now) node.now.parts.kind node.now)) }
{
    if old.len() > width_of(node) {
        return false;
    }
    for k in 0..old.len() {
        if is_free_anew(nodes, table, node, old[k], k + 1) {
            return false;
        }
    }
    true
}

// Whether each column that is inferred to hold no null is known to.
fn is_filled_settled(nodes: &RangeTable<'_>, table: &FactTable, node: &Node, old: &[bool]) -> bool
    ensures { result ≡ spec.settled_flags old.now (flags (width node.now) (inferred.not_null_by nodes.now (facts_of table.now) node.now.parts.kind node.now)) }
{
    if old.len() > width_of(node) {
        return false;
    }
    for k in 0..old.len() {
        if is_filled_anew(nodes, table, node, old[k], k + 1) {
            return false;
        }
    }
    true
}

// Whether it is inferred that a box has at most one row.
fn is_single(nodes: &RangeTable<'_>, table: &FactTable, node: &Node) -> bool
    ensures { result ≡ (((facts_of table.now).exactly_one node.now.id) || inferred.at_most_one_by nodes.now (facts_of table.now) node.now.parts.kind node.now) }
{
    has_exactly_one(table, node.id) || is_box_single(nodes, table, node)
}

/// Whether nothing is inferred of a box that isn't known. What is known isn't inferred anew.
pub fn is_settled(nodes: &RangeTable<'_>, table: &FactTable, node: &Node, old: &BoxFacts) -> bool
    ensures { result ≡ spec.is_settled nodes.now (facts_of table.now) node.now old.now }
{
    (old.clean || !is_box_clean(nodes, table, node))
        && (old.at_most_one || !is_single(nodes, table, node))
        && (old.exactly_one || !is_box_exact(nodes, table, node))
        && is_free_settled(nodes, table, node, old.error_free.as_slice())
        && is_filled_settled(nodes, table, node, old.not_null.as_slice())
}
