// What is known of the boxes that quantifiers range over.
ghost use Rattle.std.specs.Prelude.{◌≡◌};
ghost use Rattle.qgm_props.specs.Inferred as spec;
ghost use Rattle.qgm_props.specs.Table.{facts_of};

use crate::fact_table::FactTable;
use crate::facts::{has_at_most_one, is_clean, is_error_free, is_not_null};
use crate::range_table::RangeTable;
use qgm_core::QuantId;

// Whether the box under a quantifier is known to be clean.
pub fn is_clean_under(nodes: &RangeTable<'_>, table: &FactTable, q: QuantId) -> bool
    ensures { result ≡ spec.clean_under nodes.now (facts_of table.now) q }
{
    match nodes.find(q) {
        Some(range) => is_clean(table, range.over),
        None => false,
    }
}

// Whether a column of the box under a quantifier is known to hold no error.
pub fn is_error_free_under(nodes: &RangeTable<'_>, table: &FactTable, q: QuantId, k: usize) -> bool
    ensures { result ≡ spec.error_free_under nodes.now (facts_of table.now) q k }
{
    match nodes.find(q) {
        Some(range) => is_error_free(table, range.over, k),
        None => false,
    }
}

// Whether a column of the box under a quantifier is known to hold no null.
pub fn is_not_null_under(nodes: &RangeTable<'_>, table: &FactTable, q: QuantId, k: usize) -> bool
    ensures { result ≡ spec.not_null_under nodes.now (facts_of table.now) q k }
{
    match nodes.find(q) {
        Some(range) => is_not_null(table, range.over, k),
        None => false,
    }
}

// Whether the box under a quantifier is known to have at most one row.
pub fn is_single_under(nodes: &RangeTable<'_>, table: &FactTable, q: QuantId) -> bool
    ensures { result ≡ spec.single_under nodes.now (facts_of table.now) q }
{
    match nodes.find(q) {
        Some(range) => has_at_most_one(table, range.over),
        None => false,
    }
}
