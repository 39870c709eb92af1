// What is known of boxes.
ghost use Rattle.std.specs.Prelude.{◌≡◌};
ghost use Rattle.qgm_props.specs.Table as spec;

use crate::fact_table::FactTable;
use qgm_core::BoxId;
use sqlite_items::Items;

/// What is known of a box: that no row of it is at an error level; that at most one row of it is
/// there, or exactly one; and, column by column, that it holds no error, and no null.
#[derive(Drop)]
pub struct BoxFacts {
    pub id: BoxId,
    pub clean: bool,
    pub at_most_one: bool,
    pub exactly_one: bool,
    pub error_free: Items<bool>,
    pub not_null: Items<bool>,
}

// The flag of a column, from 1.
fn flag_at(flags: &[bool], k: usize) -> bool
    ensures { result ≡ spec.flag_at k flags.now }
{
    if k == 0 {
        return false;
    }
    match flags.get(k - 1) {
        Some(flag) => *flag,
        None => false,
    }
}

// Whether a box is known to be clean.
pub fn is_clean(table: &FactTable, b: BoxId) -> bool
    ensures { result ≡ (spec.facts_of table.now).clean b }
{
    match table.find(b) {
        Some(facts) => facts.clean,
        None => false,
    }
}

// Whether a column is known to hold no error.
pub fn is_error_free(table: &FactTable, b: BoxId, k: usize) -> bool
    ensures { result ≡ (spec.facts_of table.now).error_free b k }
{
    match table.find(b) {
        Some(facts) => flag_at(facts.error_free.as_slice(), k),
        None => false,
    }
}

// Whether a column is known to hold no null.
pub fn is_not_null(table: &FactTable, b: BoxId, k: usize) -> bool
    ensures { result ≡ (spec.facts_of table.now).not_null b k }
{
    match table.find(b) {
        Some(facts) => flag_at(facts.not_null.as_slice(), k),
        None => false,
    }
}

// Whether a box is known to have at most one row.
pub fn has_at_most_one(table: &FactTable, b: BoxId) -> bool
    ensures { result ≡ (spec.facts_of table.now).at_most_one b }
{
    match table.find(b) {
        Some(facts) => facts.at_most_one,
        None => false,
    }
}

// Whether a box is known to have exactly one row.
pub fn has_exactly_one(table: &FactTable, b: BoxId) -> bool
    ensures { result ≡ (spec.facts_of table.now).exactly_one b }
{
    match table.find(b) {
        Some(facts) => facts.exactly_one,
        None => false,
    }
}
