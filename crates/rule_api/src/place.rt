// Where a rule fires.
use crate::rule_id::RuleId;
use qgm_core::BoxId;

/// Where a rule may fire: a box and, from 1, up to two places of a quantifier, conjunct or column of it;
/// 0 where the rule has none.
#[derive(Clone, Copy, PartialEq, Eq)]
pub struct Place {
    pub at: BoxId,
    pub i: usize,
    pub j: usize,
}

/// A rule at a place.
#[derive(Clone, Copy, PartialEq, Eq)]
pub struct Firing {
    pub rule: RuleId,
    pub place: Place,
}
