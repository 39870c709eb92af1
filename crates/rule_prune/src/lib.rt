//! The rules that drop what nothing names.
#![tactic(auto)]

mod drop_column;
mod drop_quantifier;
mod laws;

pub use drop_column::DropColumn;
pub use drop_quantifier::DropQuantifier;
pub use laws::prune_laws;
