//! The rules that merge boxes: M1, a select in a select becomes part of it, and M2, a box that gives
//! what the box under it gives goes.
#![tactic(auto)]

mod drop_copy;
mod laws;
mod merge_select;

pub use drop_copy::DropCopy;
pub use laws::{drop_laws, merge_laws};
pub use merge_select::MergeSelect;
