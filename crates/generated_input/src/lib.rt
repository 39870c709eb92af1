//! Tables that are made from a number.
#![tactic(auto)]

mod cells;
mod laws;
mod tables;

pub use laws::examples;
pub use tables::made;
