//! How many nodes and levels the cells and conditions of boxes have.
#![tactic(auto)]

mod laws;

pub use laws::box_laws;
