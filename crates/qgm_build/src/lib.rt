//! The graph of a valid query: the boxes that are made for it, and that they show it.
#![tactic(auto)]

mod base;
mod finish;
mod lay;
mod named;
mod pairs;
mod reads;
mod select;
mod whole;

pub use whole::build;
