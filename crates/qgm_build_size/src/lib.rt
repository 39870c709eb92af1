//! How many nodes the cells and conditions have that a query is written with, abbreviations written out.
#![tactic(auto)]

mod sizes;

pub use sizes::fits;
