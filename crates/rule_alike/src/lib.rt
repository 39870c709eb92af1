//! Graphs that differ in numbers alone are rewritten alike.
#![tactic(auto)]

mod laws;

pub use laws::{leads_alike, rule_alike_laws};
