//! The engine that rewrites a query graph by rules, whatever they are.
#![tactic(auto)]

mod choice;
mod control;
mod laws;
mod rules;
mod selection;
mod steps;
mod trace;

pub use choice::{draw, next};
pub use control::candidates;
pub use laws::{control_examples, control_laws};
pub use rules::Rules;
pub use steps::{rewrite, rewrite_each, step};
pub use trace::Trace;
