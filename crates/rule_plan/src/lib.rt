//! How a query is to be rewritten: which classes of rules, in which order, how far.
#![tactic(auto)]

mod classes;
mod plan;

pub use classes::{Class, Classes};
pub use plan::{Order, Plan};
