//! Whether a query graph is well-formed, and else the least clause that fails.
#![tactic(auto)]

mod check;
mod columns_fit;
mod shapes;
mod view;

pub use check::{IllFormed, check_graph};
