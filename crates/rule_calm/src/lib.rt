//! Class magic closes a calm graph: no box that the root reaches names an outer row.
#![tactic(auto)]

mod laws;

pub use laws::{calm_graph_laws, settled_graph_laws};
