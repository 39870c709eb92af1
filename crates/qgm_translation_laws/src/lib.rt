//! What is built of a query: a query of the grammar in which the checks find no fault is one that
//! boxes can be made for, its expressions have types, and its graph is well-formed and has its rows.
#![tactic(auto)]

mod graphs;
mod laid;
mod laws;
mod loaded;

pub use graphs::formed_laws;
pub use laid::laid_graph_laws;
pub use laws::{buildable_laws, built_laws, type_laws};
pub use loaded::loaded_laws;
