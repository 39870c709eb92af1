//! What is inferred of the boxes of a query graph.
#![tactic(auto)]

mod answers;
mod boxes;
mod calm;
mod columns;
mod expressions;
mod fact_table;
mod facts;
mod infer;
mod inference;
mod keys;
mod laws;
mod range_table;
mod ranges;
mod settling;

pub use answers::Props;
pub use calm::is_calm;
pub use facts::BoxFacts;
pub use infer::props;
pub use inference::Inference;
pub use laws::{examples, fact_laws, measure_laws};
