//! What a query is written with bounds what is laid for it.
#![tactic(auto)]

mod laws;

pub use laws::laid_size_laws;
