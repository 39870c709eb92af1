//! Which boxes show a query, and that they have its rows.
#![tactic(auto)]

mod laid;
mod laws;

pub use laid::laid_laws;
pub use laws::{examples, shown_laws};
