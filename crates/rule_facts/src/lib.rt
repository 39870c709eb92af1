//! What all rules stand on: what is inferred, as a condition asks it; that a well-formed graph meets what
//! inference asks; and which parts of an edited graph its rule need not look at.
#![tactic(auto)]

mod boxes;
mod closed;
mod fed;
mod laws;
mod told;

pub use boxes::box_at;
pub use closed::is_closed;
pub use fed::{any_fed, any_fed_closed};
pub use laws::premise_laws;
pub use told::infers_clean;
