//! Groups of rows by their keys, with running states in place of their rows.
#![tactic(auto)]

mod fold;
mod index;
mod keyed;
mod running;
mod state;
mod states;
mod table;

pub use fold::Fold;
pub use state::State;
pub use states::{append_values, states_of, take_row};
pub use table::GroupTable;
