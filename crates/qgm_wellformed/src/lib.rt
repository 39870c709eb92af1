//! When a query graph is well-formed; which boxes are closed, and of what types columns are.
#![tactic(auto)]

mod clause;
mod closed;
mod laws;
mod places;
mod types;

pub use clause::{Clause, Fault};
pub use closed::{is_closed, is_free_alone, names_of};
pub use laws::{compact_laws, fault_laws, view_laws, walk_laws};
pub use types::{KnownTypes, cell_type, column_types, known_of, types_agree};
