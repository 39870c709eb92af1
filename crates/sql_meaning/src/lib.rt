//! What a query means: by the names of its columns, and by places once they are resolved.
#![tactic(auto)]

mod column_index;
mod grouping;
mod item_names;
mod laws;
mod resolved;
mod samples;

pub use column_index::{ColumnIndex, Occurrence};
pub use grouping::is_grouped;
pub use item_names::item_name;
pub use laws::name_laws;
pub use resolved::{Addend, Arm, Choice, From, Multiplier, Query, Test, Value, View};
pub use samples::examples;
