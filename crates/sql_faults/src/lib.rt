//! Which queries are valid: the checks of SQL-92 on names, types, degrees, groups and aggregates.
#![tactic(auto)]

mod checking;
mod checks;
mod column;
mod depth;
mod fault;
mod found;
mod from_ranges;
mod known;
mod laws;
mod lists;
mod operands;
mod order;
mod refusal;
mod scope;
mod site;
mod sources;
mod typed;
mod types;
mod view;

pub use checking::{ViewHeads, check_query, check_views};
pub use column::{Columns, TypedColumn, TypedRange};
pub use laws::check_laws;
pub use refusal::{QueryRefusal, ViewRefusal};
pub use view::ViewHead;
