//! The checks of a query: valid queries and views with their names resolved, or the least number
//! that refuses them.
#![tactic(auto)]

mod checked;
mod checking;

pub use checked::{Checked, Heading, Views};
pub use checking::{check, check_views};
