//! The rules of subqueries (Pirahesh, Hellerstein and Hasan 1992, 3): EXISTS and scalar subqueries
//! become joins or groups, INTERSECT and EXCEPT become EXISTS.
#![tactic(auto)]

mod conjuncts;
mod exists_to_join;
mod first_column;
mod laws;
mod parts;
mod same_columns;
mod scalar_to_group;
mod scalar_to_join;
mod set_to_exists;

pub use exists_to_join::ExistsToJoin;
pub use first_column::{column_conds, column_head};
pub use laws::subquery_laws;
pub use scalar_to_group::ScalarToGroup;
pub use scalar_to_join::ScalarToJoin;
pub use set_to_exists::SetToExists;
