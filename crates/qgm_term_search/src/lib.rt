//! What stands in expressions and conditions: columns, nodes, what is sought; and which are
//! printed alike.
#![tactic(auto)]

mod columns;
mod nodes;
mod sameness;
mod search;
mod tokens;

pub use columns::{add_columns, add_columns_of_cells, add_columns_of_cond, add_columns_of_conds};
pub use nodes::{add_nodes, add_nodes_of_cells, add_nodes_of_cond, add_nodes_of_conds};
pub use sameness::{same_cond, same_term};
pub use search::{
    has_aggregate, has_aggregate_cond, is_node_free, is_node_free_cond, stands_in, stands_in_cells,
    stands_in_cond, stands_in_conds,
};
