//! Rows, bags of rows and their order; what rows come to as one cell or one truth; and the laws of bags.
#![tactic(auto)]

mod aggregates;
mod answer;
mod bag;
mod grid;
mod groups;
mod joins;
mod laws;
mod matched;
mod operand;
mod ordered;
mod outcome;
mod row;
mod sets;
mod sort;
mod subqueries;
mod tables;
mod tuple_index;
mod tuples;

pub use aggregates::{count_cell, count_rows, folded};
pub use answer::{
    error_among, error_at, error_in, error_of, is_there, those_there, verdict, worst_of,
};
pub use bag::Bag;
pub use groups::key_error_of;
pub use joins::{append_kept, beside, cells_beside, nulls, or_with_nulls, product, with_nulls};
pub use laws::{bag_laws, filter_laws, fold_laws, join_laws, key_laws, set_laws, tag_laws};
pub use operand::Operand;
pub use ordered::OrderedBag;
pub use outcome::Verdict;
pub use row::{Row, RowRef, order_by, row_order, same_cells};
pub use sets::{distinct, except, failed_cells, failed_row, intersect, union};
pub use sort::sorted;
pub use subqueries::{any_there, compare_all, compare_any, exists, presence, scalar};
pub use tables::{Table, Tables};
pub use tuples::{append_cells, copied, copied_rows};
