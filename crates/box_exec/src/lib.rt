//! The execution of query graphs.
#![tactic(auto)]

mod beyond;
mod bindings;
mod boxes;
mod combining;
mod early;
mod evaluation;
mod execution;
mod grouping;
mod handed_on;
mod hashed;
mod heads;
mod idle;
mod idle_index;
mod indexed_rows;
mod joining;
mod key;
mod laws;
mod lookup;
mod memo;
mod operand;
mod order;
mod plan;
mod simple;
mod source;
mod tally;
mod under;

pub use bindings::Bindings;
pub use evaluation::{hold, value};
pub use execution::{execute, execute_owned, execute_plain, execute_taken};
pub use indexed_rows::IndexedRows;
pub use laws::execution_laws;
pub use source::{Sub, SubRows};
