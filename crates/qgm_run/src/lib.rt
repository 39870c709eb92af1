//! The rows of a query graph that is rewritten first by the rules that are built, the text that tells
//! of each firing, and the statement of SQL that the rewritten graph is.
#![tactic(auto)]

mod answers;
mod execution;
mod laws;
mod lines;
mod outcome;
mod statement;
mod telling;

pub use answers::{run_rewritten, tell_rewritten};
pub use laws::examples;
pub use outcome::Ran;
pub use statement::rewritten_statement;
