//! The whole of the program, over files and a sink that are handed in: the answer to the question
//! that a command asks, and what is told of it; or the statement of SQL that it is rewritten to.
#![tactic(auto)]

mod answers;
mod respond;
mod run;
mod statement;
mod telling;

pub use run::run_command;
