//! The command line, read by `clap`.
#![tactic(auto)]

mod classes;
mod command;
mod reader;
mod refusal;
mod task;

pub use reader::read_line;
pub use refusal::WordsRefusal;
pub use task::{Line, Task};
