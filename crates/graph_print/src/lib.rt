//! The text of a query graph.
#![tactic(auto)]

mod index;
mod laws;
mod lines;
mod numbers;
mod terms;
mod text;
mod writing;

pub use index::{Index, index_of};
pub use laws::examples;
pub use lines::put_quoted;
pub use numbers::Places;
pub use terms::put_repeated;
pub use text::print;
pub use writing::{put_doubled, put_integer, put_number, put_word};
