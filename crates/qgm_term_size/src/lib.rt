//! How large and how deep expressions and conditions of boxes are, and what cells in place of columns
//! add to that.
#![tactic(auto)]

mod laws;
mod levels;
mod put;
mod size;

pub use laws::put_laws;
pub use levels::{cell_levels, cond_levels, deepest};
pub use put::{put_levels, put_size};
pub use size::{cell_size, cond_size};
