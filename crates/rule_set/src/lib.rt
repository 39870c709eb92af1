//! The rules that are built, as the engine takes them, and the rewriting of a graph by them.
#![tactic(auto)]

mod built;
mod elsewhere;
mod laws;

pub use built::{BuiltRules, rewrite_built};
pub use elsewhere::{ElsewhereRules, rewrite_elsewhere};
pub use laws::{box_limit_laws, magic_laws};
