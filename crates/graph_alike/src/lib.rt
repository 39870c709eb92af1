//! Query graphs that differ in the numbers of boxes and quantifiers alone.
#![tactic(auto)]

mod laws;

pub use laws::alike_laws;
