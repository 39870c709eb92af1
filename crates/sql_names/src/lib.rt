//! Names resolved: each column of a query as a scope and a place.
#![tactic(auto)]

mod boxes;
mod build;
mod chain;
mod grouping;
mod laws;
mod names;
mod order;
mod place;
mod queries;
mod range;
mod resolve;
mod scope;
mod span;
mod stars;
mod tables;
mod text;
mod views;

pub use laws::place_laws;
pub use range::Range;
pub use text::{ResolvedText, resolve_text};
pub use views::{ResolvedSchema, resolve_schema};
