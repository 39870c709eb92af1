//! A query graph as one statement of SQL for PostgreSQL.
#![tactic(auto)]

mod bodies;
mod boxes;
mod entries;
mod form;
mod groups;
mod laws;
mod made;
mod names;
mod numbered;
mod overs;
mod reading;
mod root;
mod scope;
mod selects;
mod setting;
mod sources;
mod tables;
mod terms;
mod text;
mod words;

pub use laws::{examples, readings, select_laws};
pub use tables::TableNames;
pub use text::statement;
