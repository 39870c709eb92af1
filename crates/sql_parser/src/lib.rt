//! Schemas and queries from tokens.
#![tactic(auto)]

mod ahead;
mod boxes;
mod case;
mod condition;
mod elements;
mod expression;
mod grammar;
mod naming;
mod nested;
mod query;
mod refusal;
mod schema;
mod sub;
mod table;
mod text;
mod word;

pub use refusal::ParseRefusal;
pub use schema::parse_schema;
pub use text::parse_query;
