//! The trees of schemas and queries, and the tokens that spell them.
#![tactic(auto)]

mod name;
mod schema;
mod text;
mod tree;
mod word;

pub use name::{Alias, Column, Correlation, Names};
pub use schema::{ColumnConstraint, ColumnDecl, Element, Schema, Statement, TableDecl, ViewDecl};
pub use text::{QueryText, Sort, SortKey};
pub use tree::{
    Arm, Block, Choice, Cond, Expr, Filter, Item, Otherwise, Query, Res, SelectList, TableRef,
};
pub use word::{
    AdditiveOp, DataType, Direction, MultiplicativeOp, Quantifier, SetFunction, SetOperator,
    SetQuantifier, Sign,
};
