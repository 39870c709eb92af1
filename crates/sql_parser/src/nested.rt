// What may stand in brackets or in CASE.
use sql_ast::{Cond, Expr, Query, TableRef};

/// A line of the grammar that may stand in brackets or in CASE: what is to be read.
#[derive(Clone, Copy)]
pub(crate) enum Nonterminal {
    Expr,
    Cond,
    Query,
    /// A table with its joins.
    Table,
}

/// What was read.
#[derive(Drop)]
pub(crate) enum Tree {
    Expr(Box<Expr>),
    Cond(Box<Cond>),
    Query(Box<Query>),
    Table(Box<TableRef>),
}
