// What a query answers.
use crate::ordered::OrderedBag;
use sql_value::Kind;

/// What a query answers.
#[derive(Drop)]
pub enum Verdict {
    /// The rows, in an order.
    Rows(OrderedBag),
    /// A runtime error, and no row.
    Error(Kind),
}
