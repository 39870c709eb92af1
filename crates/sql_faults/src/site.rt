// Where an expression stands in its block.

/// Where an expression stands in its block (SQL-92, 6.5): what decides whether it may hold
/// aggregates, subqueries and columns of enclosing blocks.
#[derive(Clone, Copy)]
pub(crate) enum Site {
    /// In the list or HAVING.
    Listed,
    /// In WHERE or ON.
    Filtered,
    /// In an aggregate's argument.
    Argument,
}
