// The aggregates of a group.

/// An aggregate of the cells of a group (SQL-92 6.5, "set function type").
#[derive(Clone, Copy, PartialEq, Eq)]
pub enum Aggregate {
    /// The cell of at most one row, as a scalar subquery takes it; no text of SQL names it.
    Single,
    Count,
    Sum,
    Avg,
    Min,
    Max,
}

/// Whether an aggregate takes all values or equal ones once (SQL-92 6.5, "set quantifier").
#[derive(Clone, Copy, PartialEq, Eq)]
pub enum Taken {
    All,
    Distinct,
}
