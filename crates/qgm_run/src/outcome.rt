// What comes of a rewriting and an execution.
use row_bag::Bag;

/// The rows of a graph that was rewritten, how many firings there were, and how many evaluations of
/// boxes the rows took.
#[derive(Drop)]
pub struct Ran {
    pub rows: Bag,
    pub firings: u64,
    pub evals: u64,
}
