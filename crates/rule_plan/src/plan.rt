// What a run of the rewrite rules is given.
use crate::classes::Classes;
use shared_types::Walk;

/// How the next firing is picked among the candidates.
#[derive(Clone, Copy, PartialEq, Eq)]
pub enum Order {
    /// The first of them.
    Sequence,
    /// The first of those whose rule ranks first.
    Priority,
    /// One that is drawn by the seed.
    Scatter,
}

/// How a query is to be rewritten.
#[derive(Drop)]
pub struct Plan {
    /// The classes of rules that may fire, in the order in which they are to be tried.
    pub classes: Classes,
    /// How the next firing is picked.
    pub order: Order,
    /// How the boxes are listed.
    pub walk: Walk,
    /// What `Order::Scatter` draws by.
    pub seed: u64,
    /// The greatest number of firings.
    pub budget: u64,
}
