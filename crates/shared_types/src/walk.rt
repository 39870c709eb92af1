// The orders in which the boxes of a graph are listed.

/// How the boxes of a graph are listed.
#[derive(Clone, Copy, PartialEq, Eq)]
pub enum Walk {
    /// Depth first.
    Depth,
    /// Breadth first.
    Breadth,
}
