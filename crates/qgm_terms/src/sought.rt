// What is looked for in expressions and conditions.
ghost use Rattle.std.specs.Prelude.{◌≡◌};
ghost use Rattle.qgm_terms.specs.Wanted.{wanted};

use crate::named::QuantId;

/// What is looked for.
#[derive(Clone, Copy, PartialEq, Eq)]
pub enum Sought {
    /// A scalar, some or every.
    Node,
    /// A scalar, some or every of a quantifier.
    NodeOf(QuantId),
    /// An aggregate.
    Aggregate,
    /// A column of a quantifier, with no some or every of it round the column.
    Row(QuantId),
    /// The same of one column, by its place from 1.
    Cell(QuantId, usize),
}

impl Sought {
    /// Whether a column is looked for.
    pub fn is_column(self, r: QuantId, j: usize) -> bool
        ensures { result ≡ (wanted self).column r j }
    {
        match self {
            Sought::Node | Sought::NodeOf(_) | Sought::Aggregate => false,
            Sought::Row(q) => r == q,
            Sought::Cell(q, k) => r == q && j == k,
        }
    }

    /// Whether a scalar, a some or an every is looked for.
    pub fn is_node(self, r: QuantId) -> bool
        ensures scalar { result ≡ (wanted self).cell r }
        ensures node { result ≡ (wanted self).node r }
    {
        match self {
            Sought::Node => true,
            Sought::NodeOf(q) => r == q,
            Sought::Aggregate | Sought::Row(_) | Sought::Cell(_, _) => false,
        }
    }

    /// Whether it is looked for within a some or every.
    pub fn enters(self, r: QuantId) -> bool
        ensures { result ≡ (wanted self).enter r }
    {
        match self {
            Sought::Node | Sought::NodeOf(_) | Sought::Aggregate => true,
            Sought::Row(q) | Sought::Cell(q, _) => r != q,
        }
    }

    /// Whether an aggregate is looked for.
    pub fn is_aggregate(self) -> bool
        ensures { result ≡ (wanted self).aggregate }
    {
        match self {
            Sought::Aggregate => true,
            Sought::Node | Sought::NodeOf(_) | Sought::Row(_) | Sought::Cell(_, _) => false,
        }
    }
}
