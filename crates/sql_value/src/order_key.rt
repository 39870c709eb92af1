// What the columns of a result are, and what it is ordered by.
use sqlite_items::Items;

/// The type of a column.
#[derive(Clone, Copy, PartialEq, Eq)]
pub enum SqlType {
    /// Numbers of 64 bits.
    Integer,
    /// Texts.
    Varchar,
}

/// A column that a result is ordered by.
#[derive(Clone, Copy, PartialEq, Eq)]
pub struct OrderKey {
    /// The column's place in the result, from 1.
    pub column: usize,
    /// Whether its cells descend.
    pub descending: bool,
}

/// Keys of an order, the first of which decides first.
pub type OrderKeys = Items<OrderKey>;
