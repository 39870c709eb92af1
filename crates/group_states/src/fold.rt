// The cells of a group.
use sql_value::{Aggregate, Taken};

/// A cell of a group that isn't of its key, over the arguments that the rows of the group give.
#[derive(Clone, Copy)]
pub enum Fold {
    /// How many rows there are.
    Rows,
    /// An aggregate of the arguments.
    Of(Aggregate, Taken),
    /// Null.
    Nothing,
}
