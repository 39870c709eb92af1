// The text of a query.
use crate::tree::Query;
use crate::word::Direction;
use sql_text::Name;
use sqlite_items::Items;

/// `name | number`: an output column by its name, or by its place from 1.
#[derive(Drop)]
pub enum SortKey {
    Name(Name),
    Number(i64),
}

/// `sort = ( name | number ) [ ASC | DESC ]` (SQL-92, 13.1).
#[derive(Drop)]
pub struct Sort {
    pub key: SortKey,
    pub direction: Option<Direction>,
}

/// `text = query [ ORDER BY sort { "," sort } ] [ ";" ]`.
pub struct QueryText {
    pub query: Query,
    /// The keys; no ORDER BY is written where this is empty.
    pub order: Items<Sort>,
    pub semicolon: bool,
}

// By hand, so that crates above cite this function: a derived one is proved in each of them, with those
// of all trees.
impl Drop for QueryText {
    fn drop(self) {
        let QueryText {
            query,
            order,
            semicolon: _,
        } = self;
        drop(query);
        drop(order);
    }
}
