// Names, and what they name in a query.
use sql_text::Name;
use sqlite_items::Items;

/// `name { "," name }`, in order.
pub type Names = Items<Name>;

/// `name [ "." name ]`: a column, perhaps after the range that it is of (SQL-92, 6.4).
#[derive(Drop)]
pub struct Column {
    pub range: Option<Name>,
    pub name: Name,
}

/// `[ AS ] name` after an item of a list.
#[derive(Drop)]
pub struct Alias {
    /// Whether `AS` is written.
    pub noise: bool,
    pub name: Name,
}

/// `[ AS ] name [ "(" names ")" ]` after a table (SQL-92, 6.3).
#[derive(Drop)]
pub struct Correlation {
    /// Whether `AS` is written.
    pub noise: bool,
    pub name: Name,
    /// The column list; none is written where this is empty.
    pub columns: Names,
}
