// The text of a schema.
use crate::name::Names;
use crate::tree::Query;
use crate::word::DataType;
use sql_text::Name;
use sqlite_items::Items;

/// `NOT NULL | PRIMARY KEY | UNIQUE` after a column.
#[derive(Clone, Copy, PartialEq, Eq)]
pub enum ColumnConstraint {
    NotNull,
    PrimaryKey,
    Unique,
}

/// `name type { NOT NULL | PRIMARY KEY | UNIQUE }` (SQL-92, 11.4).
#[derive(Drop)]
pub struct ColumnDecl {
    pub name: Name,
    pub data_type: DataType,
    pub constraints: Items<ColumnConstraint>,
}

/// `element = name type { NOT NULL | PRIMARY KEY | UNIQUE } | PRIMARY KEY "(" names ")"
/// | UNIQUE "(" names ")"` (SQL-92, 11.3 and 11.7).
#[derive(Drop)]
pub enum Element {
    Column(ColumnDecl),
    PrimaryKey(Names),
    Unique(Names),
}

/// `CREATE TABLE name "(" element { "," element } ")"` (SQL-92, 11.3).
#[derive(Drop)]
pub struct TableDecl {
    pub name: Name,
    pub elements: Items<Element>,
}

/// `CREATE VIEW name [ "(" names ")" ] AS query` (SQL-92, 11.19).
pub struct ViewDecl {
    pub name: Name,
    /// The column list; none is written where this is empty.
    pub columns: Names,
    pub query: Query,
}

// By hand, as that of a query's text.
impl Drop for ViewDecl {
    fn drop(self) {
        let ViewDecl {
            name,
            columns,
            query,
        } = self;
        drop(name);
        drop(columns);
        drop(query);
    }
}

/// `stmt`: a table or a view.
#[derive(Drop)]
pub enum Statement {
    Table(TableDecl),
    View(ViewDecl),
}

/// `schema = { stmt ";" }`: its statements, in order.
#[derive(Drop)]
pub struct Schema {
    pub statements: Items<Statement>,
}
