// A valid query over tables, of whose answer a command tells.
use crate::report::Report;
use crate::texts::Valid;
use row_bag::Tables;
use sql_catalog::Catalog;
use sql_check::Views;

/// A valid query over a catalog and its views, and tables that fit the catalog.
#[derive(Drop)]
pub struct Question {
    pub catalog: Catalog,
    pub views: Views,
    pub valid: Valid,
    pub tables: Tables,
}

/// What comes of texts and tables: a question, or the report that refuses them.
#[derive(Drop)]
pub enum Request {
    /// They are valid.
    Asked(Question),
    /// The first refusal.
    Refused(Report),
}
