// Tables under names.
use shared_types::Text;
use sql_value::OutNames;
use sqlite_items::Items;

/// A table of a FROM under its range name (SQL-92, 6.3), or a table or view under its own: the
/// names of its columns in order, some of which may have none.
#[derive(Drop)]
pub struct Range {
    pub name: Text,
    pub columns: OutNames,
}

/// The ranges of a FROM, in the order of the text.
pub(crate) type Ranges = Items<Range>;
