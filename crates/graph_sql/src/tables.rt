// Names of stored tables and of their columns.
use shared_types::Text;
use sqlite_items::Items;

/// A stored table's name, and those of its columns in order.
#[derive(Drop)]
pub struct TableNames {
    pub name: Text,
    pub columns: Items<Text>,
}
