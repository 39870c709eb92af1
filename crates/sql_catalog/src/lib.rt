//! The catalog that a schema declares.
#![tactic(auto)]

mod catalog;
mod declare;
mod descriptor;
mod faults;
mod key;
mod limits;
mod name_list;
mod name_set;
mod nesting;
mod reader;
mod refusal;
mod walk;

pub use catalog::{Catalog, TableList, ViewList};
pub use declare::build;
pub use descriptor::{ColumnDescriptor, KeyDescriptor, TableDescriptor, describe};
pub use key::{Key, column_names, column_types, keys};
pub use reader::{Reader, readers};
pub use refusal::SchemaRefusal;
