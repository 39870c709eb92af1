//! Tables from CSV files, and CSV text from rows.
#![tactic(auto)]

mod content;
mod differ;
mod header;
mod key_cells;
mod keys_once;
mod loading;
mod records;
mod refusal;
mod rule;
mod seen;
mod table;
mod write;

pub use loading::load;
pub use refusal::DataRefusal;
pub use write::write_rows;
