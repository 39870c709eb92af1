//! What a command reads before anything is answered: the schema, the query and the tables, which are
//! a valid query over tables that fit, or the report that refuses them; and what is said of a report.
#![tactic(auto)]

mod generating;
mod laws;
mod question;
mod report;
mod stages;
mod texts;

pub use generating::generated;
pub use laws::generated_laws;
pub use question::{Question, Request};
pub use report::{Report, Said, say_fault};
pub use stages::find_question;
pub use texts::Valid;
