//! The text of a schema or a query as tokens.
#![tactic(auto)]

mod depth;
mod key;
mod lexer;
mod number;
mod quoted;
mod refusal;
mod sign;
mod token;
mod words;

pub use depth::too_deep;
pub use key::Key;
pub use lexer::lex;
pub use refusal::LexRefusal;
pub use shared_types::CmpOp;
pub use token::{Name, Spanned, Token};
