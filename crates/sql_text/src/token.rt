// The tokens of a text, and where they stand in it.
use crate::key::Key;
use shared_types::{CmpOp, Text};

/// A name, in upper case where it was written without quotes. Contracts see it as the list of its
/// characters.
pub type Name = Text;

/// A token (SQL-92, 5.2).
#[derive(Drop)]
pub enum Token {
    /// A key word.
    Key(Key),
    /// A name: a word that is no key word, in upper case; or what stands between double quotes.
    Name(Name),
    /// An unsigned integer, at most 9223372036854775807.
    Number(i64),
    /// The characters between single quotes.
    Str(Text),
    LeftParen,
    RightParen,
    Comma,
    Dot,
    Star,
    Plus,
    Minus,
    Slash,
    /// `=`, `<>`, `<`, `<=`, `>`, `>=`.
    Compare(CmpOp),
    /// `||`.
    Concat,
    Semicolon,
}

/// A token with its place: the bytes from `start` up to, and without, `end`.
#[derive(Drop)]
pub struct Spanned {
    pub token: Token,
    pub start: usize,
    pub end: usize,
}
