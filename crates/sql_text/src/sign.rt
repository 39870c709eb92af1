// Signs.
ghost use Rattle.std.specs.Prelude.{◌≡◌};
ghost use Rattle.sql_text.specs.Tokens as spec;
ghost use Rattle.sql_text.specs.Tokens.{Gives};

use crate::refusal::LexRefusal;
use crate::token::Token;
use shared_types::CmpOp;

/// The sign of two characters that these are.
fn long_sign(c: char, d: char) -> Option<Token>
    ensures { result ≡ spec.long_sign c d }
{
    match (c, d) {
        ('<', '>') => Some(Token::Compare(CmpOp::Ne)),
        ('<', '=') => Some(Token::Compare(CmpOp::Le)),
        ('>', '=') => Some(Token::Compare(CmpOp::Ge)),
        ('|', '|') => Some(Token::Concat),
        _ => None,
    }
}

/// The sign that a character is.
fn short_sign(c: char) -> Option<Token>
    ensures { result ≡ spec.short_sign c }
{
    match c {
        '(' => Some(Token::LeftParen),
        ')' => Some(Token::RightParen),
        ',' => Some(Token::Comma),
        '.' => Some(Token::Dot),
        '*' => Some(Token::Star),
        '+' => Some(Token::Plus),
        '-' => Some(Token::Minus),
        '/' => Some(Token::Slash),
        '=' => Some(Token::Compare(CmpOp::Eq)),
        '<' => Some(Token::Compare(CmpOp::Lt)),
        '>' => Some(Token::Compare(CmpOp::Gt)),
        ';' => Some(Token::Semicolon),
        _ => None,
    }
}

/// What a sign of one character gives.
fn found_short(c: char) -> Result<(Option<Token>, usize), LexRefusal>
    ensures { Gives result (spec.found_short (spec.short_sign c)) }
{
    match short_sign(c) {
        Some(token) => Ok((Some(token), 1)),
        None => Err(LexRefusal::BadCharacter),
    }
}

/// The longest sign that stands first.
pub fn sign(chars: &[char]) -> Result<(Option<Token>, usize), LexRefusal>
    ensures { Gives result (spec.sign chars.now) }
{
    match chars {
        [] => Err(LexRefusal::BadCharacter),
        [c] => found_short(*c),
        [c, d, ..] => match long_sign(*c, *d) {
            Some(token) => Ok((Some(token), 2)),
            None => found_short(*c),
        },
    }
}
