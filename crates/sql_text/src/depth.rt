// Texts that are too deep to be read.
ghost use Rattle.std.specs.Prelude.{◌≡◌, ◌<◌, ◌+◌, ◌^◌, length};
ghost use Rattle.sql_text.specs.Tokens.{token_list};
ghost use Rattle.sql_text.specs.Depth as spec;

use crate::key::Key;
use crate::token::{Spanned, Token};

/// The most `(` and CASE that may be open at once.
const NESTING: usize = 64;

/// The most UNION, EXCEPT, INTERSECT and JOIN that a statement may have.
const TABLES: usize = 64;

/// The most AND, OR, `,`, `+`, `-`, `*`, `/` and `||` that a statement may have.
const VALUES: usize = 2048;

/// Whether no prefix has over `NESTING` more `(` and CASE than `)` and END.
fn is_shallow(tokens: &[Spanned]) -> bool
    ensures { result ≡ spec.shallow 64 (token_list tokens.now) }
{
    let mut room = NESTING;
    for spanned in tokens {
        match &spanned.token {
            Token::RightParen | Token::Key(Key::End) => room += 1,
            Token::LeftParen | Token::Key(Key::Case) => {
                if room == 0 {
                    return false;
                }
                room -= 1;
            }
            _ => {}
        }
    }
    true
}

fn is_semicolon(token: &Token) -> bool
    ensures { result ≡ spec.is_semicolon token.now }
{
    matches!(token, Token::Semicolon)
}

/// Which tokens of a statement are counted.
#[derive(Clone, Copy)]
enum Counted {
    /// Those that combine tables or queries: UNION, EXCEPT, INTERSECT, JOIN.
    Tables,
    /// Those that combine values or conditions: AND, OR, `,`, `+`, `-`, `*`, `/`, `||`.
    Values,
}

fn is_counted(counted: Counted, token: &Token) -> bool
    ensures { result ≡ spec.is_counted counted token.now }
{
    match counted {
        Counted::Tables => matches!(
            token,
            Token::Key(Key::Union | Key::Except | Key::Intersect | Key::Join)
        ),
        Counted::Values => matches!(
            token,
            Token::Key(Key::And | Key::Or)
                | Token::Comma
                | Token::Plus
                | Token::Minus
                | Token::Star
                | Token::Slash
                | Token::Concat
        ),
    }
}

/// Whether some statement has over `limit` tokens that are counted.
fn is_crowded(counted: Counted, limit: usize, tokens: &[Spanned]) -> bool
    ensures { result ≡ spec.crowded (spec.is_counted counted) limit (token_list tokens.now) }
{
    let mut count = 0;
    for spanned in tokens {
        if is_semicolon(&spanned.token) {
            count = 0;
        } else if is_counted(counted, &spanned.token) {
            if count == limit {
                return true;
            }
            count += 1;
        }
    }
    false
}

/// Whether a text is too deep to be read: some prefix of its tokens has over 64 more `(` and CASE
/// than `)` and END, or one statement has over 64 of UNION, EXCEPT, INTERSECT and JOIN, or over
/// 2,048 of AND, OR, `,`, `+`, `-`, `*`, `/` and `||`.
#[tactic(auto, unfolding(crate::specs::Depth::too_deep))]
pub fn too_deep(tokens: &[Spanned]) -> bool
    ensures { result ≡ spec.too_deep (token_list tokens.now) }
{
    !is_shallow(tokens)
        || is_crowded(Counted::Tables, TABLES, tokens)
        || is_crowded(Counted::Values, VALUES, tokens)
}
