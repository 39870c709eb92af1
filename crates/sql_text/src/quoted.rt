// Strings and delimited names.
ghost use Rattle.std.specs.Prelude.{◌≡◌, ◌≤◌, [], Ok, IfOk, IfSome, IfNone, drop, length};
ghost use Rattle.sql_text.specs.Tokens as spec;
ghost use Rattle.sql_text.specs.Tokens.{Gives};

use crate::refusal::LexRefusal;
use crate::token::Token;
use shared_types::Text;
use std::alloc::Global;

/// The character that stands first within quotes, and how many characters it is written in; none
/// where the closing quote or the end of the text stands.
fn next_within(quote: char, chars: &[char]) -> Option<(char, usize)>
    ensures next { IfSome result (λ next. spec.quoted quote chars.now ≡ spec.with_character next.0 next.1 (spec.quoted quote (drop next.1 chars.now))) }
    ensures size { IfSome result (λ next. (1 ≤ next.1) × (next.1 ≤ length chars.now)) }
    ensures closed { IfNone result (1 ≤ length chars.now → spec.quoted quote chars.now ≡ Ok ([], 1)) }
{
    match chars {
        [c, d, ..] if *c == quote && *d == quote => Some((quote, 2)),
        [c, ..] if *c != quote => Some((*c, 1)),
        _ => None,
    }
}

/// After an opening quote: the characters up to the closing one, where two quotes stand for one,
/// and how many characters they are written in with the closing quote.
fn quoted(alloc: Global, quote: char, chars: &[char]) -> Result<(Text, usize), LexRefusal>
    ensures found { Gives result (spec.quoted quote chars.now) }
    ensures size { IfOk result (λ found. found.1 ≤ length chars.now) }
{
    let mut text = Text::new(alloc)?;
    let mut size = 0;
    let mut rest = chars;
    'characters: while let Some((c, written)) = next_within(quote, rest) {
        text.push(c)?;
        size += written;
        (_, rest) = rest.split_at(written);
    }
    if rest.is_empty() {
        return Err(LexRefusal::Unterminated);
    }
    Ok((text, size + 1))
}

/// The string whose characters follow the opening quote.
pub fn string(alloc: Global, chars: &[char]) -> Result<(Option<Token>, usize), LexRefusal>
    ensures { Gives result (spec.string (spec.quoted 39 chars.now)) }
{
    let (text, size) = quoted(alloc, '\'', chars)?;
    Ok((Some(Token::Str(text)), size + 1))
}

/// The delimited name whose characters follow the opening quote.
pub fn delimited_name(alloc: Global, chars: &[char]) -> Result<(Option<Token>, usize), LexRefusal>
    ensures { Gives result (spec.delimited_name (spec.quoted 34 chars.now)) }
{
    let (name, size) = quoted(alloc, '"', chars)?;
    if name.as_slice().is_empty() {
        return Err(LexRefusal::BadCharacter);
    }
    Ok((Some(Token::Name(name)), size + 1))
}
