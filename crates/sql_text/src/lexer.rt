// The tokens of a text.
ghost use Rattle.std.specs.Prelude.{◌≡◌, ◌+◌, ◌++◌, ◌<◌, ◌^◌, [], Ok, Err, IfOk, OnOk, IsErrOf, All, length};
ghost use Rattle.sql_text.specs.Tokens as spec;
ghost use Rattle.sql_text.specs.Tokens.{Gives, GivesSeen};

use crate::number::number;
use crate::quoted::{delimited_name, string};
use crate::refusal::LexRefusal;
use crate::sign::sign;
use crate::token::{Spanned, Token};
use crate::words::{is_letter, word_length, word_token};
use shared_types::{OutOfMemory, Text};
use std::alloc::Global;

fn is_blank(c: char) -> bool
    ensures { result ≡ spec.is_blank c }
{
    c == ' ' || c == '\t' || c == '\n' || c == '\r'
}

fn starts_comment(chars: &[char]) -> bool
    ensures { result ≡ spec.starts_comment chars.now }
{
    match chars {
        ['-', '-', ..] => true,
        _ => false,
    }
}

/// How many characters stand before the first line feed.
fn comment_length(chars: &[char]) -> usize
    ensures { result ≡ spec.comment_length chars.now }
{
    chars.iter().take_while(|c| **c != '\n').count()
}

/// The token that stands first, or none where a blank or a comment does, and how many characters
/// it has.
fn first(alloc: Global, chars: &[char]) -> Result<(Option<Token>, usize), LexRefusal>
    ensures { Gives result (spec.first chars.now) }
{
    match chars {
        [] => Err(LexRefusal::BadCharacter),
        [c, rest @ ..] => {
            if is_blank(*c) {
                Ok((None, 1))
            } else if starts_comment(chars) {
                Ok((None, comment_length(chars)))
            } else if is_letter(*c) {
                let size = word_length(chars);
                Ok((Some(word_token(alloc, &chars[..size])?), size))
            } else if c.is_ascii_digit() {
                number(chars)
            } else if *c == '\'' {
                string(alloc, rest)
            } else if *c == '"' {
                delimited_name(alloc, rest)
            } else {
                sign(chars)
            }
        }
    }
}

#[tactic(auto, unfolding(crate::specs::Tokens::width))]
fn width(c: char) -> usize
    ensures { result ≡ spec.width c }
{
    c.len_utf8()
}

/// How many bytes characters have in UTF-8.
fn utf8_length(chars: &[char]) -> usize
    requires { spec.widths chars.now < 2 ^ 64 }
    ensures { result ≡ spec.widths chars.now }
{
    let mut length = 0;
    for c in chars {
        length += width(*c);
    }
    length
}

/// Adds what was found at `place`, so many bytes long, to the tokens, if it is one.
fn add(
    spans: &mut Vec<Spanned>,
    found: Option<Token>,
    place: usize,
    bytes: usize,
) -> Result<(), OutOfMemory>
    requires { place + bytes < 2 ^ 64 }
    ensures { OnOk result (spans.new.items ≡ spans.old.items ++ spec.before place found bytes []) }
{
    let Some(token) = found else {
        return Ok(());
    };
    spans.push(Spanned {
        token,
        start: place,
        end: place + bytes,
    })?;
    Ok(())
}

/// The tokens of characters, with their places in bytes.
fn spans(alloc: Global, chars: &[char]) -> Result<Vec<Spanned>, LexRefusal>
    requires { spec.widths chars.now < 2 ^ 64 }
    ensures { GivesSeen (λ spans. spans.items) result (spec.tokens_at 0 0 chars.now) }
{
    let mut spans = Vec::new(alloc);
    let mut place = 0;
    let mut rest = chars;
    'text: while !rest.is_empty() {
        let (found, size) = first(alloc, rest)?;
        let (here, after) = rest.split_at(size);
        let bytes = utf8_length(here);
        add(&mut spans, found, place, bytes)?;
        place += bytes;
        rest = after;
    }
    Ok(spans)
}

/// The tokens of a text in UTF-8 with their places, by the longest match from the left (SQL-92,
/// 5.2). Fails at the first fault, or where memory runs out.
pub fn lex(alloc: Global, bytes: &[u8]) -> Result<Vec<Spanned>, LexRefusal>
    ensures tokens { IfOk result (λ spans. spec.tokens bytes.now ≡ Ok spans.items) }
    ensures bad_character { IsErrOf result LexRefusal.BadCharacter → spec.tokens bytes.now ≡ Err 1 }
    ensures unterminated { IsErrOf result LexRefusal.Unterminated → spec.tokens bytes.now ≡ Err 2 }
    ensures number_too_large { IsErrOf result LexRefusal.NumberTooLarge → spec.tokens bytes.now ≡ Err 3 }
    ensures ascending { IfOk result (λ spans. spec.Ascends 0 spans.items (length bytes.now)) }
    ensures slices { IfOk result (λ spans. All (spec.StandsIn bytes.now) spans.items) }
{
    let Ok(text) = std::str::from_utf8(bytes) else {
        return Err(LexRefusal::BadCharacter);
    };
    let text = Text::from_utf8(alloc, text)?;
    spans(alloc, text.as_slice())
}
