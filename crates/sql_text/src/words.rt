// Words: key words and names.
ghost use Rattle.std.specs.Prelude.{◌≡◌, IfOk, map};
ghost use Rattle.std.specs.Str.{bytes_eq};
ghost use Rattle.sql_text.specs.Tokens as spec;

use crate::key::Key;
use crate::token::{Name, Token};
use shared_types::{OutOfMemory, Text};
use std::alloc::Global;

/// The key words with their letters, as `specs/Keys.antt` has them.
const KEY_WORDS: [(&str, Key); 63] = [
    ("ALL", Key::All),
    ("AND", Key::And),
    ("ANY", Key::Any),
    ("AS", Key::As),
    ("ASC", Key::Asc),
    ("AVG", Key::Avg),
    ("BETWEEN", Key::Between),
    ("BY", Key::By),
    ("CASE", Key::Case),
    ("CAST", Key::Cast),
    ("CHECK", Key::Check),
    ("COALESCE", Key::Coalesce),
    ("CORRESPONDING", Key::Corresponding),
    ("COUNT", Key::Count),
    ("CREATE", Key::Create),
    ("CROSS", Key::Cross),
    ("DECIMAL", Key::Decimal),
    ("DESC", Key::Desc),
    ("DISTINCT", Key::Distinct),
    ("ELSE", Key::Else),
    ("END", Key::End),
    ("ESCAPE", Key::Escape),
    ("EXCEPT", Key::Except),
    ("EXISTS", Key::Exists),
    ("FROM", Key::From),
    ("FULL", Key::Full),
    ("GROUP", Key::Group),
    ("HAVING", Key::Having),
    ("IN", Key::In),
    ("INNER", Key::Inner),
    ("INT", Key::Int),
    ("INTEGER", Key::Integer),
    ("INTERSECT", Key::Intersect),
    ("IS", Key::Is),
    ("JOIN", Key::Join),
    ("KEY", Key::Key),
    ("LEFT", Key::Left),
    ("LIKE", Key::Like),
    ("MAX", Key::Max),
    ("MIN", Key::Min),
    ("NATURAL", Key::Natural),
    ("NOT", Key::Not),
    ("NULL", Key::Null),
    ("NULLIF", Key::NullIf),
    ("ON", Key::On),
    ("OR", Key::Or),
    ("ORDER", Key::Order),
    ("OUTER", Key::Outer),
    ("PRIMARY", Key::Primary),
    ("RIGHT", Key::Right),
    ("SELECT", Key::Select),
    ("SOME", Key::Some),
    ("SUM", Key::Sum),
    ("TABLE", Key::Table),
    ("THEN", Key::Then),
    ("UNION", Key::Union),
    ("UNIQUE", Key::Unique),
    ("USING", Key::Using),
    ("VALUES", Key::Values),
    ("VARCHAR", Key::Varchar),
    ("VIEW", Key::View),
    ("WHEN", Key::When),
    ("WHERE", Key::Where),
];

/// Whether a character is a letter from A to Z in either case.
pub fn is_letter(c: char) -> bool
    ensures { result ≡ spec.is_letter c }
{
    c.is_ascii_alphabetic()
}

/// Whether a character may stand in a word after its first letter.
fn in_word(c: char) -> bool
    ensures { result ≡ spec.in_word c }
{
    is_letter(c) || c.is_ascii_digit() || c == '_'
}

/// How many characters the word has that stands first.
pub fn word_length(chars: &[char]) -> usize
    ensures { result ≡ spec.word_length chars.now }
{
    chars.iter().take_while(|c| in_word(**c)).count()
}

/// Whether a word has these letters in upper case.
fn has_letters(mut word: &[char], mut letters: &[u8]) -> bool
    ensures { result ≡ bytes_eq letters.entry.now (spec.folded word.entry.now) }
{
    'letters: while let ([c, more @ ..], [letter, others @ ..]) = (word, letters) {
        if char::from(*letter) != c.to_ascii_uppercase() {
            return false;
        }
        word = more;
        letters = others;
    }
    word.is_empty() && letters.is_empty()
}

/// The key word of a table that a word is.
fn lookup(table: &[(&str, Key)], word: &[char]) -> Option<Key>
    ensures { result ≡ spec.key_in (spec.entry_of (map (λ entry. (entry.0.now, entry.1)) table.now) (spec.folded word.now)) }
{
    for (letters, key) in table {
        if has_letters(word, letters.as_bytes()) {
            return Some(*key);
        }
    }
    None
}

/// The key word that a word is.
fn key_word(word: &[char]) -> Option<Key>
    ensures { result ≡ spec.key_word (spec.folded word.now) }
{
    lookup(&KEY_WORDS, word)
}

/// A name of these characters in upper case.
fn name(alloc: Global, word: &[char]) -> Result<Name, OutOfMemory>
    ensures { IfOk result (λ name. name ≡ spec.folded word.now) }
{
    let mut name = Text::new(alloc)?;
    for c in word {
        name.push(c.to_ascii_uppercase())?;
    }
    Ok(name)
}

/// The token that a word is.
pub fn word_token(alloc: Global, word: &[char]) -> Result<Token, OutOfMemory>
    ensures { IfOk result (λ token. token ≡ spec.word_token (spec.folded word.now)) }
{
    match key_word(word) {
        Some(key) => Ok(Token::Key(key)),
        None => Ok(Token::Name(name(alloc, word)?)),
    }
}
