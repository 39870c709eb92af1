// What the fields of a record hold.
ghost use Rattle.std.specs.Prelude.{◌≡◌, ◌<◌, IfOk, drop, length};
ghost use Rattle.std.specs.Str.{bytes_eq};
ghost use Rattle.csv_tables.specs.Cells.{integer_of, null_text};
ghost use Rattle.csv_tables.specs.Contents as spec;

use shared_types::OutOfMemory;
use sql_ast::DataType;
use sql_value::{Cell, CharacterString};
use std::alloc::Global;

/// What a field holds, by the type of its column.
#[derive(Drop)]
pub enum Content {
    /// A cell of the column's type.
    Holds(Cell),
    /// Neither null nor a number in range, in an INTEGER column.
    BadInteger,
    /// A text of too many characters.
    TooLong,
    /// No UTF-8, in a VARCHAR column.
    BadUtf8,
}

// The number that a field writes; none where it writes none within 64 bits.
fn integer(field: &[u8]) -> Option<i64>
    ensures { result ≡ integer_of field.now }
{
    match std::str::from_utf8(field) {
        Ok(text) => text.parse::<i64>().ok(),
        Err(_) => None,
    }
}

// Whether a field is `\N`.
fn is_null_text(field: &[u8]) -> bool
    ensures { result ≡ bytes_eq field.now null_text }
{
    field == b"\\N".as_slice()
}

// What a field of an INTEGER column holds.
fn integer_content(field: &[u8]) -> Content
    ensures { result ≡ spec.integer_content field.now }
{
    if field.is_empty() || is_null_text(field) {
        return Content::Holds(Cell::Null);
    }
    match integer(field) {
        Some(number) => Content::Holds(Cell::Int(number)),
        None => Content::BadInteger,
    }
}

// Whether a text begins with `\\`.
fn begins_escaped(text: &CharacterString) -> bool
    ensures { result ≡ spec.begins_escaped text.now }
{
    text.len() >= 2 && text.at(0) == '\\' && text.at(1) == '\\'
}

// The characters behind the first.
fn without_first(alloc: Global, text: &CharacterString) -> Result<CharacterString, OutOfMemory>
    requires { 0 < length text.now }
    ensures { IfOk result (λ t. t ≡ drop 1 text.now) }
{
    let mut chars = Vec::new(alloc);
    for place in 1..text.len() {
        chars.push(text.at(place))?;
    }
    CharacterString::from_chars(alloc, chars.as_slice())
}

// The text that the characters of a field stand for: one that begins with `\\` loses one `\`.
fn unescaped(alloc: Global, text: CharacterString) -> Result<CharacterString, OutOfMemory>
    ensures { IfOk result (λ t. t ≡ spec.unescaped text) }
{
    if begins_escaped(&text) {
        without_first(alloc, &text)
    } else {
        Ok(text)
    }
}

// Whether a text has more characters than this.
fn is_longer(text: &CharacterString, limit: i64) -> bool
    ensures { result ≡ spec.is_longer text.now limit }
{
    match usize::try_from(limit) {
        Ok(limit) => text.len() > limit,
        Err(_) => true,
    }
}

// What a field of a VARCHAR column of this length holds.
fn text_content(alloc: Global, limit: i64, field: &[u8]) -> Result<Content, OutOfMemory>
    ensures { IfOk result (λ c. c ≡ spec.text_content limit field.now) }
{
    if is_null_text(field) {
        return Ok(Content::Holds(Cell::Null));
    }
    let Ok(written) = std::str::from_utf8(field) else {
        return Ok(Content::BadUtf8);
    };
    let text = unescaped(alloc, CharacterString::from_utf8(alloc, written)?)?;
    if is_longer(&text, limit) {
        return Ok(Content::TooLong);
    }
    Ok(Content::Holds(Cell::Text(text)))
}

/// What a field of a column of this type holds.
pub fn content_of(alloc: Global, data_type: DataType, field: &[u8]) -> Result<Content, OutOfMemory>
    ensures { IfOk result (λ c. c ≡ spec.content_of data_type field.now) }
{
    match data_type {
        DataType::Integer | DataType::Int => Ok(integer_content(field)),
        DataType::Varchar(limit) => text_content(alloc, limit, field),
    }
}
