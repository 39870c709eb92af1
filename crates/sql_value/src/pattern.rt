// Texts that fit a pattern.
ghost use Rattle.std.specs.Prelude.{◌≡◌, [], drop};
ghost use Rattle.sql_value.specs.Characters.{listed};
ghost use Rattle.sql_value.specs.Like as spec;

use crate::cell::{Cell, worst};
use crate::characters::Characters;
use crate::truth::{Truth, decided, error, unknown};

// Whether `%` stands at a place of a pattern.
fn any_at(pattern: Characters<'_>, place: usize) -> bool
    ensures { result ≡ spec.begins_any (drop place (listed pattern.entry)) }
{
    place < pattern.len() && pattern.at(place) == '%'
}

// Whether at a place of a pattern a sign other than `%` stands for this character.
fn one_at(pattern: Characters<'_>, place: usize, c: char) -> bool
    ensures { result ≡ spec.begins_one (drop place (listed pattern.entry)) c }
{
    if place >= pattern.len() {
        return false;
    }
    let sign = pattern.at(place);
    sign != '%' && (sign == '_' || sign == c)
}

// Whether the empty text fits a pattern from a place on.
fn fits_nothing(pattern: Characters<'_>, place: usize) -> bool
    ensures { result ≡ spec.fits (drop place (listed pattern.entry)) [] }
{
    for i in place..pattern.len() {
        if pattern.at(i) != '%' {
            return false;
        }
    }
    true
}

// Whether a text fits a pattern. After a sign `%` the rest of the pattern is tried from each place
// of the text on, up to the next `%`, which takes over where it is reached.
fn fits(pattern: Characters<'_>, text: Characters<'_>) -> bool
    ensures { result ≡ spec.fits (listed pattern.entry) (listed text.entry) }
{
    let mut i = 0;
    let mut j = 0;
    let mut retry: Option<(usize, usize)> = None;
    while i < text.len() {
        if any_at(pattern, j) {
            j += 1;
            retry = Some((i, j));
        } else if one_at(pattern, j, text.at(i)) {
            i += 1;
            j += 1;
        } else if let Some((start, after)) = retry {
            i = start + 1;
            j = after;
            retry = Some((i, j));
        } else {
            return false;
        }
    }
    fits_nothing(pattern, j)
}

/// `a LIKE pattern` (SQL-92 8.5): in the pattern `%` stands for any sequence of characters, `_`
/// for any one character, and each other character for itself. An error among the operands gives
/// the greatest of them; else it is unknown where the operands are not two texts, so where one is
/// null.
pub fn like(a: &Cell, pattern: &Cell) -> Truth
    ensures { result ≡ spec.like a.now pattern.now }
{
    if let Some(kind) = worst(a, pattern) {
        return error(kind);
    }
    let (Cell::Text(text), Cell::Text(pattern)) = (a, pattern) else {
        return unknown();
    };
    decided(fits(pattern.characters(), text.characters()))
}
