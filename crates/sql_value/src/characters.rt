// The characters of a stored text, where they stand.
ghost use Rattle.std.specs.Prelude.{◌≡◌, ◌<◌, ◌++◌, OnOk, length, slice_index};
ghost use Rattle.std.specs.Cmp.Lexicographic.{slice_cmp};
ghost use Rattle.std.specs.Ordering.{nat_cmp};
ghost use Rattle.sql_value.specs.Characters.{listed};

use shared_types::OutOfMemory;
use std::cmp::Ordering;

/// Characters that stand elsewhere.
#[derive(Clone, Copy)]
pub(crate) enum Characters<'a> {
    /// ASCII characters.
    Ascii(&'a [u8]),
    /// Any characters.
    Wide(&'a [char]),
}

impl<'a> Characters<'a> {
    /// How many there are.
    pub(crate) fn len(self) -> usize
        ensures { result ≡ length (listed self.entry) }
    {
        match self {
            Characters::Ascii(bytes) => bytes.len(),
            Characters::Wide(chars) => chars.len(),
        }
    }

    /// The one at a place.
    pub(crate) fn at(self, place: usize) -> char
        requires { place < length (listed self) }
        ensures { result ≡ slice_index (listed self.entry) place }
    {
        match self {
            Characters::Ascii(bytes) => char::from(bytes[place]),
            Characters::Wide(chars) => chars[place],
        }
    }

    /// Adds them at the end.
    pub(crate) fn append_to(self, chars: &mut Vec<char>) -> Result<(), OutOfMemory>
        ensures { OnOk result (chars.new.items ≡ chars.old.items ++ listed self.entry) }
    {
        for place in 0..self.len() {
            chars.push(self.at(place))?;
        }
        Ok(())
    }
}

// The order of characters that are stored differently.
fn order_by_places(a: Characters<'_>, b: Characters<'_>) -> Ordering
    ensures { result ≡ slice_cmp nat_cmp (listed a.entry) (listed b.entry) }
{
    for place in 0..a.len().min(b.len()) {
        match a.at(place).cmp(&b.at(place)) {
            Ordering::Equal => {}
            order => return order,
        }
    }
    a.len().cmp(&b.len())
}

/// The order of characters by code point.
pub(crate) fn order_of(a: Characters<'_>, b: Characters<'_>) -> Ordering
    ensures { result ≡ slice_cmp nat_cmp (listed a.entry) (listed b.entry) }
{
    match (a, b) {
        (Characters::Ascii(a), Characters::Ascii(b)) => a.cmp(b),
        (Characters::Wide(a), Characters::Wide(b)) => a.cmp(b),
        (Characters::Ascii(_), Characters::Wide(_)) | (Characters::Wide(_), Characters::Ascii(_)) =>
            order_by_places(a, b),
    }
}
