// Stored texts.
ghost use Rattle.std.specs.Prelude.{◌≡◌, ◌≤◌, ◌<◌, ◌++◌, IfOk, IfSome, IsAscii, OnOk, encode_utf8_all, length, nat_eq, slice_index, ℕ, List};
ghost use Rattle.std.specs.String.{string_bytes};
ghost use Rattle.std.proofs.Common.{rules};
ghost use Rattle.std.specs.Cmp.{partial_equiv_from_equiv, partial_order_from_own_ties};
ghost use Rattle.std.specs.Cmp.Rules.{comparing, hashing};
ghost use Rattle.std.specs.Cmp.Lexicographic.{nat_list_eq_equiv, nat_list_cmp_total, pointwise, slice_cmp};
ghost use Rattle.std.specs.Ordering.{nat_cmp, as_partial_cmp};
ghost use Rattle.std.specs.Hash as fed;
ghost use Rattle.sql_value.specs.Characters.{listed, places_taken, stored_characters};

use crate::characters::{Characters, order_of};
use shared_types::OutOfMemory;
use std::alloc::Global;
use std::cmp::Ordering;
use std::hash::{Hash, Hasher};
use std::marker::Model;

/// As many ASCII characters as stand in a text's own piece of memory.
const PLACES: usize = 22;

/// How the characters of a text are stored.
#[derive(Drop)]
enum Stored {
    /// So many of these bytes, each an ASCII character.
    Short(u8, [u8; 22]),
    /// ASCII characters.
    Long(Box<Vec<u8>>),
    /// Any characters.
    Wide(Box<Vec<char>>),
}

const _: () = prove!(size_of::<Stored>() == 24);

/// A stored text (SQL-92 4.2): characters in a row, in one piece of memory of 24 bytes where they are
/// at most 22 and ASCII. Contracts see it as the list of its Unicode scalar values; equality, order and
/// hash are those of that list.
#[derive(Drop)]
pub struct CharacterString {
    // Boxed, so that a cell takes two words.
    stored: Box<Stored>,
}

impl Model for CharacterString {
    ghost use Rattle.std.specs.Prelude.{◌≤◌, IsAscii, List, ℕ};
    ghost use Rattle.sql_value.specs.Characters.{places_taken, stored_ascii, stored_characters};

    ghost Value = { List ℕ };

    ghost view = { λ s. stored_characters s.stored.value };

    ghost invariant = { λ s. (places_taken s.stored.value ≤ 22) × IsAscii (stored_ascii s.stored.value) };
}

// A few ASCII characters.
fn short(bytes: &[u8]) -> Stored
    requires { length bytes.now ≤ 22 }
    ensures characters { stored_characters result ≡ bytes.now }
    ensures places { places_taken result ≡ length bytes.now }
{
    let mut places = [0; 22];
    for i in 0..bytes.len() {
        places[i] = bytes[i];
    }
    Stored::Short(bytes.len() as u8, places)
}

// The bytes of characters that are all ASCII.
fn ascii_of(alloc: Global, chars: &[char]) -> Result<Option<Vec<u8>>, OutOfMemory>
    ensures characters { IfOk result (λ found. IfSome found (λ v. v.items ≡ chars.now)) }
    ensures ascii { IfOk result (λ found. IfSome found (λ v. IsAscii v.items)) }
{
    let mut bytes = Vec::with_capacity(alloc, chars.len())?;
    for c in chars {
        if !c.is_ascii() {
            return Ok(None);
        }
        bytes.push(*c as u8)?;
    }
    Ok(Some(bytes))
}

impl CharacterString {
    // ASCII characters.
    fn from_ascii(alloc: Global, bytes: &[u8]) -> Result<CharacterString, OutOfMemory>
        requires { IsAscii bytes.now }
        ensures { IfOk result (λ t. t ≡ bytes.now) }
    {
        let stored = if bytes.len() <= PLACES {
            short(bytes)
        } else {
            Stored::Long(Box::new(alloc, Vec::from_slice(alloc, bytes)?)?)
        };
        Ok(CharacterString {
            stored: Box::new(alloc, stored)?,
        })
    }

    // Any characters.
    fn from_wide(alloc: Global, chars: Vec<char>) -> Result<CharacterString, OutOfMemory>
        ensures { IfOk result (λ t. t ≡ chars.items) }
    {
        Ok(CharacterString {
            stored: Box::new(alloc, Stored::Wide(Box::new(alloc, chars)?))?,
        })
    }

    /// These characters. It fails only for want of memory.
    pub fn from_chars(alloc: Global, chars: &[char]) -> Result<CharacterString, OutOfMemory>
        ensures { IfOk result (λ t. t ≡ chars.now) }
    {
        match ascii_of(alloc, chars)? {
            Some(bytes) => CharacterString::from_ascii(alloc, bytes.as_slice()),
            None => CharacterString::from_wide(alloc, Vec::from_slice(alloc, chars)?),
        }
    }

    /// The characters that UTF-8 bytes write. It fails only for want of memory.
    pub fn from_utf8(alloc: Global, text: &str) -> Result<CharacterString, OutOfMemory>
        ensures { IfOk result (λ t. encode_utf8_all t ≡ text.now) }
    {
        if text.is_ascii() {
            CharacterString::from_ascii(alloc, text.as_bytes())
        } else {
            CharacterString::from_wide(alloc, text.chars().collect(alloc)?)
        }
    }

    /// The bytes, where the text is stored as ASCII characters.
    pub fn ascii(&self) -> Option<&[u8]>
        ensures characters { IfSome result (λ bytes. bytes.now ≡ self.now) }
        ensures ascii { IfSome result (λ bytes. IsAscii bytes.now) }
        ensures utf8 { IfSome result (λ bytes. bytes.now ≡ encode_utf8_all self.now) }
    {
        match &*self.stored {
            Stored::Short(count, places) => Some(&places[..*count as usize]),
            Stored::Long(bytes) => Some(bytes.as_slice()),
            Stored::Wide(_) => None,
        }
    }

    /// The characters, as they are stored.
    pub(crate) fn characters(&self) -> Characters<'_>
        ensures { listed result ≡ self.now }
    {
        match &*self.stored {
            Stored::Short(count, places) => Characters::Ascii(&places[..*count as usize]),
            Stored::Long(bytes) => Characters::Ascii(bytes.as_slice()),
            Stored::Wide(chars) => Characters::Wide(chars.as_slice()),
        }
    }

    /// How many characters there are.
    pub fn len(&self) -> usize
        ensures { result ≡ length self.now }
    {
        self.characters().len()
    }

    /// The character at a place.
    pub fn at(&self, place: usize) -> char
        requires { place < length self.now }
        ensures { result ≡ slice_index self.now place }
    {
        self.characters().at(place)
    }

    /// An equal text. It fails only for want of memory.
    pub fn copy(&self, alloc: Global) -> Result<CharacterString, OutOfMemory>
        ensures { IfOk result (λ t. t ≡ self.now) }
    {
        match self.ascii() {
            Some(bytes) => CharacterString::from_ascii(alloc, bytes),
            None => {
                let mut chars = Vec::new(alloc);
                self.characters().append_to(&mut chars)?;
                CharacterString::from_wide(alloc, chars)
            }
        }
    }

    /// The characters in UTF-8. It fails only for want of memory.
    pub fn to_utf8(&self, alloc: Global) -> Result<String, OutOfMemory>
        ensures { IfOk result (λ s. string_bytes s ≡ encode_utf8_all self.now) }
    {
        let mut text = String::new(alloc);
        for place in 0..self.len() {
            text.push(self.at(place))?;
        }
        Ok(text)
    }

    /// The characters of one text and then those of another. It fails only for want of memory.
    pub fn joined(
        alloc: Global,
        s: &CharacterString,
        t: &CharacterString,
    ) -> Result<CharacterString, OutOfMemory>
        ensures { IfOk result (λ made. made ≡ s.now ++ t.now) }
    {
        if let (Some(first), Some(second)) = (s.ascii(), t.ascii()) {
            let mut bytes = Vec::from_slice(alloc, first)?;
            bytes.extend_from_slice(second)?;
            return CharacterString::from_ascii(alloc, bytes.as_slice());
        }
        let mut chars = Vec::new(alloc);
        s.characters().append_to(&mut chars)?;
        t.characters().append_to(&mut chars)?;
        CharacterString::from_wide(alloc, chars)
    }
}

impl PartialEq for CharacterString {
    ghost eq = { pointwise nat_eq };

    ghost laws = { partial_equiv_from_equiv nat_list_eq_equiv };

    fn eq(&self, other: &CharacterString) -> bool {
        order_of(self.characters(), other.characters()).is_eq()
    }
}

impl Eq for CharacterString {
    ghost laws = { nat_list_eq_equiv };
}

impl PartialOrd for CharacterString {
    ghost partial_cmp = { as_partial_cmp (slice_cmp nat_cmp) };

    ghost laws = { partial_order_from_own_ties (Prim.search (comparing, rules)) (Prim.search (comparing, rules)) };

    fn partial_cmp(&self, other: &CharacterString) -> Option<Ordering> {
        Some(self.cmp(other))
    }
}

impl Ord for CharacterString {
    ghost cmp = { slice_cmp nat_cmp };

    ghost total = { nat_list_cmp_total };

    ghost matches_partial_cmp = { Prim.search (comparing, rules) };

    ghost matches_eq = { Prim.search (comparing, rules) };

    fn cmp(&self, other: &CharacterString) -> Ordering {
        order_of(self.characters(), other.characters())
    }
}

impl Hash for CharacterString {
    ghost hash_input = { fed.slice fed.char };

    ghost respects_eq = { Prim.search (hashing, rules) };

    fn hash<H: Hasher>(&self, state: &mut H) {
        state.write_usize(self.len());
        for place in 0..self.len() {
            self.at(place).hash(state);
        }
    }
}
