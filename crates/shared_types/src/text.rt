// Characters in a row, as names, strings and stored texts hold them.
ghost use Rattle.std.specs.Prelude.{◌≡◌, ◌++◌, ◌∷◌, [], length, nat_eq, IfOk, OnOk, OnErr, ℕ, List, encode_utf8_all};
ghost use Rattle.std.specs.String.{string_bytes};
ghost use Rattle.std.proofs.Common.{rules};
ghost use Rattle.std.specs.Cmp.{partial_equiv_from_equiv, partial_order_from_own_ties};
ghost use Rattle.std.specs.Cmp.Rules.{comparing, hashing};
ghost use Rattle.std.specs.Cmp.Lexicographic.{nat_list_eq_equiv, nat_list_cmp_total, pointwise, slice_cmp};
ghost use Rattle.std.specs.Ordering.{nat_cmp, as_partial_cmp};
ghost use Rattle.std.specs.Hash as fed;

use crate::memory::OutOfMemory;
use std::alloc::{AllocError, Global};
use std::cmp::Ordering;
use std::hash::{Hash, Hasher};
use std::marker::Model;

/// Characters in a row. Contracts see it as the list of its Unicode scalar values; equality,
/// order and hash are those of that list.
#[derive(Debug, Drop)]
pub struct Text {
    // Boxed, so that a text takes one word where many stand in a row, as in cells.
    chars: Box<Vec<char>>,
}

impl Model for Text {
    ghost Value = { List ℕ };

    ghost view = { λ t. t.chars.value.items };
}

impl Text {
    // The characters of a vector.
    fn from_vec(alloc: Global, chars: Vec<char>) -> Result<Text, OutOfMemory>
        ensures { IfOk result (λ t. t ≡ chars.items) }
    {
        Ok(Text {
            chars: Box::new(alloc, chars)?,
        })
    }

    /// No character.
    pub fn new(alloc: Global) -> Result<Text, OutOfMemory>
        ensures { IfOk result (λ t. t ≡ []) }
    {
        Text::from_vec(alloc, Vec::new(alloc))
    }

    /// The characters of a slice.
    pub fn from_chars(alloc: Global, chars: &[char]) -> Result<Text, OutOfMemory>
        ensures { IfOk result (λ t. t ≡ chars.now) }
    {
        Text::from_vec(alloc, Vec::from_slice(alloc, chars)?)
    }

    /// The characters that UTF-8 bytes write.
    pub fn from_utf8(alloc: Global, text: &str) -> Result<Text, OutOfMemory>
        ensures { IfOk result (λ t. encode_utf8_all t ≡ text.now) }
    {
        Text::from_vec(alloc, text.chars().collect(alloc)?)
    }

    /// The characters.
    pub fn as_slice(&self) -> &[char]
        ensures { result.now ≡ self.now }
    {
        self.chars.as_slice()
    }

    /// Adds a character at the end.
    pub fn push(&mut self, c: char) -> Result<(), OutOfMemory>
        ensures ok { OnOk result (self.new ≡ self.old ++ c ∷ []) }
        ensures err { OnErr result (self.new ≡ self.old) }
    {
        self.chars.push(c)?;
        Ok(())
    }

    /// An equal text.
    pub fn copy(&self, alloc: Global) -> Result<Text, OutOfMemory>
        ensures { IfOk result (λ t. t ≡ self.now) }
    {
        Text::from_chars(alloc, self.as_slice())
    }

    /// The characters in UTF-8.
    pub fn to_utf8(&self, alloc: Global) -> Result<String, OutOfMemory>
        ensures { IfOk result (λ s. string_bytes s ≡ encode_utf8_all self.now) }
    {
        let mut text = String::new(alloc);
        for c in self.as_slice() {
            text.push(*c)?;
        }
        Ok(text)
    }
}

impl Clone for Text {
    ghost is_clone = { λ text copy. copy ≡ text };

    fn clone(&self) -> Result<Text, AllocError> {
        Ok(Text {
            chars: self.chars.clone()?,
        })
    }
}

impl PartialEq for Text {
    ghost eq = { pointwise nat_eq };

    ghost laws = { partial_equiv_from_equiv nat_list_eq_equiv };

    fn eq(&self, other: &Text) -> bool {
        self.as_slice() == other.as_slice()
    }
}

impl Eq for Text {
    ghost laws = { nat_list_eq_equiv };
}

impl PartialOrd for Text {
    ghost partial_cmp = { as_partial_cmp (slice_cmp nat_cmp) };

    ghost laws = { partial_order_from_own_ties (Prim.search (comparing, rules)) (Prim.search (comparing, rules)) };

    fn partial_cmp(&self, other: &Text) -> Option<Ordering> {
        Some(self.cmp(other))
    }
}

impl Ord for Text {
    ghost cmp = { slice_cmp nat_cmp };

    ghost total = { nat_list_cmp_total };

    ghost matches_partial_cmp = { Prim.search (comparing, rules) };

    ghost matches_eq = { Prim.search (comparing, rules) };

    fn cmp(&self, other: &Text) -> Ordering {
        self.as_slice().cmp(other.as_slice())
    }
}

impl Hash for Text {
    ghost hash_input = { fed.slice fed.char };

    ghost respects_eq = { Prim.search (hashing, rules) };

    fn hash<H: Hasher>(&self, state: &mut H) {
        self.as_slice().hash(state);
    }
}
