// Why a text has no tokens.
use shared_types::OutOfMemory;
use std::alloc::AllocFailed;
use thiserror::Error;

/// Why a text has no tokens.
#[derive(Clone, Copy, Debug, PartialEq, Eq, Error)]
pub enum LexRefusal {
    /// The bytes are not UTF-8, or no token begins with a character, or a letter or `_` follows a
    /// digit of a number, or a delimited name has no character.
    #[error("no token begins with this character")]
    BadCharacter,
    /// A string or a delimited name has no end.
    #[error("no quote ends this text")]
    Unterminated,
    /// A number is above 9223372036854775807.
    #[error("the number is too large")]
    NumberTooLarge,
    /// Memory ran out.
    #[error("out of memory")]
    Memory,
}

impl From<OutOfMemory> for LexRefusal {
    ghost use Rattle.std.specs.Prelude.{◌≡◌};
    ghost use Rattle.sql_text.specs.declared.refusal.LexRefusal.TheVariants.{Memory};

    ghost from_gives = { λ _ e. e ≡ Memory };

    fn from(_: OutOfMemory) -> Self {
        LexRefusal::Memory
    }
}

impl<T: Drop> From<AllocFailed<T>> for LexRefusal {
    ghost use Rattle.std.specs.Prelude.{◌≡◌};
    ghost use Rattle.sql_text.specs.declared.refusal.LexRefusal.TheVariants.{Memory};

    ghost from_gives = { λ _ e. e ≡ Memory };

    fn from(_: AllocFailed<T>) -> Self {
        LexRefusal::Memory
    }
}
