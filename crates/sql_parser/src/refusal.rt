// The refusals of the parser.
use shared_types::OutOfMemory;
use std::alloc::{AllocError, AllocFailed};
use thiserror::Error;

/// Why tokens give no tree.
#[derive(Clone, Copy, Debug, PartialEq, Eq, Error)]
pub enum ParseRefusal {
    /// The tokens nest too deep, or a statement has too many of one kind.
    #[error("too deep")]
    OverLimit,
    /// The tokens spell no tree of the grammar.
    #[error("not of the grammar")]
    Syntax,
    /// Memory ran out. It says nothing of the tokens.
    #[error("out of memory")]
    Memory,
}

impl From<OutOfMemory> for ParseRefusal {
    ghost use Rattle.std.specs.Prelude.{◌≡◌};
    ghost use Rattle.sql_parser.specs.declared.refusal.ParseRefusal.TheVariants.{Memory};

    ghost from_gives = { λ _ e. e ≡ Memory };

    fn from(_: OutOfMemory) -> Self {
        ParseRefusal::Memory
    }
}

impl From<AllocError> for ParseRefusal {
    ghost use Rattle.std.specs.Prelude.{◌≡◌};
    ghost use Rattle.sql_parser.specs.declared.refusal.ParseRefusal.TheVariants.{Memory};

    ghost from_gives = { λ _ e. e ≡ Memory };

    fn from(_: AllocError) -> Self {
        ParseRefusal::Memory
    }
}

impl<T: Drop> From<AllocFailed<T>> for ParseRefusal {
    ghost use Rattle.std.specs.Prelude.{◌≡◌};
    ghost use Rattle.sql_parser.specs.declared.refusal.ParseRefusal.TheVariants.{Memory};

    ghost from_gives = { λ _ e. e ≡ Memory };

    fn from(_: AllocFailed<T>) -> Self {
        ParseRefusal::Memory
    }
}
