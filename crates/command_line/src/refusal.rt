// The refusals of the reader.
use shared_types::OutOfMemory;
use thiserror::Error;

/// Why words give no line.
#[derive(Clone, Copy, Debug, PartialEq, Eq, Error)]
pub enum WordsRefusal {
    /// The words are no command line.
    #[error("no command line")]
    Usage,
    /// Memory ran out. It says nothing of the words.
    #[error("out of memory")]
    Memory,
}

impl From<OutOfMemory> for WordsRefusal {
    ghost use Rattle.std.specs.Prelude.{◌≡◌};
    ghost use Rattle.command_line.specs.declared.refusal.WordsRefusal.TheVariants.{Memory};

    ghost from_gives = { λ _ e. e ≡ Memory };

    fn from(_: OutOfMemory) -> Self {
        WordsRefusal::Memory
    }
}
