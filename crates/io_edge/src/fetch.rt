// One read, whose refusals but the limit end the caller's work.
ghost use Rattle.std.specs.Prelude.{◌≡◌, ◌≤◌, length, IfOk, IfSome};
ghost use Rattle.io_edge.specs.Causes.{Rose};
ghost use Rattle.io_edge.specs.Outcome.{Comes, ended, read, RoseIfFault};

use crate::{Files, ReadRefusal};
use shared_types::{OutOfMemory, Text};
use sqlite_items::Items;
use std::alloc::Global;
use thiserror::Error;

/// Why work over files stopped before its end.
#[derive(Debug, Drop, Error)]
pub enum Interruption {
    /// A read failed: the name that was asked for.
    #[error("a read failed")]
    ReadFault { name: Text },
    /// Memory ran out.
    #[error("out of memory")]
    Memory,
}

impl From<OutOfMemory> for Interruption {
    ghost use Rattle.std.specs.Prelude.{◌≡◌};
    ghost use Rattle.io_edge.specs.declared.fetch.Interruption.TheVariants.{Memory};

    ghost from_gives = { λ _ e. e ≡ Memory };

    fn from(_: OutOfMemory) -> Self {
        Interruption::Memory
    }
}

/// The bytes of a name, or none where they are more than the limit. It reads once, and answers
/// `ReadFault` with that name where the read fails.
pub fn fetch_file<F: Files>(
    alloc: Global,
    files: &mut F,
    name: &str,
    limit: usize,
) -> Result<Option<Items<u8>>, Interruption>
    ensures comes { Comes (F.told files.old) (F.told files.new) (λ fs. read fs name.now limit) (ended result) }
    ensures fits { IfOk result (λ bytes. IfSome bytes (λ b. length b ≤ limit)) }
    ensures later { F.faults files.old ≤ F.faults files.new }
    ensures failed { RoseIfFault result (F.faults files.old) (F.faults files.new) }
{
    let mut bytes = Vec::new(alloc);
    match files.read(alloc, name, limit, &mut bytes) {
        Ok(()) => Ok(Some(Items::from_vec(bytes))),
        Err(ReadRefusal::TooLarge) => Ok(None),
        Err(ReadRefusal::Failed) => Err(Interruption::ReadFault {
            name: Text::from_utf8(alloc, name)?,
        }),
        Err(ReadRefusal::Memory) => Err(Interruption::Memory),
    }
}
