// Why files hold no tables of a catalog.
use crate::rule::Rule;
use io_edge::Interruption;
use shared_types::{OutOfMemory, Text};

/// Why the files do not hold the tables of a catalog.
#[derive(Drop)]
pub enum DataRefusal {
    /// A file is not of the form: the number of the rule that it breaks, the table, and the
    /// record, where the header is record 0.
    Refused { number: u8, table: Text, row: u64 },
    /// A read failed: the name that was asked for.
    ReadFault { name: Text },
    /// Memory ran out.
    Memory,
}

impl From<OutOfMemory> for DataRefusal {
    ghost use Rattle.std.specs.Prelude.{◌≡◌};
    ghost use Rattle.csv_tables.specs.declared.refusal.DataRefusal.TheVariants.{Memory};

    ghost from_gives = { λ _ e. e ≡ Memory };

    fn from(_: OutOfMemory) -> Self {
        DataRefusal::Memory
    }
}

impl From<Interruption> for DataRefusal {
    ghost use Rattle.std.specs.Prelude.{◌≡◌};
    ghost use Rattle.csv_tables.specs.Loaded.{interrupted};

    ghost from_gives = { λ i e. e ≡ interrupted i };

    fn from(interruption: Interruption) -> Self {
        match interruption {
            Interruption::ReadFault { name } => DataRefusal::ReadFault { name },
            Interruption::Memory => DataRefusal::Memory,
        }
    }
}

/// Why the bytes of a file are no rows of a table.
#[derive(Drop)]
pub enum TableRefusal {
    /// The rule that is broken, and the record that breaks it, where the header is record 0.
    Broken { rule: Rule, record_number: u64 },
    /// Memory ran out.
    Memory,
}

impl From<OutOfMemory> for TableRefusal {
    ghost use Rattle.std.specs.Prelude.{◌≡◌};
    ghost use Rattle.csv_tables.specs.declared.refusal.TableRefusal.TheVariants.{Memory};

    ghost from_gives = { λ _ e. e ≡ Memory };

    fn from(_: OutOfMemory) -> Self {
        TableRefusal::Memory
    }
}
