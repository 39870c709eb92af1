// Why a schema declares no catalog.
ghost use Rattle.std.specs.Prelude.{◌≡◌};
ghost use Rattle.sql_catalog.specs.declared.refusal.SchemaRefusal.TheVariants.{Memory};

use shared_types::OutOfMemory;

/// Why a schema declares no catalog. Of several causes it is the first in this order; want of memory
/// has no place in it.
#[derive(Clone, Copy, PartialEq, Eq)]
pub enum SchemaRefusal {
    /// A view's body names neither a table nor a view of the schema (SQL-92, 6.3).
    UnknownTable,
    /// A chain of views leads from a view to itself (SQL-92, 11.19).
    RecursiveView,
    /// Two tables or views, two columns of a table, or two names in a view's list are equal
    /// (SQL-92, 11.3, 11.4 and 11.19).
    DuplicateName,
    /// A key names a column that the table lacks, or one column twice, or a table has two primary
    /// keys (SQL-92, 11.7).
    BadKey,
    /// There are over 64 tables, over 64 views or over 64 columns in a table, the length of a
    /// VARCHAR is not 1 to 4,096, views nest over 16 deep, a table has no column, or its name has
    /// another character than ASCII letters, digits and `_`.
    Limits,
    /// Memory ran out. It says nothing of the schema.
    Memory,
}

impl From<OutOfMemory> for SchemaRefusal {
    ghost from_gives = { λ _ e. e ≡ Memory };

    fn from(_: OutOfMemory) -> Self {
        SchemaRefusal::Memory
    }
}
