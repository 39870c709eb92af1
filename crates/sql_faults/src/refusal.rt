// Why a query or a view is not valid.
ghost use Rattle.std.specs.Prelude.{◌≡◌, ◌≢◌, IfOk, IsErrOf};
ghost use Rattle.sql_faults.specs.Numbers.{number};
ghost use Rattle.sql_faults.specs.declared.refusal.QueryRefusal.TheVariants as query;
ghost use Rattle.sql_faults.specs.declared.refusal.ViewRefusal.TheVariants as view;

use crate::fault::Fault;
use shared_types::OutOfMemory;
use sql_text::Name;
use thiserror::Error;

/// Why a query is not valid. Of several causes it is the first in this order; want of memory has no
/// place in it.
#[derive(Clone, Copy, Debug, Error)]
pub enum QueryRefusal {
    /// A table's name is neither a table nor a view (SQL-92, 6.3).
    #[error("there is no such table")]
    UnknownTable,
    /// Two ranges of one FROM, or two names of one column list, are equal (SQL-92, 6.3).
    #[error("a range stands twice")]
    DuplicateRange,
    /// A name finds no range or no column (SQL-92, 6.4 and 7.9).
    #[error("there is no such column")]
    UnknownColumn,
    /// A name finds more than one column in the range or scope that it means (SQL-92, 6.4).
    #[error("a column's name is ambiguous")]
    Ambiguous,
    /// The types of operands, of compared expressions, of results or of the columns of set operands
    /// don't fit (SQL-92, 6.5 to 8.7), or the length of a type is outside 1 to 4,096.
    #[error("types don't fit")]
    TypeMismatch,
    /// A number of columns doesn't fit, or is over 1,024 (SQL-92, 6.3, 7.10 and 7.11).
    #[error("the number of columns doesn't fit")]
    Degree,
    /// A grouped block names a column that is no grouping column, or groups by one that isn't of its
    /// own FROM (SQL-92, 7.7 to 7.9).
    #[error("a column is no grouping column")]
    Grouping,
    /// An aggregate stands where none may, or its argument holds what it may not (SQL-92, 6.5).
    #[error("an aggregate stands where none may")]
    AggregatePlace,
    /// A key of ORDER BY is not exactly one output column (SQL-92, 13.1).
    #[error("a key is no column of the result")]
    OrderColumn,
    /// Memory ran out. It says nothing of the query.
    #[error("out of memory")]
    Memory,
}

impl From<OutOfMemory> for QueryRefusal {
    ghost from_gives = { λ _ e. e ≡ query.Memory };

    fn from(_: OutOfMemory) -> Self {
        QueryRefusal::Memory
    }
}

/// Why the views of a catalog are not valid.
#[derive(Debug, Drop, Error)]
pub enum ViewRefusal {
    /// The body of a view is not valid: the view, and the number of the fault, from 6 to 13.
    #[error("a view is refused")]
    Refused { view: Name, number: u8 },
    /// Memory ran out.
    #[error("out of memory")]
    Memory,
}

impl From<OutOfMemory> for ViewRefusal {
    ghost from_gives = { λ _ e. e ≡ view.Memory };

    fn from(_: OutOfMemory) -> Self {
        ViewRefusal::Memory
    }
}

// The refusal that a fault is.
pub(crate) fn refused(fault: Option<Fault>) -> Result<(), QueryRefusal>
    ensures valid { IfOk result (λ _. number fault ≡ 0) }
    ensures unknown_table { IsErrOf result query.UnknownTable → number fault ≡ 6 }
    ensures duplicate_range { IsErrOf result query.DuplicateRange → number fault ≡ 7 }
    ensures unknown_column { IsErrOf result query.UnknownColumn → number fault ≡ 8 }
    ensures ambiguous { IsErrOf result query.Ambiguous → number fault ≡ 9 }
    ensures type_mismatch { IsErrOf result query.TypeMismatch → number fault ≡ 10 }
    ensures degree { IsErrOf result query.Degree → number fault ≡ 11 }
    ensures grouping { IsErrOf result query.Grouping → number fault ≡ 12 }
    ensures aggregate_place { IsErrOf result query.AggregatePlace → number fault ≡ 13 }
    ensures order_column { IsErrOf result query.OrderColumn → number fault ≡ 14 }
{
    match fault {
        None => Ok(()),
        Some(Fault::UnknownTable) => Err(QueryRefusal::UnknownTable),
        Some(Fault::DuplicateRange) => Err(QueryRefusal::DuplicateRange),
        Some(Fault::UnknownColumn) => Err(QueryRefusal::UnknownColumn),
        Some(Fault::Ambiguous) => Err(QueryRefusal::Ambiguous),
        Some(Fault::TypeMismatch) => Err(QueryRefusal::TypeMismatch),
        Some(Fault::Degree) => Err(QueryRefusal::Degree),
        Some(Fault::Grouping) => Err(QueryRefusal::Grouping),
        Some(Fault::AggregatePlace) => Err(QueryRefusal::AggregatePlace),
        Some(Fault::OrderColumn) => Err(QueryRefusal::OrderColumn),
    }
}
