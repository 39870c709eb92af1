// The names of the columns that the items of a select list give (SQL-92, 7.9).
ghost use Rattle.std.specs.Prelude.{◌≡◌, IfOk};
ghost use Rattle.sql_ast.specs.Shown as written;
ghost use Rattle.sql_meaning.specs.Names as spec;

use shared_types::{OutOfMemory, Text};
use sql_ast::{Alias, Expr};
use std::alloc::Global;

// The name of an expression without an alias.
fn own_name(alloc: Global, x: &Expr) -> Result<Option<Text>, OutOfMemory>
    ensures { IfOk result (λ name. name ≡ spec.own_name (written.expr x.now)) }
{
    match x {
        Expr::Column(column) => Ok(Some(column.name.copy(alloc)?)),
        Expr::Add(_, _, _)
        | Expr::Multiply(_, _, _)
        | Expr::Signed(_, _)
        | Expr::Number(_)
        | Expr::Str(_)
        | Expr::Paren(_)
        | Expr::Scalar(_)
        | Expr::CountAll
        | Expr::Aggregate(_, _, _)
        | Expr::Searched(_, _)
        | Expr::Simple(_, _, _)
        | Expr::Coalesce(_, _)
        | Expr::NullIf(_, _)
        | Expr::CastNull(_) => Ok(None),
    }
}

/// The name of an item's column: its alias, or else the name of the column that it is; none where it
/// is neither. The error is want of memory.
pub fn item_name(
    alloc: Global,
    x: &Expr,
    alias: &Option<Alias>,
) -> Result<Option<Text>, OutOfMemory>
    ensures { IfOk result (λ name. name ≡ spec.item_name (written.expr x.now) alias.now) }
{
    match alias {
        Some(alias) => Ok(Some(alias.name.copy(alloc)?)),
        None => own_name(alloc, x),
    }
}
