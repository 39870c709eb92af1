// Whole queries with their names resolved, over tables and views of known columns.
ghost use Rattle.std.specs.Prelude.{◌≡◌, [], map, IfOk};
ghost use Rattle.sql_ast.specs.Shown as written;
ghost use Rattle.sql_meaning.specs.Meaning.{order_key};
ghost use Rattle.sql_meaning.specs.Names as named;
ghost use Rattle.sql_meaning.specs.ResolvedShown as shown;
ghost use Rattle.sql_names.specs.Resolved as spec;
ghost use Rattle.sql_names.specs.Shapes.{columns_among};

use crate::order::order_keys;
use crate::range::Range;
use crate::resolve::query;
use crate::scope::{Setting, Shapes};
use shared_types::OutOfMemory;
use sql_ast::QueryText;
use sql_meaning as checked;
use sql_value::{OrderKeys, OutNames};
use std::alloc::Global;

/// The text of a query resolved: the names of its columns, the keys of its ORDER BY, and its query.
#[derive(Drop)]
pub struct ResolvedText {
    pub columns: OutNames,
    pub order: OrderKeys,
    pub query: checked::Query,
}

/// The text of a query with its names resolved, over tables and views of these columns. It fails
/// only for want of memory.
pub fn resolve_text(
    alloc: Global,
    text: &QueryText,
    known: &[Range],
) -> Result<ResolvedText, OutOfMemory>
    ensures columns { IfOk result (λ x. x.columns ≡ named.names (spec.bare (columns_among known.now)) (written.query text.now.query) []) }
    ensures order { IfOk result (λ x. x.order ≡ map (order_key (named.names (spec.bare (columns_among known.now)) (written.query text.now.query) [])) text.now.order) }
    ensures query { IfOk result (λ x. shown.query x.query ≡ spec.query (columns_among known.now) [] (written.query text.now.query)) }
{
    let setting = Setting { alloc, known };
    let resolved = Box::into_inner(query(&setting, &text.query, &Shapes::Outermost)?);
    let order = order_keys(alloc, resolved.columns.as_slice(), text.order.as_slice())?;
    Ok(ResolvedText {
        columns: resolved.columns,
        order,
        query: Box::into_inner(resolved.query),
    })
}
