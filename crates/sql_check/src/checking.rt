// The checks of the views of a catalog, and of a query over them.
ghost use Rattle.std.specs.Prelude.{◌≡◌, ℕ, List, [], None, Some, map, IfOk, IfErr, IsErrOf};
ghost use Rattle.row_bag.specs.declared.tables.Table.{Table};
ghost use Rattle.sql_ast.specs.Shown as written;
ghost use Rattle.sql_catalog.specs.Catalog.{fault};
ghost use Rattle.sql_catalog.specs.Shown as declared;
ghost use Rattle.sql_meaning.specs.Meaning.{answer, known_of, order_key, rows};
ghost use Rattle.sql_meaning.specs.Names.{names};
ghost use Rattle.sql_meaning.specs.ResolvedShown as shown;
ghost use Rattle.sql_faults.specs.Columns.{columns};
ghost use Rattle.sql_faults.specs.Laws.{AreTyped, column_names};
ghost use Rattle.sql_faults.specs.Shown.{least_fault};
ghost use Rattle.sql_faults.specs.Views.{heads_of, view_refusal};
ghost use Rattle.sql_faults.specs.declared.refusal.QueryRefusal.TheVariants as QueryRefusal;
ghost use Rattle.sql_faults.specs.declared.refusal.ViewRefusal.TheVariants as ViewRefusal;
ghost use Rattle.sql_names.specs.Resolved.{bare, query};
ghost use Rattle.sql_names.specs.Schema.{schema_columns};
ghost use Rattle.sql_check.specs.Checked.{AreViews, IsFilled, answer_of, rows_of};

use crate::checked::{Checked, Views};
use shared_types::OutOfMemory;
use sql_ast::QueryText;
use sql_catalog::Catalog;
use sql_faults::{Columns, QueryRefusal, ViewRefusal, check_laws, check_query};
use sql_names::{ResolvedText, place_laws, resolve_schema, resolve_text};
use std::alloc::Global;

/// The views of a catalog, their names resolved. Else it is the first view, by nesting depth and then
/// in declared order, whose body isn't valid, with the least number that holds of it.
/// `Memory` may come in place of any of these.
pub fn check_views(alloc: Global, catalog: &Catalog) -> Result<Views, ViewRefusal>
    ensures views { IfOk result (λ views. AreViews (declared.catalog catalog.now) views) }
    ensures valid { IfOk result (λ _. view_refusal (declared.catalog catalog.now) ≡ None) }
    ensures refused { IfErr result (λ e. (name : List ℕ) → (n : ℕ) → e ≡ ViewRefusal.Refused name n → view_refusal (declared.catalog catalog.now) ≡ Some (name, n)) }
{
    let heads = sql_faults::check_views(alloc, catalog)?;
    let schema = resolve_schema(alloc, catalog)?;
    Ok(Views { heads, schema })
}

// A query's text with its names resolved.
fn resolved(
    alloc: Global,
    text: &QueryText,
    catalog: &Catalog,
    views: &Views,
) -> Result<ResolvedText, OutOfMemory>
    requires views { AreViews (declared.catalog catalog.now) views.now }
    ensures names { IfOk result (λ x. x.columns ≡ names (bare (schema_columns (declared.catalog catalog.now))) (written.query text.now.query) []) }
    ensures order { IfOk result (λ x. x.order ≡ map (order_key (names (bare (schema_columns (declared.catalog catalog.now))) (written.query text.now.query) [])) text.now.order) }
    ensures query { IfOk result (λ x. shown.query x.query ≡ query (schema_columns (declared.catalog catalog.now)) [] (written.query text.now.query)) }
{
    resolve_text(alloc, text, views.schema.known.as_slice())
}

// A valid query of these columns, its names resolved.
fn checked(
    alloc: Global,
    text: &QueryText,
    catalog: &Catalog,
    views: &Views,
    found: Columns,
) -> Result<Checked, OutOfMemory>
    requires views { AreViews (declared.catalog catalog.now) views.now }
    requires valid { least_fault catalog.now text.now ≡ 0 }
    requires found { found ≡ columns (heads_of (declared.catalog catalog.now)) (written.query text.now.query) [] }
    ensures query { IfOk result (λ x. shown.query x.query ≡ query (schema_columns (declared.catalog catalog.now)) [] (written.query text.now.query)) }
    ensures columns { IfOk result (λ x. x.columns ≡ columns (heads_of (declared.catalog catalog.now)) (written.query text.now.query) []) }
    ensures typed { IfOk result (λ x. fault (declared.catalog catalog.now) ≡ None → AreTyped x.columns) }
    ensures names { IfOk result (λ x. x.names ≡ column_names x.columns) }
    ensures order { IfOk result (λ x. x.order ≡ map (order_key x.names) text.now.order) }
    ensures rows { IfOk result (λ x. (tables : List Table) → IsFilled (declared.catalog catalog.now) tables → rows_of views.now x tables ≡ rows (known_of (declared.catalog catalog.now) tables) (written.query text.now.query) []) }
    ensures answer { IfOk result (λ x. (tables : List Table) → IsFilled (declared.catalog catalog.now) tables → answer_of views.now x tables ≡ answer (known_of (declared.catalog catalog.now) tables) (written.query_text text.now)) }
{
    check_laws();
    place_laws();
    let x = resolved(alloc, text, catalog, views)?;
    Ok(Checked {
        query: x.query,
        columns: found,
        names: x.columns,
        order: x.order,
    })
}

/// A valid query over a catalog and its views, its names resolved: its tree is the text's, resolved over
/// the columns of tables and views, its columns, names and keys are the query's, and over all tables of a catalog that isn't refused its rows by places are the query's rows
/// by names, its answer is the query's, and the types of its columns are known. Else it is the refusal
/// of the least number that holds of the query. `Memory` may come in place of any of these.
pub fn check(
    alloc: Global,
    text: &QueryText,
    catalog: &Catalog,
    views: &Views,
) -> Result<Checked, QueryRefusal>
    requires views { AreViews (declared.catalog catalog.now) views.now }
    ensures valid { IfOk result (λ _. least_fault catalog.now text.now ≡ 0) }
    ensures query { IfOk result (λ x. shown.query x.query ≡ query (schema_columns (declared.catalog catalog.now)) [] (written.query text.now.query)) }
    ensures columns { IfOk result (λ x. x.columns ≡ columns (heads_of (declared.catalog catalog.now)) (written.query text.now.query) []) }
    ensures typed { IfOk result (λ x. fault (declared.catalog catalog.now) ≡ None → AreTyped x.columns) }
    ensures names { IfOk result (λ x. x.names ≡ column_names x.columns) }
    ensures order { IfOk result (λ x. x.order ≡ map (order_key x.names) text.now.order) }
    ensures rows { IfOk result (λ x. (tables : List Table) → IsFilled (declared.catalog catalog.now) tables → rows_of views.now x tables ≡ rows (known_of (declared.catalog catalog.now) tables) (written.query text.now.query) []) }
    ensures answer { IfOk result (λ x. (tables : List Table) → IsFilled (declared.catalog catalog.now) tables → answer_of views.now x tables ≡ answer (known_of (declared.catalog catalog.now) tables) (written.query_text text.now)) }
    ensures unknown_table { IsErrOf result QueryRefusal.UnknownTable → least_fault catalog.now text.now ≡ 6 }
    ensures duplicate_range { IsErrOf result QueryRefusal.DuplicateRange → least_fault catalog.now text.now ≡ 7 }
    ensures unknown_column { IsErrOf result QueryRefusal.UnknownColumn → least_fault catalog.now text.now ≡ 8 }
    ensures ambiguous { IsErrOf result QueryRefusal.Ambiguous → least_fault catalog.now text.now ≡ 9 }
    ensures type_mismatch { IsErrOf result QueryRefusal.TypeMismatch → least_fault catalog.now text.now ≡ 10 }
    ensures degree { IsErrOf result QueryRefusal.Degree → least_fault catalog.now text.now ≡ 11 }
    ensures grouping { IsErrOf result QueryRefusal.Grouping → least_fault catalog.now text.now ≡ 12 }
    ensures aggregate_place { IsErrOf result QueryRefusal.AggregatePlace → least_fault catalog.now text.now ≡ 13 }
    ensures order_column { IsErrOf result QueryRefusal.OrderColumn → least_fault catalog.now text.now ≡ 14 }
{
    let columns = check_query(alloc, text, catalog, &views.heads)?;
    Ok(checked(alloc, text, catalog, views, columns)?)
}
