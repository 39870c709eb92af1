// The checks of queries and of views over a catalog.
ghost use Rattle.std.specs.Prelude.{◌≡◌, ℕ, List, [], None, Some, IfOk, IfErr, IsErrOf};
ghost use Rattle.sql_ast.specs.Shown as written;
ghost use Rattle.sql_catalog.specs.Shown as declared;
ghost use Rattle.sql_faults.specs.Columns.{columns};
ghost use Rattle.sql_faults.specs.Depths.{refusal};
ghost use Rattle.sql_faults.specs.Faults.{text_fault};
ghost use Rattle.sql_faults.specs.Numbers.{number};
ghost use Rattle.sql_faults.specs.Rules as rule;
ghost use Rattle.sql_faults.specs.Shown.{heads, least_fault};
ghost use Rattle.sql_faults.specs.Views as spec;
ghost use Rattle.sql_faults.specs.declared.refusal.QueryRefusal.TheVariants as QueryRefusal;
ghost use Rattle.sql_faults.specs.declared.refusal.ViewRefusal.TheVariants as ViewRefusal;

use crate::checks::query;
use crate::column::Columns;
use crate::depth::{Faulty, refused_view};
use crate::fault::lesser;
use crate::known::Known;
use crate::order::keys_unfit;
use crate::refusal::{QueryRefusal, ViewRefusal, refused};
use crate::scope::Scopes;
use crate::typed::Output;
use crate::view::{ViewHead, view_heads};
use shared_types::OutOfMemory;
use sql_ast::{QueryText, Sort};
use sql_catalog::{Catalog, readers};
use sqlite_items::Items;
use std::alloc::Global;

/// The views of a catalog with their columns, all of which are valid.
#[derive(Drop)]
pub struct ViewHeads {
    pub list: Items<ViewHead>,
}

// A query's columns, and its fault with that of its ORDER BY.
fn ordered(found: Output, sorts: &[Sort]) -> Output
    ensures columns { result.columns ≡ found.columns }
    ensures fault { number result.fault ≡ rule.lesser (number found.fault) (rule.keys_unfit found.columns sorts.now) }
{
    let keys = keys_unfit(found.columns.as_slice(), sorts);
    Output {
        fault: lesser(found.fault, keys),
        columns: found.columns,
    }
}

// The columns of a query's text, and its fault.
fn text_output(alloc: Global, text: &QueryText, known: &Known<'_>) -> Result<Output, OutOfMemory>
    ensures columns { IfOk result (λ x. x.columns ≡ columns (heads known.now) (written.query text.now.query) []) }
    ensures fault { IfOk result (λ x. number x.fault ≡ text_fault (heads known.now) (written.query_text text.now)) }
{
    let found = query(alloc, &text.query, &Scopes::Outermost, known)?;
    Ok(ordered(found, text.order.as_slice()))
}

// The columns of a query without fault, else the refusal that its fault is.
fn accepted(found: Output) -> Result<Columns, QueryRefusal>
    ensures valid { IfOk result (λ _. number found.fault ≡ 0) }
    ensures columns { IfOk result (λ all. all ≡ found.columns) }
    ensures unknown_table { IsErrOf result QueryRefusal.UnknownTable → number found.fault ≡ 6 }
    ensures duplicate_range { IsErrOf result QueryRefusal.DuplicateRange → number found.fault ≡ 7 }
    ensures unknown_column { IsErrOf result QueryRefusal.UnknownColumn → number found.fault ≡ 8 }
    ensures ambiguous { IsErrOf result QueryRefusal.Ambiguous → number found.fault ≡ 9 }
    ensures type_mismatch { IsErrOf result QueryRefusal.TypeMismatch → number found.fault ≡ 10 }
    ensures degree { IsErrOf result QueryRefusal.Degree → number found.fault ≡ 11 }
    ensures grouping { IsErrOf result QueryRefusal.Grouping → number found.fault ≡ 12 }
    ensures aggregate_place { IsErrOf result QueryRefusal.AggregatePlace → number found.fault ≡ 13 }
    ensures order_column { IsErrOf result QueryRefusal.OrderColumn → number found.fault ≡ 14 }
{
    match refused(found.fault) {
        Ok(()) => Ok(found.columns),
        Err(refusal) => Err(refusal),
    }
}

/// The output columns of a valid query, over the views of its catalog. Else it is the refusal of the
/// least number that holds of the query. `Memory` may come in place of any of these.
pub fn check_query(
    alloc: Global,
    text: &QueryText,
    catalog: &Catalog,
    views: &ViewHeads,
) -> Result<Columns, QueryRefusal>
    requires views { views.now.list ≡ spec.view_heads (declared.catalog catalog.now) }
    ensures valid { IfOk result (λ _. least_fault catalog.now text.now ≡ 0) }
    ensures columns { IfOk result (λ all. all ≡ columns (spec.heads_of (declared.catalog catalog.now)) (written.query text.now.query) []) }
    ensures unknown_table { IsErrOf result QueryRefusal.UnknownTable → least_fault catalog.now text.now ≡ 6 }
    ensures duplicate_range { IsErrOf result QueryRefusal.DuplicateRange → least_fault catalog.now text.now ≡ 7 }
    ensures unknown_column { IsErrOf result QueryRefusal.UnknownColumn → least_fault catalog.now text.now ≡ 8 }
    ensures ambiguous { IsErrOf result QueryRefusal.Ambiguous → least_fault catalog.now text.now ≡ 9 }
    ensures type_mismatch { IsErrOf result QueryRefusal.TypeMismatch → least_fault catalog.now text.now ≡ 10 }
    ensures degree { IsErrOf result QueryRefusal.Degree → least_fault catalog.now text.now ≡ 11 }
    ensures grouping { IsErrOf result QueryRefusal.Grouping → least_fault catalog.now text.now ≡ 12 }
    ensures aggregate_place { IsErrOf result QueryRefusal.AggregatePlace → least_fault catalog.now text.now ≡ 13 }
    ensures order_column { IsErrOf result QueryRefusal.OrderColumn → least_fault catalog.now text.now ≡ 14 }
{
    let known = Known {
        catalog,
        views: views.list.as_slice(),
    };
    let found = text_output(alloc, text, &known)?;
    accepted(found)
}

// The views of a catalog with their columns, and the refusal of the first that isn't valid.
#[derive(Drop)]
struct CheckedViews {
    list: Items<ViewHead>,
    faulty: Option<Faulty>,
}

// The views of a catalog with their columns, and the first of them that isn't valid.
fn checked_views(alloc: Global, catalog: &Catalog) -> Result<CheckedViews, OutOfMemory>
    ensures heads { IfOk result (λ x. x.list ≡ spec.view_heads (declared.catalog catalog.now)) }
    ensures faulty { IfOk result (λ x. refusal x.faulty ≡ spec.view_refusal (declared.catalog catalog.now)) }
{
    let all = readers(alloc, catalog.views.as_slice())?;
    let list = view_heads(alloc, catalog, all.as_slice())?;
    let known = Known {
        catalog,
        views: list.as_slice(),
    };
    let faulty = refused_view(alloc, all.as_slice(), &known)?;
    Ok(CheckedViews { list, faulty })
}

/// The views of a catalog with their columns. Else it is the first view, by nesting depth and then in
/// declared order, whose body isn't valid, with the least number that holds of it. `Memory` may come
/// in place of any of these.
pub fn check_views(alloc: Global, catalog: &Catalog) -> Result<ViewHeads, ViewRefusal>
    ensures heads { IfOk result (λ views. views.list ≡ spec.view_heads (declared.catalog catalog.now)) }
    ensures valid { IfOk result (λ _. spec.view_refusal (declared.catalog catalog.now) ≡ None) }
    ensures refused { IfErr result (λ e. (name : List ℕ) → (n : ℕ) → e ≡ ViewRefusal.Refused name n → spec.view_refusal (declared.catalog catalog.now) ≡ Some (name, n)) }
{
    let CheckedViews { list, faulty } = checked_views(alloc, catalog)?;
    match faulty {
        Some(found) => Err(ViewRefusal::Refused {
            view: found.view,
            number: found.number,
        }),
        None => Ok(ViewHeads { list }),
    }
}
