// The views of a catalog with their columns.
ghost use Rattle.std.specs.Prelude.{◌≡◌, map, IfOk};
ghost use Rattle.sql_ast.specs.Shown as written;
ghost use Rattle.sql_catalog.specs.Nesting.{readers_of};
ghost use Rattle.sql_catalog.specs.Shown as declared;
ghost use Rattle.sql_faults.specs.Numbers.{number};
ghost use Rattle.sql_faults.specs.Shown.{heads};
ghost use Rattle.sql_faults.specs.Views as spec;

use crate::checks::query;
use crate::column::{Columns, renamed};
use crate::depth::{MAX_DEPTH, all_marked, any_marked, deeper};
use crate::fault::{Fault, lesser};
use crate::known::Known;
use crate::operands::list_fault;
use crate::scope::Scopes;
use shared_types::OutOfMemory;
use sql_ast::ViewDecl;
use sql_catalog::{Catalog, Reader};
use sql_text::Name;
use sqlite_items::Items;
use std::alloc::Global;

/// A view: its name and its columns.
#[derive(Drop)]
pub struct ViewHead {
    pub name: Name,
    pub columns: Columns,
}

// A view over these tables and views.
fn view_head(alloc: Global, view: &ViewDecl, known: &Known<'_>) -> Result<ViewHead, OutOfMemory>
    ensures { IfOk result (λ head. head ≡ spec.view_head (heads known.now) (written.view view.now)) }
{
    let found = query(alloc, &view.query, &Scopes::Outermost, known)?;
    Ok(ViewHead {
        name: view.name.copy(alloc)?,
        columns: renamed(alloc, view.columns.as_slice(), found.columns)?,
    })
}

// Views over these tables and views.
fn views_over(
    alloc: Global,
    views: &[ViewDecl],
    known: &Known<'_>,
) -> Result<Items<ViewHead>, OutOfMemory>
    ensures { IfOk result (λ all. all ≡ map (spec.view_head (heads known.now)) (map written.view views.now)) }
{
    let mut all = Items::new(alloc);
    for view in views {
        all.push(view_head(alloc, view, known)?)?;
    }
    Ok(all)
}

// The views of a catalog over its tables and these views.
fn next_views(
    alloc: Global,
    catalog: &Catalog,
    views: &[ViewHead],
) -> Result<Items<ViewHead>, OutOfMemory>
    ensures { IfOk result (λ all. all ≡ map (spec.view_head (spec.heads_with (declared.catalog catalog.now) views.now)) (map written.view catalog.now.views)) }
{
    views_over(alloc, catalog.views.as_slice(), &Known { catalog, views })
}

// The views of a catalog, each over views that nest less deep, where this is what they read. They are
// made as often as views nest deep.
pub(crate) fn view_heads(
    alloc: Global,
    catalog: &Catalog,
    all: &[Reader],
) -> Result<Items<ViewHead>, OutOfMemory>
    requires readers { all.now ≡ readers_of (map written.view catalog.now.views) }
    ensures { IfOk result (λ heads. heads ≡ spec.view_heads (declared.catalog catalog.now)) }
{
    let mut heads = Items::new(alloc);
    let mut marks = all_marked(alloc, all)?;
    for _depth in 0..MAX_DEPTH {
        if !any_marked(marks.as_slice()) {
            return Ok(heads);
        }
        heads = next_views(alloc, catalog, heads.as_slice())?;
        marks = deeper(alloc, all, marks.as_slice())?;
    }
    Ok(heads)
}

// The fault of a view's body with its column list.
pub(crate) fn view_fault(
    alloc: Global,
    view: &ViewDecl,
    known: &Known<'_>,
) -> Result<Option<Fault>, OutOfMemory>
    ensures { IfOk result (λ f. number f ≡ spec.view_fault (heads known.now) (written.view view.now)) }
{
    let found = query(alloc, &view.query, &Scopes::Outermost, known)?;
    let list = list_fault(view.columns.as_slice(), found.columns.as_slice());
    Ok(lesser(found.fault, list))
}
