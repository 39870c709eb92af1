// The tables and views of a catalog: the names of their columns, and the bodies of views resolved.
ghost use Rattle.std.specs.Prelude.{◌≡◌, ◌++◌, ◌∷◌, [], map, take, IfOk, OnOk};
ghost use Rattle.sql_ast.specs.Shown as written;
ghost use Rattle.sql_ast.specs.Declarations.{names_of};
ghost use Rattle.sql_ast.specs.Declarations as declares;
ghost use Rattle.sql_catalog.specs.Shown.{catalog};
ghost use Rattle.sql_meaning.specs.Names as named;
ghost use Rattle.sql_meaning.specs.ResolvedShown as shown;
ghost use Rattle.sql_names.specs.Known.{table_range, view_over, view_range};
ghost use Rattle.sql_names.specs.Ranges as ranges;
ghost use Rattle.sql_names.specs.Schema.{schema_columns, view_trees};
ghost use Rattle.sql_names.specs.Shapes.{columns_among, columns_of, shape};

use crate::names::renamed;
use crate::range::Range;
use crate::resolve::query;
use crate::scope::{Setting, Shapes};
use shared_types::{OutOfMemory, Text};
use sql_ast::{TableDecl, ViewDecl};
use sql_catalog::{Catalog, column_names};
use sql_meaning::View;
use sql_value::OutNames;
use sqlite_items::Items;
use std::alloc::Global;

/// A schema resolved: its tables and views with the names of their columns, and its views.
#[derive(Drop)]
pub struct ResolvedSchema {
    pub known: Items<Range>,
    pub views: Items<View>,
}

// A view resolved: the names of its columns, and its body.
#[derive(Drop)]
struct ResolvedView {
    range: Range,
    view: View,
}

// Views resolved, in order.
#[derive(Drop)]
struct ResolvedViews {
    ranges: Vec<Range>,
    views: Items<View>,
}

// Columns that all have a name.
fn all_named(alloc: Global, names: &[Text]) -> Result<OutNames, OutOfMemory>
    ensures { IfOk result (λ out. out ≡ named.all_named names.now) }
{
    let mut out = Items::new(alloc);
    for name in names {
        out.push(Some(name.copy(alloc)?))?;
    }
    Ok(out)
}

// The names of the columns of a table.
fn table_names(alloc: Global, table: &TableDecl) -> Result<OutNames, OutOfMemory>
    ensures { IfOk result (λ out. out ≡ named.all_named (names_of (declares.columns_of table.now.elements))) }
{
    let names = column_names(alloc, table.elements.as_slice())?;
    all_named(alloc, names.as_slice())
}

// Adds a range at the end.
fn push_range(out: &mut Vec<Range>, range: Range) -> Result<(), OutOfMemory>
    ensures { OnOk result (shape out.new.items ≡ shape out.old.items ++ (range.name, range.columns) ∷ []) }
{
    out.push(range)?;
    Ok(())
}

// The tables.
fn table_ranges(alloc: Global, tables: &[TableDecl]) -> Result<Vec<Range>, OutOfMemory>
    ensures { IfOk result (λ out. shape out.items ≡ map table_range tables.now) }
{
    let mut out = Vec::new(alloc);
    for table in tables {
        let columns = table_names(alloc, table)?;
        let name = table.name.copy(alloc)?;
        push_range(&mut out, Range { name, columns })?;
    }
    Ok(out)
}

// A view resolved. Its body sees no scope.
fn resolved_view(setting: &Setting<'_>, view: &ViewDecl) -> Result<ResolvedView, OutOfMemory>
    ensures range { IfOk result (λ v. (v.range.name, v.range.columns) ≡ view_range (columns_of setting.now) (written.view view.now)) }
    ensures view { IfOk result (λ v. shown.view v.view ≡ view_over (columns_of setting.now) (written.view view.now)) }
{
    let alloc = setting.alloc;
    let body = Box::into_inner(query(setting, &view.query, &Shapes::Outermost)?);
    let range = Range {
        name: view.name.copy(alloc)?,
        columns: renamed(alloc, view.columns.as_slice(), body.columns.as_slice())?,
    };
    let view = View {
        name: view.name.copy(alloc)?,
        body: Box::into_inner(body.query),
    };
    Ok(ResolvedView { range, view })
}

// Adds a view at the end.
fn push_view(out: &mut Items<View>, view: View) -> Result<(), OutOfMemory>
    ensures { OnOk result (shown.views out.new ≡ shown.views out.old ++ shown.view view ∷ []) }
{
    out.push(view)?;
    Ok(())
}

// Views resolved.
fn resolved_views(setting: &Setting<'_>, views: &[ViewDecl]) -> Result<ResolvedViews, OutOfMemory>
    ensures ranges { IfOk result (λ out. shape out.ranges.items ≡ map (view_range (columns_of setting.now)) (map written.view views.now)) }
    ensures views { IfOk result (λ out. shown.views out.views ≡ map (view_over (columns_of setting.now)) (map written.view views.now)) }
{
    let mut ranges = Vec::new(setting.alloc);
    let mut resolved = Items::new(setting.alloc);
    for view in views {
        let ResolvedView { range, view } = resolved_view(setting, view)?;
        push_range(&mut ranges, range)?;
        push_view(&mut resolved, view)?;
    }
    Ok(ResolvedViews {
        ranges,
        views: resolved,
    })
}

// The views of a catalog, over these tables and views.
fn next_views(
    alloc: Global,
    schema: &Catalog,
    known: &[Range],
) -> Result<ResolvedViews, OutOfMemory>
    ensures ranges { IfOk result (λ out. shape out.ranges.items ≡ map (view_range (columns_among known.now)) (map written.view schema.now.views)) }
    ensures views { IfOk result (λ out. shown.views out.views ≡ map (view_over (columns_among known.now)) (map written.view schema.now.views)) }
{
    resolved_views(&Setting { alloc, known }, schema.views().as_slice())
}

// Two ranges have the same name and columns.
fn same_range(a: &Range, b: &Range) -> bool
    ensures { result ≡ ranges.same_range (a.now.name, a.now.columns) (b.now.name, b.now.columns) }
{
    a.name == b.name && a.columns.as_slice() == b.columns.as_slice()
}

// The same of lists of ranges.
fn same_ranges(a: &[Range], b: &[Range]) -> bool
    ensures { result ≡ ranges.same_ranges (shape a.now) (shape b.now) }
{
    match (a.split_first(), b.split_first()) {
        (None, None) => true,
        (Some((x, xs)), Some((y, ys))) => same_range(x, y) && same_ranges(xs, ys),
        (None, Some(_)) | (Some(_), None) => false,
    }
}

// The first of these ranges, which are the tables, and then these views.
fn with_views(
    tables: usize,
    mut known: Vec<Range>,
    mut views: Vec<Range>,
) -> Result<Vec<Range>, OutOfMemory>
    ensures { IfOk result (λ out. shape out.items ≡ take tables (shape known.items) ++ shape views.items) }
{
    known.truncate(tables);
    known.append(&mut views)?;
    Ok(known)
}

/// The tables and views of a catalog with the names of their columns, and its views, each with its
/// body resolved. It fails only for want of memory.
///
/// Each round resolves the views over the columns of the round before, and none follows one that
/// changes no columns. So views that read tables alone are resolved twice.
pub fn resolve_schema(alloc: Global, schema: &Catalog) -> Result<ResolvedSchema, OutOfMemory>
    ensures columns { IfOk result (λ x. columns_among x.known ≡ schema_columns (catalog schema.now)) }
    ensures views { IfOk result (λ x. shown.views x.views ≡ view_trees (catalog schema.now)) }
{
    let mut known = table_ranges(alloc, schema.tables().as_slice())?;
    let tables = known.len();
    'rounds: for _depth in 0usize..16 {
        let next = next_views(alloc, schema, known.as_slice())?;
        if same_ranges(&known.as_slice()[tables..], next.ranges.as_slice()) {
            return Ok(ResolvedSchema {
                known: Items::from_vec(known),
                views: next.views,
            });
        }
        known = with_views(tables, known, next.ranges)?;
    }
    let last = next_views(alloc, schema, known.as_slice())?;
    Ok(ResolvedSchema {
        known: Items::from_vec(known),
        views: last.views,
    })
}
