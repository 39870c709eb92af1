// Views by their nesting depth.
ghost use Rattle.std.specs.Prelude.{◌≡◌, ◌+◌, ℕ, map, IfOk};
ghost use Rattle.std.specs.List.{list_any};
ghost use Rattle.sql_ast.specs.Shown as written;
ghost use Rattle.sql_catalog.specs.Nesting.{readers_of};
ghost use Rattle.sql_catalog.specs.Shown as declared;
ghost use Rattle.sql_meaning.specs.Scopes.{first_of};
ghost use Rattle.sql_faults.specs.Depths as spec;
ghost use Rattle.sql_faults.specs.Shown.{heads};
ghost use Rattle.sql_faults.specs.Views as views;

use crate::fault::order;
use crate::known::Known;
use crate::operands::contains;
use crate::view::view_fault;
use shared_types::OutOfMemory;
use sql_ast::ViewDecl;
use sql_catalog::Reader;
use sql_text::Name;
use sqlite_items::Items;
use std::alloc::Global;

/// A mark for each view of a catalog.
pub(crate) type Marks = Items<bool>;

// Whether one of these views is marked and has one of these names.
fn reads_marked(reads: &[Name], views: &[Reader], marks: &[bool]) -> bool
    ensures { result ≡ spec.reads_marked reads.now views.now marks.now }
{
    let mut rest = marks;
    for view in views {
        match rest {
            [] => return false,
            [mark, others @ ..] => {
                if *mark && contains(reads, &view.name) {
                    return true;
                }
                rest = others;
            }
        }
    }
    false
}

// Whether a view is marked.
pub(crate) fn any_marked(marks: &[bool]) -> bool
    ensures { result ≡ list_any (λ mark. mark) marks.now }
{
    marks.iter().any(|mark| *mark)
}

// A mark for each view: that it nests deeper than 0.
pub(crate) fn all_marked(alloc: Global, views: &[Reader]) -> Result<Marks, OutOfMemory>
    ensures { IfOk result (λ marks. marks ≡ spec.over views.now 0) }
{
    let mut marks = Items::new(alloc);
    for _view in views {
        marks.push(true)?;
    }
    Ok(marks)
}

// The marks of the views that read a marked one.
fn next_marks(alloc: Global, views: &[Reader], marks: &[bool]) -> Result<Marks, OutOfMemory>
    ensures { IfOk result (λ next. next ≡ map (λ v. spec.reads_marked v.reads views.now marks.now) views.now) }
{
    let mut next = Items::new(alloc);
    for view in views {
        next.push(reads_marked(view.reads.as_slice(), views, marks))?;
    }
    Ok(next)
}

// From the marks of the views that nest deeper than some depth, those of the views that nest deeper
// than one more.
pub(crate) fn deeper(alloc: Global, views: &[Reader], marks: &[bool]) -> Result<Marks, OutOfMemory>
    ensures { (depth : ℕ) → marks.now ≡ spec.over views.now depth → IfOk result (λ next. next ≡ spec.over views.now (depth + 1)) }
{
    next_marks(alloc, views, marks)
}

/// A view that isn't valid: its name, and the number of its fault.
#[derive(Drop)]
pub(crate) struct Faulty {
    pub view: Name,
    pub number: u8,
}

// The refusal of a view, where it isn't valid.
fn refusal_of(
    alloc: Global,
    view: &ViewDecl,
    known: &Known<'_>,
) -> Result<Option<Faulty>, OutOfMemory>
    ensures { IfOk result (λ found. spec.refusal found ≡ views.refusal_of (heads known.now) (written.view view.now)) }
{
    match view_fault(alloc, view, known)? {
        Some(fault) => Ok(Some(Faulty {
            view: view.name.copy(alloc)?,
            number: order(fault),
        })),
        None => Ok(None),
    }
}

// The refusal of the first of these views that is marked in the first list alone and isn't valid.
fn refused_marked(
    alloc: Global,
    list: &[ViewDecl],
    marks: &[bool],
    deeper: &[bool],
    known: &Known<'_>,
) -> Result<Option<Faulty>, OutOfMemory>
    ensures { IfOk result (λ found. spec.refusal found ≡ spec.refused_marked (heads known.now) (map written.view list.now) marks.now deeper.now) }
{
    let mut rest = marks;
    let mut rest_deeper = deeper;
    for view in list {
        let ([mark, others @ ..], [deep, others_deeper @ ..]) = (rest, rest_deeper) else {
            return Ok(None);
        };
        if *mark && !*deep {
            if let Some(found) = refusal_of(alloc, view, known)? {
                return Ok(Some(found));
            }
        }
        rest = others;
        rest_deeper = others_deeper;
    }
    Ok(None)
}

// What was found before, or else the refusal of the first of the views that is marked in the first
// list alone and isn't valid.
fn refused_next(
    alloc: Global,
    found: Option<Faulty>,
    marks: &[bool],
    deeper: &[bool],
    known: &Known<'_>,
) -> Result<Option<Faulty>, OutOfMemory>
    ensures { IfOk result (λ next. spec.refusal next ≡ first_of (spec.refusal found) (spec.refused_marked (heads known.now) (map written.view known.now.catalog.now.views) marks.now deeper.now)) }
{
    match found {
        Some(found) => Ok(Some(found)),
        None => refused_marked(alloc, known.catalog.views.as_slice(), marks, deeper, known),
    }
}

/// The greatest depth to which views nest.
pub(crate) const MAX_DEPTH: usize = 16;

/// The refusal of the first view of a catalog that isn't valid, by nesting depth and then in declared
/// order, where this is what its views read.
pub(crate) fn refused_view(
    alloc: Global,
    all: &[Reader],
    known: &Known<'_>,
) -> Result<Option<Faulty>, OutOfMemory>
    requires readers { all.now ≡ readers_of (map written.view known.now.catalog.now.views) }
    requires views { known.now.views.now ≡ views.view_heads (declared.catalog known.now.catalog.now) }
    ensures { IfOk result (λ found. spec.refusal found ≡ views.view_refusal (declared.catalog known.now.catalog.now)) }
{
    let mut marks = all_marked(alloc, all)?;
    let mut found = None;
    for _depth in 0..MAX_DEPTH {
        let next = deeper(alloc, all, marks.as_slice())?;
        found = refused_next(alloc, found, marks.as_slice(), next.as_slice(), known)?;
        marks = next;
    }
    Ok(found)
}
