// How deep views nest.
ghost use Rattle.std.specs.Prelude.{◌≡◌, IfOk, filter};
ghost use Rattle.std.specs.List.{list_any};
ghost use Rattle.sql_ast.specs.Names.{contains};
ghost use Rattle.sql_catalog.specs.Nesting.{reader_names, nests_over, is_recursive};

use crate::name_list::note;
use crate::name_set::{NameSet, has_one};
use crate::reader::Reader;
use shared_types::OutOfMemory;
use sql_ast::Names;
use sql_text::Name;
use sqlite_items::Items;
use std::alloc::Global;

// The names of the views, in order.
fn reader_names(alloc: Global, views: &[Reader]) -> Result<Names, OutOfMemory>
    ensures { IfOk result (λ names. names ≡ reader_names views.now) }
{
    let mut names = Items::new(alloc);
    for view in views {
        note(alloc, &view.name, &mut names)?;
    }
    Ok(names)
}

// The names of the views that read one of a set's names, in order.
fn names_that_read(alloc: Global, views: &[Reader], read: &NameSet) -> Result<Names, OutOfMemory>
    ensures { IfOk result (λ names. names ≡ reader_names (filter (λ v. list_any (contains read.now) v.reads) views.now)) }
{
    let mut names = Items::new(alloc);
    for view in views {
        if has_one(read, view.reads.as_slice()) {
            note(alloc, &view.name, &mut names)?;
        }
    }
    Ok(names)
}

// Of the names of views that nest over some depth, those that nest over one more, in order.
fn one_deeper(alloc: Global, views: &[Reader], over: &[Name]) -> Result<Names, OutOfMemory>
    ensures { IfOk result (λ names. names ≡ reader_names (filter (λ v. list_any (contains over.now) v.reads) views.now)) }
{
    let read = NameSet::of(alloc, over)?;
    names_that_read(alloc, views, &read)
}

// The names of the views that nest over this deep, in order.
fn names_over(alloc: Global, views: &[Reader], depth: usize) -> Result<Names, OutOfMemory>
    ensures { IfOk result (λ names. names ≡ reader_names (filter (nests_over views.now depth) views.now)) }
{
    let mut over = reader_names(alloc, views)?;
    for _round in 0..depth {
        over = one_deeper(alloc, views, over.as_slice())?;
    }
    Ok(over)
}

/// Whether a view nests over this deep.
pub fn one_nests_over(alloc: Global, views: &[Reader], depth: usize) -> Result<bool, OutOfMemory>
    ensures { IfOk result (λ found. found ≡ list_any (nests_over views.now depth) views.now) }
{
    let over = names_over(alloc, views, depth)?;
    Ok(!over.is_empty())
}

/// Whether a chain of views leads from a view to itself: whether a chain is longer than there are
/// views.
pub fn is_recursive(alloc: Global, views: &[Reader]) -> Result<bool, OutOfMemory>
    ensures { IfOk result (λ found. found ≡ is_recursive views.now) }
{
    one_nests_over(alloc, views, views.len())
}
