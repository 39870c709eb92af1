// What views read.
ghost use Rattle.std.specs.Prelude.{◌≡◌, ◌++◌, ◌∷◌, [], IfOk, OnOk, map};
ghost use Rattle.sql_ast.specs.Shown as shown;
ghost use Rattle.sql_catalog.specs.Nesting.{readers_of};

use crate::walk::query_names;
use shared_types::OutOfMemory;
use sql_ast::{Names, ViewDecl};
use sql_text::Name;
use sqlite_items::Items;
use std::alloc::Global;

/// A view's name, and the names of tables and views that its body reads, in the order of the text.
#[derive(Drop)]
pub struct Reader {
    pub name: Name,
    pub reads: Names,
}

// Adds what a view reads.
fn add_reader(alloc: Global, view: &ViewDecl, all: &mut Items<Reader>) -> Result<(), OutOfMemory>
    ensures { OnOk result (all.new ≡ all.old ++ readers_of (shown.view view.now ∷ [])) }
{
    let mut reads = Items::new(alloc);
    query_names(alloc, &view.query, &mut reads)?;
    let name = view.name.copy(alloc)?;
    all.push(Reader { name, reads })?;
    Ok(())
}

/// For each view what it reads, in order.
pub fn readers(alloc: Global, views: &[ViewDecl]) -> Result<Items<Reader>, OutOfMemory>
    ensures { IfOk result (λ all. all ≡ readers_of (map shown.view views.now)) }
{
    let mut all = Items::new(alloc);
    for view in views {
        add_reader(alloc, view, &mut all)?;
    }
    Ok(all)
}
