// The tables and views of a schema, in declared order.
ghost use Rattle.std.specs.Prelude.{◌≡◌, option_map, map, find};
ghost use Rattle.sql_ast.specs.Shown as shown;
ghost use Rattle.sql_ast.specs.Declarations.{table_named, view_named};
ghost use Rattle.sql_ast.specs.Names.{same_name};

use sql_ast::{TableDecl, ViewDecl};
use sql_text::Name;
use sqlite_items::Items;

/// The tables, in declared order.
pub type TableList = Items<TableDecl>;

/// The views, in declared order.
pub type ViewList = Items<ViewDecl>;

/// What a schema declares.
#[derive(Drop)]
pub struct Catalog {
    pub tables: TableList,
    pub views: ViewList,
}

// The first view of a name among these.
fn view_among<'a>(views: &'a [ViewDecl], name: &Name) -> Option<&'a ViewDecl>
    ensures { option_map (λ v. v.now) result ≡ find (λ v. same_name v.name name.now) views.now }
{
    views.iter().find(|view| view.name == *name)
}

impl Catalog {
    /// The tables, in declared order.
    pub fn tables(&self) -> &TableList
        ensures { result.now ≡ self.now.tables }
    {
        &self.tables
    }

    /// The views, in declared order.
    pub fn views(&self) -> &ViewList
        ensures { result.now ≡ self.now.views }
    {
        &self.views
    }

    /// The first table of a name; none exactly where the catalog has none of the name.
    pub fn table(&self, name: &Name) -> Option<&TableDecl>
        ensures { option_map (λ t. t.now) result ≡ table_named self.now.tables name.now }
    {
        self.tables
            .as_slice()
            .iter()
            .find(|table| table.name == *name)
    }

    /// The first view of a name; none exactly where the catalog has none of the name.
    pub fn view(&self, name: &Name) -> Option<&ViewDecl>
        ensures { option_map (λ v. shown.view v.now) result ≡ view_named (map shown.view self.now.views) name.now }
    {
        view_among(self.views.as_slice(), name)
    }
}
