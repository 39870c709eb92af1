// The graph of a valid query.
ghost use Rattle.std.specs.Prelude.{◌≡◌, ◌≤◌, ℕ, List, [], ◌∷◌, None, IfOk, OnOk, map};
ghost use Rattle.row_bag.specs.declared.tables.Table.{Table};
ghost use Rattle.sql_catalog.specs.Shown as declared;
ghost use Rattle.sql_check.specs.Checked.{rows_of};
ghost use Rattle.sql_meaning.specs.ResolvedShown as shown;
ghost use Rattle.qgm_box_size.specs.Nodes.{boxes_size};
ghost use Rattle.qgm_build_size.specs.Sizes.{query_size};
ghost use Rattle.qgm_build_terms.specs.Most.{most_nodes};
ghost use Rattle.qgm_core.specs.Free.{Reaches};
ghost use Rattle.list_laws.specs.Lists.{In};
ghost use Rattle.qgm_core.specs.declared.node.Node.{Node};
ghost use Rattle.qgm_meaning.specs.Meaning.{root_bag};
ghost use Rattle.qgm_wellformed.specs.WellFormed.{fault};
ghost use Rattle.qgm_translation.specs.Lay.{lay_by};
ghost use Rattle.qgm_translation.specs.Lay as l;
ghost use Rattle.qgm_translation.specs.Whole as spec;
ghost use Rattle.qgm_translation_laws.specs.Joined.{AreTablesOf};
ghost use Rattle.qgm_translation_laws.specs.Laid.{IsNumbered};
ghost use Rattle.qgm_build.specs.Laying.{outer_of, query_laid, told_at};
ghost use Rattle.qgm_build_terms.specs.Making.{Gives, top_at};
ghost use Rattle.qgm_build.specs.Schema.{base_of, whole};
ghost use Rattle.qgm_build_terms.specs.SoFar.{so_far};
ghost use Rattle.qgm_build.specs.Valid.{IsItsGraph, IsItsRight, IsQueryOf};

use crate::base::base_table;
use crate::lay::query;
use crate::named::named_of;
use crate::reads::reads;
use qgm_build_size::fits;
use qgm_build_terms::{Ground, Names, Scopes, Shared, Store, most_nodes, put};
use qgm_core::{BoxId, BoxKind, Conds, Graph, Head, Owned};
use qgm_translation_laws::laid_graph_laws;
use shared_types::{OutOfMemory, Text};
use sql_ast::TableDecl;
use sql_catalog::Catalog;
use sql_check::{Checked, Views};
use sql_meaning::{Query, View};
use sql_value::{OrderKeys, OutNames};
use sqlite_items::Items;
use std::alloc::Global;

/// How deep views nest at most.
const DEEPEST: usize = 16;

// Whether a table or a view was laid.
fn is_laid(st: &Store, name: &Text) -> bool
    ensures { result ≡ spec.is_laid (so_far st.now).shared name.now }
{
    for x in &st.shared {
        if x.name == *name {
            return true;
        }
    }
    false
}

// Whether a query reads a table or a view that wasn't laid.
fn is_wanted(reader: &Query, st: &Store, name: &Text) -> bool
    ensures { result ≡ spec.is_wanted (shown.query reader.now) (so_far st.now) name.now }
{
    reads(reader, name) && !is_laid(st, name)
}

// Those who name a table or a view share this box.
fn share(alloc: Global, name: &Text, number: BoxId, st: &mut Store) -> Result<(), OutOfMemory>
    ensures { OnOk result (so_far st.new ≡ spec.shares name.now (top_at number (so_far st.old))) }
{
    let name = name.copy(alloc)?;
    st.shared.push(Shared { name, number })?;
    Ok(())
}

// Lays a table.
fn lay_table(alloc: Global, table: &TableDecl, st: &mut Store) -> Result<(), OutOfMemory>
    ensures { OnOk result (so_far st.new ≡ spec.shares table.now.name (l.lay_table (base_of table.now) (so_far st.old))) }
{
    let made = base_table(alloc, table)?;
    let kind = BoxKind::Base(made);
    let conds = Conds::new(alloc);
    let number = put(
        alloc,
        st,
        kind,
        false,
        conds,
        Head::new(alloc),
        Owned::new(alloc),
    )?;
    share(alloc, &table.name, number, st)
}

// Lays a table that a query reads.
fn lay_wanted(
    alloc: Global,
    reader: &Query,
    table: &TableDecl,
    st: &mut Store,
) -> Result<(), OutOfMemory>
    ensures { OnOk result (so_far st.new ≡ spec.lay_tables (shown.query reader.now) (base_of table.now ∷ []) (so_far st.old)) }
{
    if is_wanted(reader, st, &table.name) {
        lay_table(alloc, table, st)?;
    }
    Ok(())
}

// Lays those of these tables that a query reads.
fn lay_tables(
    alloc: Global,
    reader: &Query,
    tables: &[TableDecl],
    st: &mut Store,
) -> Result<(), OutOfMemory>
    ensures { OnOk result (so_far st.new ≡ spec.lay_tables (shown.query reader.now) (map base_of tables.now) (so_far st.old)) }
{
    for table in tables {
        lay_wanted(alloc, reader, table, st)?;
    }
    Ok(())
}

// Lays a query, where as many nodes as it is written with may still be made.
fn lay_within(g: &Ground<'_>, x: &Query, st: &mut Store) -> Result<BoxId, OutOfMemory>
    ensures laid { IfOk result (λ b. Gives (query_laid g.now (shown.query x.now) (so_far st.old)) b (so_far st.new)) }
    ensures written { OnOk result (query_size (shown.query x.now) ≤ st.old.left) }
{
    fits(x, st.left)?;
    query(g, x, st)
}

// Lays a view.
fn lay_view(g: &Ground<'_>, view: &View, st: &mut Store) -> Result<(), OutOfMemory>
    requires outermost { outer_of g.now ≡ [] }
    ensures { OnOk result (so_far st.new ≡ spec.shares view.now.name (lay_by (told_at g.now) (shown.query view.now.body) [] (so_far st.old))) }
{
    let number = lay_within(g, &view.body, st)?;
    share(g.alloc, &view.name, number, st)
}

/// The tables and the views of a schema.
#[derive(Clone, Copy)]
struct Schema<'a> {
    tables: &'a [TableDecl],
    views: &'a [View],
}

// Lays the tables and the views that a query reads, where views nest no deeper than this.
fn lay_read(
    g: &Ground<'_>,
    reader: &Query,
    depth: usize,
    schema: &Schema<'_>,
    st: &mut Store,
) -> Result<(), OutOfMemory>
    requires outermost { outer_of g.now ≡ [] }
    ensures { OnOk result (so_far st.new ≡ spec.lay_read (told_at g.now) (map base_of schema.now.tables.now) (shown.views schema.now.views.now) depth (shown.query reader.now) (so_far st.old)) }
{
    lay_tables(g.alloc, reader, schema.tables, st)?;
    if depth == 0 {
        return Ok(());
    }
    for view in schema.views {
        if is_wanted(reader, st, &view.name) {
            lay_read(g, &view.body, depth - 1, schema, st)?;
            lay_view(g, view, st)?;
        }
    }
    Ok(())
}

// The name of a column, where it has one.
fn copied_name(alloc: Global, name: &Option<Text>) -> Result<Option<Text>, OutOfMemory>
    ensures { IfOk result (λ out. out ≡ name.now) }
{
    match name {
        Some(name) => Ok(Some(name.copy(alloc)?)),
        None => Ok(None),
    }
}

// The names of columns.
fn copied_names(alloc: Global, names: &OutNames) -> Result<OutNames, OutOfMemory>
    ensures { IfOk result (λ out. out ≡ names.now) }
{
    let mut out = Items::new(alloc);
    for name in names.as_slice() {
        out.push(copied_name(alloc, name)?)?;
    }
    Ok(out)
}

// The keys of an order.
fn copied_order(alloc: Global, order: &OrderKeys) -> Result<OrderKeys, OutOfMemory>
    ensures { IfOk result (λ out. out ≡ order.now) }
{
    Ok(Items::from_slice(alloc, order.as_slice())?)
}

// Nothing was made. No quantifier has the number 0, which stands for one that isn't there.
fn empty_store(alloc: Global) -> Result<Store, OutOfMemory>
    ensures { IfOk result (λ st. so_far st ≡ spec.nothing_laid) }
{
    let mut rows = Vec::new(alloc);
    rows.push(Items::new(alloc))?;
    Ok(Store {
        made: Vec::new(alloc),
        next_quant: 1,
        types: Vec::new(alloc),
        rows,
        shared: Vec::new(alloc),
        left: most_nodes(),
    })
}

// All boxes of a checked query, of which the root is topmost.
#[derive(Drop)]
struct Whole {
    store: Store,
    root: BoxId,
}

// Lays the tables and the views that a query reads, and then the query.
fn lay_whole(
    alloc: Global,
    checked: &Checked,
    catalog: &Catalog,
    views: &Views,
) -> Result<Whole, OutOfMemory>
    ensures laid { IfOk result (λ w. Gives (whole catalog.now views.now checked.now) w.root (so_far w.store)) }
    ensures written { OnOk result (query_size (shown.query checked.now.query) ≤ most_nodes) }
{
    let named = named_of(alloc, catalog, views)?;
    let names = Names { named: &named };
    let outer = Scopes::Outermost;
    let g = Ground {
        alloc,
        names,
        outer: &outer,
    };
    let schema = Schema {
        tables: catalog.tables.as_slice(),
        views: views.schema.views.as_slice(),
    };
    let mut store = empty_store(alloc)?;
    lay_read(&g, &checked.query, DEEPEST, &schema, &mut store)?;
    let root = lay_within(&g, &checked.query, &mut store)?;
    Ok(Whole { store, root })
}

// The graph of boxes that were laid.
fn graph_laid(alloc: Global, checked: &Checked, w: Whole) -> Result<Graph, OutOfMemory>
    requires numbered { IsNumbered (so_far w.store) }
    ensures { IfOk result (λ g. g ≡ spec.graph_of (top_at w.root (so_far w.store)) checked.now.names checked.now.order) }
{
    let Whole { store, root } = w;
    let names = copied_names(alloc, &checked.names)?;
    let order = copied_order(alloc, &checked.order)?;
    Graph::of_boxes(alloc, store.made, root, names, order, store.next_quant)
}

/// The graph of a valid query: the boxes of the tables and the views that it reads, each once, and of
/// the query itself. It is built of the query, well-formed and reached from its root, its root's bag is
/// the query's rows, and its cells and conditions have no more than `most_nodes` nodes. It fails only for
/// want of memory, which more nodes are taken to be.
pub fn build(
    alloc: Global,
    checked: &Checked,
    catalog: &Catalog,
    views: &Views,
) -> Result<Graph, OutOfMemory>
    requires query { IsQueryOf (declared.catalog catalog.now) views.now checked.now }
    ensures graph { IfOk result (λ g. g ≡ spec.graph_of (whole catalog.now views.now checked.now) checked.now.names checked.now.order) }
    ensures built { IfOk result (λ g. IsItsGraph (declared.catalog catalog.now) checked.now g) }
    ensures right { IfOk result (λ g. IsItsRight (declared.catalog catalog.now) checked.now g) }
    ensures formed { IfOk result (λ g. fault g ≡ None) }
    ensures reaches { IfOk result (λ g. (n : Node) → In n g.boxes → Reaches g.boxes g.root n.id) }
    ensures rows { IfOk result (λ g. (tables : List Table) → AreTablesOf (declared.catalog catalog.now) tables → root_bag tables g ≡ rows_of views.now checked.now tables) }
    ensures few { IfOk result (λ g. boxes_size g.boxes ≤ most_nodes) }
    ensures written { OnOk result (query_size (shown.query checked.now.query) ≤ most_nodes) }
{
    laid_graph_laws();
    let w = lay_whole(alloc, checked, catalog, views)?;
    graph_laid(alloc, checked, w)
}
