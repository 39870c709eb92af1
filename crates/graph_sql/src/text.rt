// The statement of a graph.
ghost use Rattle.std.specs.Prelude.{◌≡◌, IfOk};
ghost use Rattle.graph_print.specs.GraphText.{box_order, quant_order};
ghost use Rattle.graph_print.specs.Indexed.{IsIndex};
ghost use Rattle.graph_sql.specs.Settings.{setting_in};
ghost use Rattle.graph_sql.specs.StatementText as spec;
ghost use Rattle.qgm_props.specs.Inferred.{not_null_under};
ghost use Rattle.qgm_props.specs.Table.{facts_of};

use crate::boxes::made_in;
use crate::entries::{counts_of, entries_of, marks_of};
use crate::overs::sure_of;
use crate::root::{put_root, put_with};
use crate::setting::Sheet;
use crate::tables::TableNames;
use graph_print::{Index, index_of};
use qgm_core::{BoxId, Graph, Walk};
use qgm_props::Props;
use shared_types::{OutOfMemory, Text};
use std::alloc::Global;

// What the boxes of a graph share, with these entries.
fn sheet_of<'a>(
    alloc: Global,
    tables: &'a [TableNames],
    facts: &'a Props,
    graph: &Graph,
    index: &'a Index,
    list: &[BoxId],
) -> Result<Sheet<'a>, OutOfMemory>
    requires { IsIndex index.now graph.now }
    ensures { IfOk result (λ s. setting_in s ≡ record { tables = tables.now; quants = quant_order graph.now; boxes = box_order graph.now; entries = list.now; not_null = not_null_under graph.now.boxes (facts_of facts.now) }) }
{
    let entries = marks_of(alloc, list)?;
    let sure = sure_of(alloc, facts, graph.nodes())?;
    Ok(Sheet {
        tables,
        quants: &index.quants,
        boxes: &index.boxes,
        entries,
        sure,
    })
}

// The entries of a graph.
fn list_of(alloc: Global, graph: &Graph, order: &[BoxId]) -> Result<Vec<BoxId>, OutOfMemory>
    requires { order.now ≡ box_order graph.now }
    ensures { IfOk result (λ v. v.items ≡ spec.entries_of graph.now) }
{
    let counts = counts_of(alloc, graph.nodes(), order)?;
    entries_of(alloc, graph.nodes(), &counts)
}

// The text of the statement, where its entries are known.
fn text_with(
    alloc: Global,
    sheet: &Sheet<'_>,
    graph: &Graph,
    list: &[BoxId],
) -> Result<Text, OutOfMemory>
    requires { sheet.now.entries ≡ list.now }
    ensures { IfOk result (λ t. t ≡ spec.text_by (setting_in sheet.now) graph.now (spec.made_in (setting_in sheet.now) graph.now.boxes)) }
{
    let made = made_in(alloc, sheet, graph.nodes())?;
    let mut out = Text::new(alloc)?;
    put_with(sheet, &made, list, &mut out)?;
    put_root(graph, &made, &mut out)?;
    Ok(out)
}

/// The text of the one statement of PostgreSQL that has the rows of the graph, in its order and with
/// its names: closed boxes that several quantifiers range over are entries of WITH, all others stand
/// in place. The tables give the names of stored columns; what is inferred of the graph tells which
/// columns hold no null. It fails for want of memory alone.
pub fn statement(
    alloc: Global,
    tables: &[TableNames],
    facts: &Props,
    graph: &Graph,
) -> Result<Text, OutOfMemory>
    ensures { IfOk result (λ t. t ≡ spec.text_of tables.now (not_null_under graph.now.boxes (facts_of facts.now)) graph.now) }
{
    let order = graph.walk(alloc, Walk::Depth)?;
    let index = index_of(alloc, graph, &order)?;
    let list = list_of(alloc, graph, &order)?;
    let sheet = sheet_of(alloc, tables, facts, graph, &index, &list)?;
    text_with(alloc, &sheet, graph, &list)
}
