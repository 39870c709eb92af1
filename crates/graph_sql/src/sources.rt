// A box of which EXISTS asks.
ghost use Rattle.std.specs.Prelude.{◌≡◌, ◌++◌, codes, OnOk};
ghost use Rattle.graph_sql.specs.BodyText as text_spec;
ghost use Rattle.graph_sql.specs.Lists as lists;
ghost use Rattle.graph_sql.specs.Scoped as spec;

use crate::scope::{Scope, put_text};
use crate::selects::{each_id, put_cells, put_leading_ranges, put_leading_tests};
use graph_print::put_word;
use qgm_core::{BoxKind, Node};
use shared_types::{OutOfMemory, Text};
use std::alloc::Global;

// A SELECT as a FROM item without its name.
fn put_alone(text: &Text, out: &mut Text) -> Result<(), OutOfMemory>
    ensures { OnOk result (out.new ≡ out.old ++ text_spec.alone_text text.now) }
{
    put_word(b"LATERAL (", out)?;
    put_text(text, out)?;
    put_word(b")", out)
}

// The cells of a select as a FROM item without its name.
fn put_cells_item(scope: &Scope<'_>, node: &Node, out: &mut Text) -> Result<(), OutOfMemory>
    ensures { OnOk result (out.new ≡ out.old ++ text_spec.alone_text (codes "SELECT " ++ lists.cells_text scope.now node.now.parts.head)) }
{
    put_word(b"LATERAL (", out)?;
    put_word(b"SELECT ", out)?;
    put_cells(scope, node.parts.head.as_slice(), out)?;
    put_word(b")", out)
}

// The FROM items of a select, and its cells as one more.
fn put_select_source(
    alloc: Global,
    scope: &Scope<'_>,
    node: &Node,
    out: &mut Text,
) -> Result<(), OutOfMemory>
    ensures { OnOk result (out.new ≡ out.old ++ lists.select_source scope.now node.now) }
{
    let ids = each_id(alloc, node.quants.as_slice())?;
    put_leading_ranges(scope, &ids, out)?;
    put_cells_item(scope, node, out)
}

/// Adds what stands before the name of the item that has the cells of a box, whose SELECT is this.
pub fn put_source_of(
    alloc: Global,
    scope: &Scope<'_>,
    text: &Text,
    node: &Node,
    out: &mut Text,
) -> Result<(), OutOfMemory>
    ensures { OnOk result (out.new ≡ out.old ++ lists.node_source scope.now text.now node.now) }
{
    match &node.parts.kind {
        BoxKind::Select => put_select_source(alloc, scope, node, out),
        BoxKind::Base(_) | BoxKind::Group(_) | BoxKind::SetOp(_, _) | BoxKind::OuterJoin => {
            put_alone(text, out)
        }
    }
}

/// Adds what stands behind the columns of that item.
pub fn put_conditions_of(scope: &Scope<'_>, node: &Node, out: &mut Text) -> Result<(), OutOfMemory>
    ensures { OnOk result (out.new ≡ out.old ++ lists.node_conditions scope.now node.now) }
{
    put_word(b" WHERE ", out)?;
    match &node.parts.kind {
        BoxKind::Select => put_leading_tests(scope, node.parts.conds.as_slice(), out),
        BoxKind::Base(_) | BoxKind::Group(_) | BoxKind::SetOp(_, _) | BoxKind::OuterJoin => Ok(()),
    }
}
