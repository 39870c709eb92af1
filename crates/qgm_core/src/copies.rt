// Copies of boxes.
ghost use Rattle.std.specs.Prelude.{◌≡◌, IfOk};

use crate::kinds::{BaseTable, BoxKind};
use crate::node::Node;
use crate::parts::BoxParts;
use qgm_terms::{ROOM, copy_conds, copy_head};
use shared_types::{OutOfMemory, Text};
use sql_value::{OrderKeys, OutNames};
use sqlite_items::Items;
use std::alloc::Global;

// A copy of keys.
fn copy_keys(alloc: Global, keys: &[Items<usize>]) -> Result<Items<Items<usize>>, OutOfMemory>
    ensures { IfOk result (λ all. all ≡ keys.now) }
{
    let mut all = Items::new(alloc);
    for key in keys {
        all.push(Items::from_slice(alloc, key.as_slice())?)?;
    }
    Ok(all)
}

// A copy of a stored table.
fn copy_table(alloc: Global, table: &BaseTable) -> Result<BaseTable, OutOfMemory>
    ensures { IfOk result (λ t. t ≡ table.now) }
{
    Ok(BaseTable {
        name: table.name.copy(alloc)?,
        types: Items::from_slice(alloc, table.types.as_slice())?,
        keys: copy_keys(alloc, table.keys.as_slice())?,
        not_null: Items::from_slice(alloc, table.not_null.as_slice())?,
    })
}

// A copy of a kind.
fn copy_kind(alloc: Global, kind: &BoxKind) -> Result<BoxKind, OutOfMemory>
    ensures { IfOk result (λ k. k ≡ kind.now) }
{
    match kind {
        BoxKind::Base(table) => Ok(BoxKind::Base(copy_table(alloc, table)?)),
        BoxKind::Select => Ok(BoxKind::Select),
        BoxKind::Group(keys) => Ok(BoxKind::Group(*keys)),
        BoxKind::SetOp(operator, types) => {
            let types = Items::from_slice(alloc, types.as_slice())?;
            Ok(BoxKind::SetOp(*operator, types))
        }
        BoxKind::OuterJoin => Ok(BoxKind::OuterJoin),
    }
}

// A copy of a box.
fn copy_node(alloc: Global, node: &Node) -> Result<Node, OutOfMemory>
    ensures { IfOk result (λ n. n ≡ node.now) }
{
    let quants = node.quants.copy(alloc)?;
    let conds = copy_conds(alloc, &node.parts.conds, ROOM)?;
    let head = copy_head(alloc, &node.parts.head, ROOM)?;
    // (the kind last: what ends early while it is there is proved for each variant)
    let kind = copy_kind(alloc, &node.parts.kind)?;
    Ok(Node {
        id: node.id,
        parts: BoxParts {
            kind,
            distinct: node.parts.distinct,
            role: node.parts.role,
            conds,
            head,
        },
        quants,
    })
}

// A copy of boxes.
pub fn copy_nodes(alloc: Global, nodes: &[Node]) -> Result<Vec<Node>, OutOfMemory>
    ensures { IfOk result (λ all. all.items ≡ nodes.now) }
{
    let mut all = Vec::new(alloc);
    for node in nodes {
        all.push(copy_node(alloc, node)?)?;
    }
    Ok(all)
}

// A copy of a name, or of none.
fn copy_name(alloc: Global, name: &Option<Text>) -> Result<Option<Text>, OutOfMemory>
    ensures { IfOk result (λ n. n ≡ name.now) }
{
    match name {
        Some(text) => Ok(Some(text.copy(alloc)?)),
        None => Ok(None),
    }
}

// A copy of names.
pub fn copy_names(alloc: Global, names: &[Option<Text>]) -> Result<OutNames, OutOfMemory>
    ensures { IfOk result (λ all. all ≡ names.now) }
{
    let mut all = Items::new(alloc);
    for name in names {
        all.push(copy_name(alloc, name)?)?;
    }
    Ok(all)
}

// A copy of keys of an order.
pub fn copy_order(alloc: Global, order: &OrderKeys) -> Result<OrderKeys, OutOfMemory>
    ensures { IfOk result (λ all. all ≡ order.now) }
{
    Items::from_slice(alloc, order.as_slice()).or(Err(OutOfMemory))
}
