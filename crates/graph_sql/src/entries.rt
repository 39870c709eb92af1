// Which boxes are entries of WITH.
ghost use Rattle.std.specs.Prelude.{◌≡◌, ◌++◌, map, IfOk, OnOk};
ghost use Rattle.graph_sql.specs.StatementText.{entry_by, from_last};
ghost use Rattle.list_laws.specs.Lists.{first};
ghost use Rattle.qgm_core.specs.Boxes.{is_box, numbers, quants_in};
ghost use Rattle.qgm_core.specs.Walk.{under};

use qgm_core::{BoxId, Counts, Marks, Node, Places, node_at};
use qgm_wellformed::is_closed;
use shared_types::OutOfMemory;
use std::alloc::Global;

// Counts the boxes under the quantifiers of a box.
fn count_node(node: &Node, counts: &mut Counts) -> Result<(), OutOfMemory>
    ensures { OnOk result (counts.new ≡ counts.old ++ map (λ r. r.over) node.now.quants) }
{
    for r in node.quants.as_slice() {
        counts.push(r.over)?;
    }
    Ok(())
}

// Counts those of the box of a number.
fn count_at(
    nodes: &[Node],
    places: &Places,
    b: BoxId,
    counts: &mut Counts,
) -> Result<(), OutOfMemory>
    requires { places.now ≡ numbers nodes.now }
    ensures { OnOk result (counts.new ≡ counts.old ++ map (λ r. r.over) (quants_in (first (is_box b) nodes.now))) }
{
    match node_at(nodes, places, b) {
        Some(node) => count_node(node, counts),
        None => Ok(()),
    }
}

/// How often the quantifiers of these boxes range over each box.
pub fn counts_of(alloc: Global, nodes: &[Node], order: &[BoxId]) -> Result<Counts, OutOfMemory>
    ensures { IfOk result (λ c. c ≡ under nodes.now order.now) }
{
    let places = Places::of(alloc, nodes)?;
    let mut counts = Counts::new(alloc);
    for b in order {
        count_at(nodes, &places, *b, &mut counts)?;
    }
    Ok(counts)
}

// Whether a box is an entry.
fn is_entry(
    alloc: Global,
    nodes: &[Node],
    counts: &Counts,
    node: &Node,
) -> Result<bool, OutOfMemory>
    ensures { IfOk result (λ entry. entry ≡ entry_by nodes.now counts.now node.now) }
{
    if node.parts.kind.is_base() {
        return Ok(false);
    }
    if counts.count(node.id) < 2 {
        return Ok(false);
    }
    is_closed(alloc, nodes, node.id)
}

/// The boxes that are entries, from the last to the first.
pub fn entries_of(alloc: Global, nodes: &[Node], counts: &Counts) -> Result<Vec<BoxId>, OutOfMemory>
    ensures { IfOk result (λ v. v.items ≡ from_last (entry_by nodes.now counts.now) nodes.now) }
{
    let mut list = Vec::new(alloc);
    let mut i = nodes.len();
    while i > 0 {
        i -= 1;
        if is_entry(alloc, nodes, counts, &nodes[i])? {
            list.push(nodes[i].id)?;
        }
    }
    Ok(list)
}

/// These numbers, each found at once.
pub fn marks_of(alloc: Global, list: &[BoxId]) -> Result<Marks, OutOfMemory>
    ensures { IfOk result (λ m. m ≡ list.now) }
{
    let mut marks = Marks::new(alloc);
    for b in list {
        marks.push(*b)?;
    }
    Ok(marks)
}
