// Edits of several boxes, or of several quantifiers.
ghost use Rattle.std.specs.Prelude.{ℕ, ◌≡◌, ◌++◌, suc, IfOk, OnOk};
ghost use Rattle.list_laws.specs.Lists.{EachOnce, In};
ghost use Rattle.qgm_core.specs.Boxes.{HasBox, HasQuant, numbers};
ghost use Rattle.qgm_core.specs.Edits.{substitute};
ghost use Rattle.qgm_core.specs.Held.{HasAll};
ghost use Rattle.qgm_core.specs.declared.owned.OwnedQuant.{OwnedQuant};
ghost use Rattle.qgm_meaning.specs.Tags.{columns_from};
ghost use Rattle.rule_merge.specs.MergeSelectSteps.{reads_any};
ghost use Rattle.rule_feed.specs.FeedCode as code;
ghost use Rattle.rule_feed.specs.FeedSteps as spec;
ghost use Rattle.rule_feed.specs.Split.{heads};

use crate::feed::condition::width_of;
use qgm_core::{BoxId, BoxParts, Graph, Marks, Node, OwnedQuant};
use qgm_term_search::{stands_in_cells, stands_in_conds};
use qgm_terms::{Gx, Head, QuantId, Sought};
use shared_types::OutOfMemory;
use std::alloc::Global;

/// Columns of q, w of them, behind `start` others.
pub fn columns(alloc: Global, q: QuantId, start: usize, w: usize) -> Result<Head, OutOfMemory>
    ensures { IfOk result (λ h. h ≡ columns_from q (suc start) w) }
{
    let Some(end) = start.checked_add(w) else {
        return Err(OutOfMemory);
    };
    let mut head = Head::new(alloc);
    for k in start..end {
        head.push(Gx::Col(q, k + 1))?;
    }
    Ok(head)
}

/// Adds columns 1 to w of q.
pub fn add_columns(head: &mut Head, q: QuantId, w: usize) -> Result<(), OutOfMemory>
    ensures { OnOk result (head.new ≡ head.old ++ columns_from q 1 w) }
{
    for k in 0..w {
        head.push(Gx::Col(q, k + 1))?;
    }
    Ok(())
}

/// The numbers of boxes.
pub fn numbers_of(alloc: Global, nodes: &[Node]) -> Result<Vec<BoxId>, OutOfMemory>
    ensures { IfOk result (λ v. v.items ≡ numbers nodes.now) }
{
    let mut out = Vec::new(alloc);
    for node in nodes {
        out.push(node.id)?;
    }
    Ok(out)
}

/// Moves these quantifiers to the end of a box.
pub fn move_all(graph: &mut Graph, list: &[OwnedQuant], s: BoxId) -> Result<(), OutOfMemory>
    requires held { HasBox s graph.old }
    requires owned { (r : OwnedQuant) → In r list.now → HasQuant r.id graph.old }
    ensures ok { OnOk result (graph.new ≡ spec.moved_all s list.now graph.old) }
    ensures kept { HasAll graph.old graph.new }
{
    for r in list {
        let last = graph.places_for(r.id, s);
        graph.move_quant(r.id, s, last)?;
    }
    Ok(())
}

// Whether a box reads a column of q.
fn reads_any(parts: &BoxParts, q: QuantId) -> bool
    ensures { result ≡ reads_any q parts.now }
{
    stands_in_cells(parts.head.as_slice(), Sought::Row(q))
        || stands_in_conds(parts.conds.as_slice(), Sought::Row(q))
}

// The boxes that do.
fn readers(alloc: Global, nodes: &[Node], q: QuantId) -> Result<Marks, OutOfMemory>
    ensures { IfOk result (λ m. m ≡ code.readers q nodes.now) }
{
    let mut marks = Marks::new(alloc);
    for node in nodes {
        if reads_any(&node.parts, q) {
            marks.push(node.id)?;
        }
    }
    Ok(marks)
}

// Puts cells for a quantifier's columns in a box, where it is one of those that read them.
fn put_one(
    alloc: Global,
    graph: &mut Graph,
    readers: &Marks,
    b: BoxId,
    q: QuantId,
    cells: &Head,
) -> Result<(), OutOfMemory>
    requires held { HasBox b graph.old }
    requires readers { code.AreReaders readers.now q graph.old.boxes }
    ensures ok { OnOk result (graph.new ≡ substitute b q cells.now graph.old) }
    ensures readers { OnOk result (code.AreReaders readers.now q graph.new.boxes) }
    ensures kept { HasAll graph.old graph.new }
{
    if !readers.has(b) {
        return Ok(());
    }
    graph.substitute(alloc, b, q, cells)
}

/// Puts cells for a quantifier's columns in these boxes, one after the other. Boxes that read none
/// stay, and are not copied.
pub fn put_each(
    alloc: Global,
    graph: &mut Graph,
    ids: &[BoxId],
    q: QuantId,
    cells: &Head,
) -> Result<(), OutOfMemory>
    requires held { (b : ℕ) → In b ids.now → HasBox b graph.old }
    ensures ok { OnOk result (graph.new ≡ spec.put_each ids.now q cells.now graph.old) }
    ensures kept { HasAll graph.old graph.new }
{
    let readers = readers(alloc, graph.nodes(), q)?;
    for b in ids {
        put_one(alloc, graph, &readers, *b, q, cells)?;
    }
    Ok(())
}

/// Columns of these quantifiers become columns of q, in these boxes.
pub fn rename_all(
    alloc: Global,
    graph: &mut Graph,
    nodes: &[Node],
    ids: &[BoxId],
    q: QuantId,
    list: &[OwnedQuant],
) -> Result<(), OutOfMemory>
    requires once { EachOnce (numbers nodes.now) }
    requires held { (b : ℕ) → In b ids.now → HasBox b graph.old }
    ensures ok { OnOk result (graph.new ≡ spec.renamed_all ids.now q 0 (spec.sizes_in nodes.now list.now) graph.old) }
    ensures kept { HasAll graph.old graph.new }
{
    let mut start: usize = 0;
    for r in list {
        let w = width_of(nodes, r.over);
        let Some(end) = start.checked_add(w) else {
            return Err(OutOfMemory);
        };
        let cells = columns(alloc, q, start, w)?;
        put_each(alloc, graph, ids, r.id, &cells)?;
        start = end;
    }
    Ok(())
}

/// All columns of these quantifiers.
pub fn all_columns(alloc: Global, nodes: &[Node], list: &[OwnedQuant]) -> Result<Head, OutOfMemory>
    requires once { EachOnce (numbers nodes.now) }
    ensures { IfOk result (λ h. h ≡ heads (spec.sizes_in nodes.now list.now)) }
{
    let mut head = Head::new(alloc);
    for r in list {
        let w = width_of(nodes, r.over);
        add_columns(&mut head, r.id, w)?;
    }
    Ok(head)
}
