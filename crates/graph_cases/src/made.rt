// The graph of what a script writes.
ghost use Rattle.std.specs.Prelude.{◌≡◌, ◌++◌, [], true, IfOk, OnOk, IsTrue, map};
ghost use Rattle.qgm_core.specs.Boxes.{ids_in};
ghost use Rattle.list_laws.specs.Lists.{EachOnce};
ghost use Rattle.qgm_core.specs.Made.{boxes_of};
ghost use Rattle.qgm_core.specs.Numbered.{Under};

use crate::drawing::Drawing;
use crate::faults::LineError;
use crate::known::need;
use crate::sketch::Sketch;
use qgm_core::{Graph, NewBox, OwnedQuant, QuantId, is_marked};
use sqlite_items::Items;
use std::alloc::Global;

// Boxes in the order in which they are made: the last one first.
fn new_boxes(alloc: Global, boxes: Vec<Sketch>) -> Result<Vec<NewBox>, LineError> {
    let mut made = Vec::new(alloc);
    for sketch in boxes.into_iter().rev() {
        need(
            sketch.id == made.len(),
            "boxes are numbered from the first down to 0",
        )?;
        made.push(NewBox {
            parts: sketch.parts,
            quants: sketch.quants,
        })?;
    }
    Ok(made)
}

// Appends the numbers of quantifiers.
fn add_ids(ranges: &[OwnedQuant], out: &mut Vec<QuantId>) -> Result<(), LineError>
    ensures { OnOk result (out.new.items ≡ out.old.items ++ map (λ r. r.id) ranges.now) }
{
    for range in ranges {
        out.push(range.id)?;
    }
    Ok(())
}

// The numbers of all quantifiers.
fn ids_of(alloc: Global, made: &[NewBox]) -> Result<Vec<QuantId>, LineError>
    ensures { IfOk result (λ ids. ids.items ≡ ids_in (boxes_of made.now)) }
{
    let mut ids = Vec::new(alloc);
    let mut i = made.len();
    while i > 0 {
        i -= 1;
        add_ids(made[i].quants.as_slice(), &mut ids)?;
    }
    Ok(ids)
}

// Whether no number stands here twice.
fn each_once(ids: &[QuantId]) -> bool
    ensures { IsTrue result → EachOnce ids.now }
{
    for i in 0..ids.len() {
        if is_marked(&ids[i + 1..], ids[i]) {
            return false;
        }
    }
    true
}

// Whether all numbers are below one.
fn all_under(next: QuantId, ids: &[QuantId]) -> bool
    ensures { IsTrue result → Under next ids.now }
{
    for id in ids {
        if *id >= next {
            return false;
        }
    }
    true
}

// A number above all these, if there is one.
fn next_after(ids: &[QuantId]) -> QuantId {
    let mut next: QuantId = 0;
    for id in ids {
        next = next.max((*id).saturating_add(1));
    }
    next
}

/// The graph that is written.
pub fn graph_of(alloc: Global, drawing: Drawing) -> Result<Graph, LineError> {
    let Drawing {
        root,
        names,
        order,
        boxes,
    } = drawing;
    let first = boxes.len().saturating_sub(1);
    let made = new_boxes(alloc, boxes)?;
    let ids = ids_of(alloc, &made)?;
    let next = next_after(&ids);
    need(each_once(&ids), "two quantifiers have one number")?;
    need(
        all_under(next, &ids),
        "the number of a quantifier is too great",
    )?;
    Ok(Graph::of_boxes(alloc, made, root.unwrap_or(first), names, order, next)?)
}

/// The graph of one box that is written.
pub fn graph_of_one(alloc: Global, sketch: Sketch) -> Result<Graph, LineError> {
    let Sketch {
        id,
        parts,
        quants,
        ..
    } = sketch;
    need(
        quants.as_slice().is_empty(),
        "a box alone has no quantifier",
    )?;
    let graph = Graph::new(alloc, parts, Items::new(alloc), Items::new(alloc))?;
    need(graph.root() == id, "the box has another number")?;
    Ok(graph)
}
