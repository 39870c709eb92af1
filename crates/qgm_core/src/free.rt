// The quantifiers that a box names, itself or below it, and that are owned neither there nor below.
ghost use Rattle.std.specs.Prelude.{◌≡◌, ◌++◌, ◌∷◌, [], ◌<◌, ◌≤◌, ℕ, length, slice_index_or, filter, map, not, OnOk, IfOk};
ghost use Rattle.std.specs.List.{flat_map};
ghost use Rattle.qgm_core.specs.Free as spec;
ghost use Rattle.list_laws.specs.Lists.{holds};

use crate::kinds::BoxId;
use crate::marks::{Marks, mark_ids, mark_overs};
use crate::node::Node;
use crate::owned::OwnedQuant;
use qgm_terms::{QuantId, add_names_of_cells, add_names_of_conds};
use shared_types::OutOfMemory;
use std::alloc::Global;

/// Whether a box is among those marked.
pub fn is_marked(marks: &[BoxId], b: BoxId) -> bool
    ensures { result ≡ holds b marks.now }
{
    marks.contains(&b)
}

/// Marks the boxes that these quantifiers range over.
pub fn mark_each(ranges: &[OwnedQuant], marks: &mut Vec<BoxId>) -> Result<(), OutOfMemory>
    ensures { OnOk result (marks.new.items ≡ marks.old.items ++ map (λ r. r.over) ranges.now) }
{
    for range in ranges {
        marks.push(range.over)?;
    }
    Ok(())
}

/// The boxes that are reached from one.
pub fn reached(alloc: Global, nodes: &[Node], b: BoxId) -> Result<Marks, OutOfMemory>
    ensures { IfOk result (λ marks. marks ≡ spec.reached (b ∷ []) nodes.now) }
{
    let mut marks = Marks::new(alloc);
    marks.push(b)?;
    for node in nodes {
        if marks.has(node.id) {
            mark_overs(node.quants.as_slice(), &mut marks)?;
        }
    }
    Ok(marks)
}

/// Appends what a box names.
pub fn add_names_of_node(node: &Node, out: &mut Vec<QuantId>) -> Result<(), OutOfMemory>
    ensures { OnOk result (out.new.items ≡ out.old.items ++ spec.named_by node.now) }
{
    add_names_of_cells(node.parts.head.as_slice(), out)?;
    add_names_of_conds(node.parts.conds.as_slice(), out)
}

// What the marked boxes name.
fn named(alloc: Global, nodes: &[Node], marks: &Marks) -> Result<Vec<QuantId>, OutOfMemory>
    ensures { IfOk result (λ names. names.items ≡ flat_map (spec.named_where marks.now) nodes.now) }
{
    let mut names = Vec::new(alloc);
    for node in nodes {
        if marks.has(node.id) {
            add_names_of_node(node, &mut names)?;
        }
    }
    Ok(names)
}

/// The quantifiers of marked boxes.
pub fn owned_by(alloc: Global, marks: &Marks, nodes: &[Node]) -> Result<Marks, OutOfMemory>
    ensures { IfOk result (λ owned. owned ≡ flat_map (spec.owned_where marks.now) nodes.now) }
{
    let mut owned = Marks::new(alloc);
    for node in nodes {
        if marks.has(node.id) {
            mark_ids(node.quants.as_slice(), &mut owned)?;
        }
    }
    Ok(owned)
}

// Where a quantifier goes among ascending ones: those before are less, and the one there isn't.
fn place_for(out: &[QuantId], q: QuantId) -> usize
    ensures within { result ≤ length out.now }
    ensures less { (k : ℕ) → k < result → slice_index_or out.now k 0 < q }
    ensures not_less { (d : ℕ) → result < length out.now → q ≤ slice_index_or out.now result d }
{
    for i in 0..out.len() {
        if q <= out[i] {
            return i;
        }
    }
    out.len()
}

// Puts a quantifier among ascending ones, if it isn't there.
fn put_once(out: &mut Vec<QuantId>, q: QuantId) -> Result<(), OutOfMemory>
    ensures { OnOk result (out.new.items ≡ spec.put_once q out.old.items) }
{
    let i = place_for(out, q);
    if i < out.len() && out[i] == q {
        return Ok(());
    }
    out.insert(i, q).or(Err(OutOfMemory))
}

// Those that aren't owned, ascending, each once.
pub fn not_owned(
    alloc: Global,
    names: &[QuantId],
    owned: &Marks,
) -> Result<Vec<QuantId>, OutOfMemory>
    ensures { IfOk result (λ free. free.items ≡ spec.put_each [] (filter (λ q. not (holds q owned.now)) names.now)) }
{
    let mut free = Vec::new(alloc);
    for q in names {
        if !owned.has(*q) {
            put_once(&mut free, *q)?;
        }
    }
    Ok(free)
}

/// The free quantifiers of a box, ascending.
pub fn free_in(alloc: Global, nodes: &[Node], b: BoxId) -> Result<Vec<QuantId>, OutOfMemory>
    ensures { IfOk result (λ free. free.items ≡ spec.free_in nodes.now b) }
{
    let marks = reached(alloc, nodes, b)?;
    let owned = owned_by(alloc, &marks, nodes)?;
    let names = named(alloc, nodes, &marks)?;
    not_owned(alloc, &names, &owned)
}
