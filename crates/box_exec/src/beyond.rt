// The quantifiers that boxes name, themselves or below them, and that no box on the way owns.
ghost use Rattle.std.specs.Prelude.{◌≡◌, ◌++◌, map, IfOk, OnOk};
ghost use Rattle.box_exec.specs.Beyond as spec;

use crate::under::place_of;
use qgm_core::{BoxId, Node, OwnedQuant, QuantId, add_names_of_node, has_range};
use shared_types::OutOfMemory;
use std::alloc::Global;

// Appends quantifiers.
fn append(names: &[QuantId], out: &mut Vec<QuantId>) -> Result<(), OutOfMemory>
    ensures { OnOk result (out.new.items ≡ out.old.items ++ names.now) }
{
    Ok(out.extend_from_slice(names)?)
}

// Appends what box b names so, if it is among these; the lists are those of these boxes, from the last.
fn add_beyond(
    below: &[Node],
    b: BoxId,
    named: &[Vec<QuantId>],
    out: &mut Vec<QuantId>,
) -> Result<(), OutOfMemory>
    requires { map (λ v. v.items) named.now ≡ spec.beyonds below.now }
    ensures { OnOk result (out.new.items ≡ out.old.items ++ spec.beyond below.now b) }
{
    let Some(i) = place_of(below, b) else {
        return Ok(());
    };
    append(&named[below.len() - 1 - i], out)
}

// Those of the quantifiers that none of these is.
fn not_owned(ranges: &[OwnedQuant], names: Vec<QuantId>) -> Vec<QuantId>
    ensures { result.items ≡ spec.without_own ranges.now names.items }
{
    let mut names = names;
    names.retain(|q| !has_range(ranges, *q));
    names
}

/// What a box names so, over the boxes behind it. It fails only for want of memory.
pub(crate) fn beyond(
    alloc: Global,
    node: &Node,
    below: &[Node],
    named: &[Vec<QuantId>],
) -> Result<Vec<QuantId>, OutOfMemory>
    requires { map (λ v. v.items) named.now ≡ spec.beyonds below.now }
    ensures { IfOk result (λ names. names.items ≡ spec.beyond_of node.now (spec.beyond below.now)) }
{
    let mut names = Vec::new(alloc);
    add_names_of_node(node, &mut names)?;
    for range in node.quants.as_slice() {
        add_beyond(below, range.over, named, &mut names)?;
    }
    Ok(not_owned(node.quants.as_slice(), names))
}
