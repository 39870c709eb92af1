// What boxes name that they don't own.
ghost use Rattle.std.specs.Prelude.{◌≡◌, ◌++◌, filter, not, IfOk, IfSome, OnOk};
ghost use Rattle.qgm_core.specs.Boxes.{owns};
ghost use Rattle.rule_merge.specs.MergeSelectLookups as spec;

use qgm_core::{Marks, Node, OwnedQuant, QuantId, add_names_of_node, has_range};
use shared_types::OutOfMemory;
use std::alloc::Global;

// Marks those of these names that a box doesn't own.
fn mark_foreign(node: &Node, names: &[QuantId], marks: &mut Marks) -> Result<(), OutOfMemory>
    ensures { OnOk result (marks.new ≡ marks.old ++ filter (λ q. not (owns q node.now)) names.now) }
{
    for q in names {
        if !has_range(node.quants.as_slice(), *q) {
            marks.push(*q)?;
        }
    }
    Ok(())
}

// Marks what a box names that it doesn't own.
fn mark_node(alloc: Global, node: &Node, marks: &mut Marks) -> Result<(), OutOfMemory>
    ensures { OnOk result (marks.new ≡ marks.old ++ spec.foreign node.now) }
{
    let mut names = Vec::new(alloc);
    add_names_of_node(node, &mut names)?;
    mark_foreign(node, &names, marks)
}

// What boxes name that they don't own.
fn foreign_names(alloc: Global, nodes: &[Node]) -> Result<Marks, OutOfMemory>
    ensures { IfOk result (λ m. m ≡ spec.foreigns nodes.now) }
{
    let mut marks = Marks::new(alloc);
    for node in nodes {
        mark_node(alloc, node, &mut marks)?;
    }
    Ok(marks)
}

// What boxes name that they don't own, if it is asked for.
pub fn foreign_if(
    alloc: Global,
    nodes: &[Node],
    is_asked: bool,
) -> Result<Option<Marks>, OutOfMemory>
    ensures { IfOk result (λ o. IfSome o (λ m. m ≡ spec.foreigns nodes.now)) }
{
    if !is_asked {
        return Ok(None);
    }
    let marks = foreign_names(alloc, nodes)?;
    Ok(Some(marks))
}

/// Whether one of these quantifiers is among names.
pub fn any_named(names: &Marks, ranges: &[OwnedQuant]) -> bool
    ensures { result ≡ spec.any_named names.now ranges.now }
{
    ranges.iter().any(|r| names.has(r.id))
}
