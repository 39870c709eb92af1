// Whether nothing is free in a box.
ghost use Rattle.std.specs.Prelude.{◌≡◌, IfOk};
ghost use Rattle.std.specs.List.{list_all};
ghost use Rattle.qgm_core.specs.Free.{free_in, named_by};
ghost use Rattle.list_laws.specs.Lists.{holds};
ghost use Rattle.qgm_wellformed.specs.Closed as spec;
ghost use Rattle.qgm_wellformed.specs.Shapes.{only};
ghost use Rattle.qgm_wellformed.specs.WellFormed.{is_empty};

use qgm_core::{BoxId, Marks, Node, QuantId, add_names_of_node, owned_by, reached};
use shared_types::OutOfMemory;
use std::alloc::Global;

/// What a box names.
pub fn names_of(alloc: Global, node: &Node) -> Result<Vec<QuantId>, OutOfMemory>
    ensures { IfOk result (λ names. names.items ≡ named_by node.now) }
{
    let mut names = Vec::new(alloc);
    add_names_of_node(node, &mut names)?;
    Ok(names)
}

// Whether each is among those that are owned.
fn all_owned(names: &[QuantId], owned: &Marks) -> bool
    ensures { result ≡ list_all (λ q. holds q owned.now) names.now }
{
    for q in names {
        if !owned.has(*q) {
            return false;
        }
    }
    true
}

// Whether a box isn't marked, or names only what is owned.
fn names_owned(
    alloc: Global,
    marks: &Marks,
    owned: &Marks,
    node: &Node,
) -> Result<bool, OutOfMemory>
    ensures { IfOk result (λ o. o ≡ spec.names_owned marks.now owned.now node.now) }
{
    if !marks.has(node.id) {
        return Ok(true);
    }
    let names = names_of(alloc, node)?;
    Ok(all_owned(&names, owned))
}

// Whether marked boxes name only what is owned.
fn all_names_owned(
    alloc: Global,
    marks: &Marks,
    owned: &Marks,
    nodes: &[Node],
) -> Result<bool, OutOfMemory>
    ensures { IfOk result (λ o. o ≡ list_all (spec.names_owned marks.now owned.now) nodes.now) }
{
    for node in nodes {
        if !names_owned(alloc, marks, owned, node)? {
            return Ok(false);
        }
    }
    Ok(true)
}

/// Whether nothing is free in the box.
#[tactic(auto, using(crate::proofs::ClosedLaws::closed_owned))]
pub fn is_closed(alloc: Global, nodes: &[Node], b: BoxId) -> Result<bool, OutOfMemory>
    ensures { IfOk result (λ c. c ≡ is_empty (free_in nodes.now b)) }
{
    let marks = reached(alloc, nodes, b)?;
    let owned = owned_by(alloc, &marks, nodes)?;
    all_names_owned(alloc, &marks, &owned, nodes)
}

/// Whether a quantifier is free in the box, and no other is.
pub fn is_free_alone(
    alloc: Global,
    nodes: &[Node],
    b: BoxId,
    q: QuantId,
) -> Result<bool, OutOfMemory>
    ensures { IfOk result (λ a. a ≡ only q (free_in nodes.now b)) }
{
    let marks = reached(alloc, nodes, b)?;
    let mut owned = owned_by(alloc, &marks, nodes)?;
    if all_names_owned(alloc, &marks, &owned, nodes)? {
        return Ok(false);
    }
    owned.push(q)?;
    all_names_owned(alloc, &marks, &owned, nodes)
}
