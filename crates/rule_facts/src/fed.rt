// Fed boxes over closed ones.
ghost use Rattle.std.specs.Prelude.{◌≡◌, IfOk};
ghost use Rattle.rule_facts.specs.FedClosed as spec;

use crate::closed::is_closed;
use qgm_core::{Graph, Node, OwnedQuant};
use shared_types::OutOfMemory;
use std::alloc::Global;

/// Whether a box of these is fed.
pub fn any_fed(nodes: &[Node]) -> bool
    ensures { result ≡ spec.any_fed nodes.now }
{
    nodes.iter().any(|n| n.parts.role.is_fed())
}

// Whether the second of two quantifiers ranges over a closed box.
fn second_closed(alloc: Global, graph: &Graph, ranges: &[OwnedQuant]) -> Result<bool, OutOfMemory>
    ensures { IfOk result (λ closed. closed ≡ spec.second_closed graph.now.boxes ranges.now) }
{
    match ranges {
        [] | [_] | [_, _, _, ..] => Ok(false),
        [_, d] => is_closed(alloc, graph, d.over),
    }
}

// Whether a box is fed, and that over a closed box.
fn fed_closed(alloc: Global, graph: &Graph, node: &Node) -> Result<bool, OutOfMemory>
    ensures { IfOk result (λ closed. closed ≡ spec.fed_closed graph.now.boxes node.now) }
{
    if !node.parts.role.is_fed() {
        return Ok(false);
    }
    second_closed(alloc, graph, node.quants.as_slice())
}

/// Whether a fed box ranges over a closed box. It fails only for want of memory.
pub fn any_fed_closed(alloc: Global, graph: &Graph) -> Result<bool, OutOfMemory>
    ensures { IfOk result (λ closed. closed ≡ spec.any_fed_closed graph.now) }
{
    for node in graph.nodes() {
        if fed_closed(alloc, graph, node)? {
            return Ok(true);
        }
    }
    Ok(false)
}
