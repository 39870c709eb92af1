// Closed boxes.
ghost use Rattle.std.specs.Prelude.{◌≡◌, IfOk};
ghost use Rattle.qgm_core.specs.Free.{free};
ghost use Rattle.qgm_wellformed.specs.WellFormed.{is_empty};

use qgm_core::{BoxId, Graph};
use shared_types::OutOfMemory;
use std::alloc::Global;

/// Whether nothing is free in the box of a number. It fails only for want of memory.
pub fn is_closed(alloc: Global, graph: &Graph, b: BoxId) -> Result<bool, OutOfMemory>
    ensures { IfOk result (λ closed. closed ≡ is_empty (free b graph.now)) }
{
    graph.is_closed(alloc, b)
}
