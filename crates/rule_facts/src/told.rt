// What is inferred of a graph, as it is asked in the condition of a rule.
ghost use Rattle.std.specs.Prelude.{◌≡◌, IfOk};
ghost use Rattle.qgm_props.specs.Inferred.{clean};
ghost use Rattle.qgm_props.specs.Laws.{KeptOf};
ghost use Rattle.rule_facts.specs.Told.{infers};

use qgm_core::{BoxId, Graph};
use qgm_props::Inference;
use shared_types::OutOfMemory;
use std::alloc::Global;

/// Whether it is inferred that no row of a box is at an error level. It fails only for want of memory.
pub fn infers_clean(
    alloc: Global,
    graph: &Graph,
    known: &mut Inference,
    b: BoxId,
) -> Result<bool, OutOfMemory>
    requires { KeptOf known.old graph.now.boxes }
    ensures told { IfOk result (λ told. told ≡ infers graph.now.boxes (clean b)) }
    ensures known { KeptOf known.new graph.now.boxes }
{
    let facts = known.take(alloc, graph)?;
    let told = facts.clean(b);
    known.put(facts);
    Ok(told)
}
