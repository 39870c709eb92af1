// What P2 and P3 ask of inference.
ghost use Rattle.std.specs.Prelude.{◌≡◌, ◌&&◌, false, IfOk};
ghost use Rattle.qgm_props.specs.Inferred.{cond_free};
ghost use Rattle.qgm_props.specs.Laws.{KeptOf};
ghost use Rattle.qgm_props.specs.Table.{facts_of};
ghost use Rattle.qgm_terms.specs.Shown.{cond};
ghost use Rattle.rule_push.specs.Decided.{decided};

use qgm_core::{Gc, Graph, Node};
use qgm_props::{Inference, Props};
use shared_types::OutOfMemory;
use std::alloc::Global;

// Whether c is known to be clean and p to be without errors.
fn is_told(
    alloc: Global,
    graph: &Graph,
    facts: &Props,
    p: &Gc,
    c: &Node,
) -> Result<bool, OutOfMemory>
    ensures { IfOk result (λ v. v ≡ ((facts_of facts.now).clean c.now.id && cond_free graph.now.boxes (facts_of facts.now) false (cond p.now))) }
{
    if !facts.clean(c.id) {
        return Ok(false);
    }
    facts.cond_error_free(alloc, graph, p)
}

/// Whether it is inferred that no row of c is at an error level, and that p is without errors.
pub fn is_decided(
    alloc: Global,
    graph: &Graph,
    known: &mut Inference,
    p: &Gc,
    c: &Node,
) -> Result<bool, OutOfMemory>
    requires { KeptOf known.old graph.now.boxes }
    ensures known { KeptOf known.new graph.now.boxes }
    ensures test { IfOk result (λ v. v ≡ decided graph.now (cond p.now) c.now) }
{
    let facts = known.take(alloc, graph)?;
    let told = is_told(alloc, graph, &facts, p, c)?;
    known.put(facts);
    Ok(told)
}
