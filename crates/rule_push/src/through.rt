// A conjunct goes through one box into the next one below: P2 and P4.
ghost use Rattle.std.specs.Prelude.{IfOk};
ghost use Rattle.qgm_wellformed.specs.Sentences.{WellFormed};
ghost use Rattle.rule_push.specs.Leaving.{PlansThrough, Through};
ghost use Rattle.rule_push.specs.PushPlaces.{MayPush};

use crate::leaving::{first_range, leaving_at};
use crate::moves::{PushPlan, plan_push};
use qgm_core::Graph;
use qgm_terms::{ROOM, substitute_cond};
use rule_api::Place;
use rule_facts::box_at;
use shared_types::OutOfMemory;
use std::alloc::Global;

/// The conjunct of a place goes through the box under its quantifier into the box under that one's
/// first quantifier: its columns become that box's cells, and the columns of these those cells.
pub fn plan_through(alloc: Global, graph: &Graph, place: Place) -> Result<PushPlan, OutOfMemory>
    requires formed { WellFormed graph.now }
    requires leaves { MayPush (Through graph.now) place graph.now }
    ensures { IfOk result (λ x. PlansThrough place graph.now x) }
{
    graph.each_number_once();
    let x = leaving_at(graph, place);
    let Some(s) = first_range(x.c.quants.as_slice()) else {
        unreachable!()
    };
    let Some(n) = box_at(graph.nodes(), s.over) else {
        unreachable!()
    };
    let above = substitute_cond(alloc, x.p, x.r.id, &x.c.parts.head, ROOM)?;
    let below = substitute_cond(alloc, &above, s.id, &n.parts.head, ROOM)?;
    let m = plan_push(alloc, x.b, place.i, n, below)?;
    Ok(m)
}
