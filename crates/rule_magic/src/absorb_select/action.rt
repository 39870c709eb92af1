// A select in the place of the fed box above it.
ghost use Rattle.std.specs.Prelude.{◌≡◌, IfOk};
ghost use Rattle.rule_magic.specs.AbsorbSelectSteps as spec;
ghost use Rattle.rule_magic.specs.Feeding.{as_feeding};

use crate::fed::{Fed, width};
use crate::heads::led;
use qgm_core::{BoxKind, Graph, Role};
use qgm_terms::{ROOM, copy_conds};
use shared_types::OutOfMemory;
use std::alloc::Global;

/// The graph after G2 at a fed box.
pub fn absorbed(alloc: Global, graph: &Graph, fed: &Fed<'_>) -> Result<Graph, OutOfMemory>
    requires { spec.CanAbsorbSelect graph.now (as_feeding fed.now) }
    ensures { IfOk result (λ h. h ≡ spec.select_steps (as_feeding fed.now) graph.now) }
{
    let conds = copy_conds(alloc, &fed.c.parts.conds, ROOM)?;
    let head = led(alloc, fed.a.id, width(fed.m), &fed.c.parts.head)?;
    let mut after = graph.copy(alloc)?;
    after.absorb(fed.d.id, 2, fed.c.id)?;
    after.put_box(fed.d.id, BoxKind::Select, Role::Plain, conds, head);
    after.set_distinct(fed.d.id, fed.c.parts.distinct);
    after.compact(alloc)?;
    Ok(after)
}
