// A group in the place of the fed box above it, and the fed box below it.
ghost use Rattle.std.specs.Prelude.{◌≡◌, IfOk};
ghost use Rattle.qgm_core.specs.Held.{HasAll};
ghost use Rattle.rule_magic.specs.AbsorbGroupSteps as spec;
ghost use Rattle.rule_magic.specs.Feeding.{as_feeding};

use crate::absorb_group::grouped::Grouped;
use crate::fed::{Fed, width};
use crate::heads::{keyed, of_both};
use crate::parts::no_conds;
use qgm_core::{BoxKind, Distinct, Graph, Node, OwnedQuant, Role};
use shared_types::OutOfMemory;
use std::alloc::Global;

/// The graph where c is the fed box, over the magic box, and over x by q.
pub fn fed_below(
    alloc: Global,
    graph: &Graph,
    fed: &Fed<'_>,
    q: OwnedQuant,
    x: &Node,
) -> Result<Graph, OutOfMemory>
    requires { spec.CanAbsorbGroup graph.now (as_feeding fed.now) }
    ensures graph { IfOk result (λ h. h ≡ spec.fed_below (as_feeding fed.now) q x.now graph.now) }
    ensures kept { IfOk result (λ h. HasAll graph.now h) }
{
    let head = of_both(alloc, fed.a.id, width(fed.m), q.id, width(x))?;
    let mut after = graph.copy(alloc)?;
    after.move_quant(fed.a.id, fed.c.id, 1)?;
    after.put_box(fed.c.id, BoxKind::Select, Role::Fed, no_conds(alloc), head);
    after.set_distinct(fed.c.id, Distinct::Preserve);
    Ok(after)
}

/// The graph after G3 at a fed box over a group with keys. It fails, too, where there are too many keys
/// to count.
pub fn keyed_group(
    alloc: Global,
    graph: &Graph,
    fed: &Fed<'_>,
    group: &Grouped<'_>,
) -> Result<Graph, OutOfMemory>
    requires { spec.CanAbsorbGroup graph.now (as_feeding fed.now) }
    ensures { IfOk result (λ h. h ≡ spec.keyed_steps (as_feeding fed.now) (spec.as_grouping group.now) graph.now) }
{
    let w = width(fed.m);
    let Some(keys) = w.checked_add(group.keys) else {
        return Err(OutOfMemory);
    };
    let v = width(group.x);
    let head = keyed(alloc, group.q.id, fed.r.id, w, v, &fed.c.parts.head)?;
    let mut after = fed_below(alloc, graph, fed, group.q, group.x)?;
    after.put_box(
        fed.d.id,
        BoxKind::Group(keys),
        Role::Plain,
        no_conds(alloc),
        head,
    );
    after.move_below(fed.c.id, fed.d.id);
    after.compact(alloc)?;
    Ok(after)
}
