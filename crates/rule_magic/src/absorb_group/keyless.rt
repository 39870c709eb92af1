// A group without keys by the tags, and an outer join that gives back the tags without rows.
ghost use Rattle.std.specs.Prelude.{◌≡◌, IfOk, OnOk};
ghost use Rattle.qgm_core.specs.Boxes.{HasBox, HasQuant};
ghost use Rattle.qgm_core.specs.Held.{HasAll};
ghost use Rattle.rule_magic.specs.AbsorbGroupSteps as spec;
ghost use Rattle.rule_magic.specs.Feeding.{as_feeding};

use crate::absorb_group::counts::counted;
use crate::absorb_group::grouped::Grouped;
use crate::absorb_group::joined::joined_head;
use crate::absorb_group::keyed::fed_below;
use crate::fed::{Fed, width};
use crate::heads::keyed;
use crate::parts::{new_parts, no_conds};
use crate::tags::same_each;
use qgm_core::{BoxId, BoxKind, Graph, QuantId, QuantKind, Role};
use shared_types::OutOfMemory;
use std::alloc::Global;

/// The numbers of what is new: the outer join o with its quantifiers om and oc, and under oc the group n
/// with its quantifier p.
#[derive(Clone, Copy)]
pub struct NewNumbers {
    pub o: BoxId,
    pub n: BoxId,
    pub om: QuantId,
    pub oc: QuantId,
    pub p: QuantId,
}

// Below d come an outer join and a group, with their quantifiers.
fn add_join(alloc: Global, graph: &mut Graph, fed: &Fed<'_>) -> Result<NewNumbers, OutOfMemory>
    requires { spec.CanAbsorbGroup graph.old (as_feeding fed.now) }
    ensures ok { IfOk result (λ z. graph.new ≡ spec.with_join (as_feeding fed.now) z graph.old) }
    ensures fresh { IfOk result (λ z. spec.AreNumbersNew graph.old z) }
    ensures kept { HasAll graph.old graph.new }
    ensures held_o { IfOk result (λ z. HasBox z.o graph.new) }
    ensures held_n { IfOk result (λ z. HasBox z.n graph.new) }
{
    let w = width(fed.m);
    let o = graph.add_box(alloc, new_parts(alloc, BoxKind::OuterJoin), Some(fed.d.id))?;
    let n = graph.add_box(alloc, new_parts(alloc, BoxKind::Group(w)), Some(o))?;
    let oc = graph.add_quant(o, 1, QuantKind::F, n)?;
    let om = graph.add_quant(o, 1, QuantKind::F, fed.m.id)?;
    let p = graph.add_quant(n, 1, QuantKind::F, fed.c.id)?;
    Ok(NewNumbers { o, n, om, oc, p })
}

// Both get their cells, and d, now over the outer join, its own.
fn put_cells(
    alloc: Global,
    graph: &mut Graph,
    fed: &Fed<'_>,
    group: &Grouped<'_>,
    z: NewNumbers,
) -> Result<(), OutOfMemory>
    requires held_d { HasBox fed.now.d.now.id graph.old }
    requires held_o { HasBox z.o graph.old }
    requires held_n { HasBox z.n graph.old }
    requires owned_r { HasQuant fed.now.r.id graph.old }
    ensures ok { OnOk result (graph.new ≡ spec.with_cells (as_feeding fed.now) (spec.as_grouping group.now) z graph.old) }
    ensures kept { HasAll graph.old graph.new }
{
    let w = width(fed.m);
    let cells = &fed.c.parts.head;
    let on = same_each(alloc, z.om, z.oc, w)?;
    let head = joined_head(alloc, z.om, z.oc, w, cells.len())?;
    graph.put_terms(z.o, on, head);
    let head = keyed(alloc, group.q.id, z.p, w, width(group.x), cells)?;
    graph.put_terms(z.n, no_conds(alloc), head);
    let head = counted(alloc, fed.r.id, w, cells)?;
    graph.redirect(fed.r.id, z.o);
    graph.put_box(
        fed.d.id,
        BoxKind::Select,
        Role::Plain,
        no_conds(alloc),
        head,
    );
    Ok(())
}

/// The graph after G3 at a fed box over a group without keys. It fails, too, where there are too many
/// columns to count.
pub fn keyless_group(
    alloc: Global,
    graph: &Graph,
    fed: &Fed<'_>,
    group: &Grouped<'_>,
) -> Result<Graph, OutOfMemory>
    requires { spec.CanAbsorbGroup graph.now (as_feeding fed.now) }
    ensures { IfOk result (λ h. spec.StepsKeyless graph.now h (as_feeding fed.now) (spec.as_grouping group.now)) }
{
    let mut after = fed_below(alloc, graph, fed, group.q, group.x)?;
    let z = add_join(alloc, &mut after, fed)?;
    put_cells(alloc, &mut after, fed, group, z)?;
    after.move_below(fed.c.id, z.n);
    after.compact(alloc)?;
    Ok(after)
}
