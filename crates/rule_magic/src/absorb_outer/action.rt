// An outer join in the place of the fed box above it, over selects of the magic box and its operands.
ghost use Rattle.std.specs.Prelude.{◌≡◌, IfOk, OnOk};
ghost use Rattle.qgm_core.specs.Boxes.{HasBox, HasQuant};
ghost use Rattle.qgm_core.specs.Held.{HasAll};
ghost use Rattle.rule_magic.specs.AbsorbOuterSteps as spec;
ghost use Rattle.rule_magic.specs.AbsorbSetSteps.{IsSelectNew};
ghost use Rattle.rule_magic.specs.Feeding.{as_feeding};
ghost use Rattle.rule_magic.specs.Operands.{as_pair};

use crate::absorb_outer::cells::{both_head, both_on, left_head, left_on};
use crate::absorb_set::action::NewSelect;
use crate::fed::{Fed, width};
use crate::heads::{columns, of_both};
use crate::operands::{Operands, role_over};
use crate::parts::{new_parts, no_conds};
use crate::renamed::rename_below;
use qgm_core::{BoxKind, Conds, Distinct, Graph, Head, QuantKind, Role};
use shared_types::OutOfMemory;
use std::alloc::Global;

// d and c change their quantifiers; d's first one now ranges over c, and c's last one over x.
fn swapped(
    alloc: Global,
    graph: &Graph,
    fed: &Fed<'_>,
    operands: &Operands<'_>,
) -> Result<Graph, OutOfMemory>
    requires { spec.CanAbsorbOuter graph.now (as_feeding fed.now) (as_pair operands.now) }
    ensures graph { IfOk result (λ h. h ≡ spec.swapped (as_feeding fed.now) (as_pair operands.now) graph.now) }
    ensures kept { IfOk result (λ h. HasAll graph.now h) }
{
    let mut after = graph.copy(alloc)?;
    after.move_below(fed.c.id, fed.d.id);
    after.move_quant(operands.r.id, fed.d.id, 1)?;
    after.move_quant(operands.l.id, fed.d.id, 1)?;
    after.move_quant(fed.r.id, fed.c.id, 1)?;
    after.move_quant(fed.a.id, fed.c.id, 1)?;
    after.redirect(operands.l.id, fed.c.id);
    after.redirect(fed.r.id, operands.x.id);
    Ok(after)
}

// d is the outer join.
fn put_outer(graph: &mut Graph, fed: &Fed<'_>, on: Conds, head: Head)
    requires { HasBox fed.now.d.now.id graph.old }
    ensures graph { graph.new ≡ spec.with_outer (as_feeding fed.now) on head graph.old }
    ensures kept { HasAll graph.old graph.new }
{
    graph.put_box(fed.d.id, BoxKind::OuterJoin, Role::Plain, on, head);
    graph.set_distinct(fed.d.id, fed.c.parts.distinct);
}

// c is the select over the magic box and x.
fn put_select(
    alloc: Global,
    graph: &mut Graph,
    fed: &Fed<'_>,
    operands: &Operands<'_>,
    left: Role,
) -> Result<(), OutOfMemory>
    requires { HasBox fed.now.c.now.id graph.old }
    ensures ok { OnOk result (graph.new ≡ spec.with_left (as_feeding fed.now) (as_pair operands.now) left graph.old) }
    ensures kept { HasAll graph.old graph.new }
{
    let head = of_both(alloc, fed.a.id, width(fed.m), fed.r.id, width(operands.x))?;
    graph.put_box(fed.c.id, BoxKind::Select, left, no_conds(alloc), head);
    graph.set_distinct(fed.c.id, Distinct::Preserve);
    Ok(())
}

// Below d comes a select over the magic box and y.
fn add_arm(
    alloc: Global,
    graph: &mut Graph,
    fed: &Fed<'_>,
    operands: &Operands<'_>,
    right: Role,
) -> Result<NewSelect, OutOfMemory>
    requires held_d { HasBox fed.now.d.now.id graph.old }
    requires held_m { HasBox fed.now.m.now.id graph.old }
    requires held_y { HasBox operands.now.y.now.id graph.old }
    requires owned_r { HasQuant operands.now.r.id graph.old }
    ensures ok { IfOk result (λ z. graph.new ≡ spec.with_arm (as_feeding fed.now) (as_pair operands.now) z right graph.old) }
    ensures fresh { IfOk result (λ z. IsSelectNew graph.old z) }
    ensures kept { HasAll graph.old graph.new }
{
    let s = graph.add_box(alloc, new_parts(alloc, BoxKind::Select), Some(fed.d.id))?;
    let u = graph.add_quant(s, 1, QuantKind::F, operands.y.id)?;
    let p = graph.add_quant(s, 1, QuantKind::F, fed.m.id)?;
    let head = of_both(alloc, p, width(fed.m), u, width(operands.y))?;
    graph.put_box(s, BoxKind::Select, right, no_conds(alloc), head);
    graph.redirect(operands.r.id, s);
    Ok(NewSelect { s, u, p })
}

/// The graph after G5 at a fed box over an outer join with a closed right operand. It fails, too, where
/// there are too many columns to count.
pub fn left_outer(
    alloc: Global,
    graph: &Graph,
    fed: &Fed<'_>,
    operands: &Operands<'_>,
) -> Result<Graph, OutOfMemory>
    requires { spec.CanAbsorbOuter graph.now (as_feeding fed.now) (as_pair operands.now) }
    ensures { IfOk result (λ h. h ≡ spec.left_steps (as_feeding fed.now) (as_pair operands.now) graph.now) }
{
    let left = role_over(alloc, graph, operands.x.id)?;
    let on = left_on(alloc, fed, operands)?;
    let head = left_head(alloc, fed, operands)?;
    let mut after = swapped(alloc, graph, fed, operands)?;
    put_outer(&mut after, fed, on, head);
    put_select(alloc, &mut after, fed, operands, left)?;
    after.compact(alloc)?;
    Ok(after)
}

/// The graph after G5 at a fed box over an outer join with an open right operand. It fails, too, where
/// there are too many columns to count.
pub fn arms_outer(
    alloc: Global,
    graph: &Graph,
    fed: &Fed<'_>,
    operands: &Operands<'_>,
) -> Result<Graph, OutOfMemory>
    requires { spec.CanAbsorbOuter graph.now (as_feeding fed.now) (as_pair operands.now) }
    ensures { IfOk result (λ h. spec.StepsArms graph.now h (as_feeding fed.now) (as_pair operands.now)) }
{
    let left = role_over(alloc, graph, operands.x.id)?;
    let right = role_over(alloc, graph, operands.y.id)?;
    let on = both_on(alloc, fed, operands)?;
    let head = both_head(alloc, fed, operands)?;
    let mut after = swapped(alloc, graph, fed, operands)?;
    let z = add_arm(alloc, &mut after, fed, operands, right)?;
    put_outer(&mut after, fed, on, head);
    put_select(alloc, &mut after, fed, operands, left)?;
    let cells = columns(alloc, z.p, width(fed.m))?;
    rename_below(alloc, graph, &mut after, operands.r.over, fed.a.id, &cells)?;
    after.compact(alloc)?;
    Ok(after)
}
