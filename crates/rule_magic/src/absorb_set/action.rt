// A set operation in the place of the fed box above it, over selects of the magic box and its operands.
ghost use Rattle.std.specs.Prelude.{◌≡◌, IfOk, OnOk};
ghost use Rattle.qgm_core.specs.Boxes.{HasBox, HasQuant};
ghost use Rattle.qgm_core.specs.Held.{HasAll};
ghost use Rattle.rule_magic.specs.AbsorbSetSteps as spec;
ghost use Rattle.rule_magic.specs.Feeding.{as_feeding};
ghost use Rattle.rule_magic.specs.Operands.{as_pair};

use crate::absorb_set::types::known_types;
use crate::fed::{Fed, width};
use crate::heads::{columns, of_both};
use crate::operands::{Operands, role_over};
use crate::parts::{new_parts, no_conds};
use crate::renamed::rename_below;
use qgm_core::{BoxId, BoxKind, Distinct, Graph, Head, QuantId, QuantKind, Role, SetOperator};
use rule_facts::is_closed;
use shared_types::OutOfMemory;
use std::alloc::Global;

/// The numbers of what is new: the select s, with its quantifier p over the magic box, and the fed box's
/// quantifier u over it.
#[derive(Clone, Copy)]
pub struct NewSelect {
    pub s: BoxId,
    pub u: QuantId,
    pub p: QuantId,
}

// Below d comes a select over the magic box and y.
fn add_select(
    alloc: Global,
    graph: &mut Graph,
    fed: &Fed<'_>,
    operands: &Operands<'_>,
) -> Result<NewSelect, OutOfMemory>
    requires { spec.CanAbsorbSet graph.old (as_feeding fed.now) (as_pair operands.now) }
    ensures ok { IfOk result (λ z. graph.new ≡ spec.with_select (as_feeding fed.now) (as_pair operands.now) z graph.old) }
    ensures fresh { IfOk result (λ z. spec.IsSelectNew graph.old z) }
    ensures kept { HasAll graph.old graph.new }
    ensures held { IfOk result (λ z. HasBox z.s graph.new) }
{
    let s = graph.add_box(alloc, new_parts(alloc, BoxKind::Select), Some(fed.d.id))?;
    let u = graph.add_quant(fed.d.id, 3, QuantKind::F, s)?;
    graph.move_quant(operands.r.id, s, 1)?;
    let p = graph.add_quant(s, 1, QuantKind::F, fed.m.id)?;
    Ok(NewSelect { s, u, p })
}

// It gets its cells, and so does c, the select over the magic box and x.
fn put_selects(
    alloc: Global,
    graph: &mut Graph,
    fed: &Fed<'_>,
    operands: &Operands<'_>,
    z: NewSelect,
    left: Role,
    right: Role,
) -> Result<(), OutOfMemory>
    requires held_s { HasBox z.s graph.old }
    requires held_c { HasBox fed.now.c.now.id graph.old }
    requires owned_a { HasQuant fed.now.a.id graph.old }
    ensures ok { OnOk result (graph.new ≡ spec.put_selects (as_feeding fed.now) (as_pair operands.now) z left right graph.old) }
    ensures kept { HasAll graph.old graph.new }
{
    let w = width(fed.m);
    let head = of_both(alloc, z.p, w, operands.r.id, width(operands.y))?;
    let first = of_both(alloc, fed.a.id, w, operands.l.id, width(operands.x))?;
    graph.move_quant(fed.a.id, fed.c.id, 1)?;
    graph.put_box(z.s, BoxKind::Select, right, no_conds(alloc), head);
    graph.put_box(fed.c.id, BoxKind::Select, left, no_conds(alloc), first);
    graph.set_distinct(fed.c.id, Distinct::Preserve);
    Ok(())
}

// Where y is open, below it names of the magic box's quantifier become those of the new one.
fn rename_where(
    alloc: Global,
    graph: &Graph,
    after: &mut Graph,
    fed: &Fed<'_>,
    operands: &Operands<'_>,
    z: NewSelect,
) -> Result<(), OutOfMemory>
    requires { HasAll graph.now after.old }
    ensures ok { OnOk result (after.new ≡ spec.renamed_where (as_feeding fed.now) (as_pair operands.now) z graph.now.boxes after.old) }
{
    if is_closed(alloc, graph, operands.y.id)? {
        return Ok(());
    }
    let cells = columns(alloc, z.p, width(fed.m))?;
    rename_below(alloc, graph, after, operands.r.over, fed.a.id, &cells)
}

/// The graph after G4 at a fed box over a set operation.
pub fn absorbed(
    alloc: Global,
    graph: &Graph,
    fed: &Fed<'_>,
    form: SetOperator,
    operands: &Operands<'_>,
) -> Result<Graph, OutOfMemory>
    requires { spec.CanAbsorbSet graph.now (as_feeding fed.now) (as_pair operands.now) }
    ensures { IfOk result (λ h. spec.StepsSet graph.now h (as_feeding fed.now) form (as_pair operands.now)) }
{
    let types = known_types(alloc, graph, &fed.d.parts.head)?;
    let left = role_over(alloc, graph, operands.x.id)?;
    let right = role_over(alloc, graph, operands.y.id)?;
    let mut after = graph.copy(alloc)?;
    let z = add_select(alloc, &mut after, fed, operands)?;
    put_selects(alloc, &mut after, fed, operands, z, left, right)?;
    after.put_box(
        fed.d.id,
        BoxKind::SetOp(form, types),
        Role::Plain,
        no_conds(alloc),
        Head::new(alloc),
    );
    after.move_below(fed.c.id, z.s);
    rename_where(alloc, graph, &mut after, fed, operands, z)?;
    after.compact(alloc)?;
    Ok(after)
}
