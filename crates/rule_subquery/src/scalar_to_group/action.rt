// A quantifier ranges over a new group of one row.
ghost use Rattle.std.specs.Prelude.{◌≡◌, IfOk, OnErr, OnOk};
ghost use Rattle.qgm_core.specs.Boxes.{HasBox};
ghost use Rattle.qgm_core.specs.Edits.{drop_box};
ghost use Rattle.rule_subquery.specs.ScalarToGroupLaws.{single_head};
ghost use Rattle.rule_subquery.specs.ScalarToGroupSteps as spec;

use qgm_core::{
    BoxId, BoxKind, BoxParts, Conds, Distinct, Graph, Gx, Head, OwnedQuant, QuantId, QuantKind,
    Role,
};
use qgm_terms::{Aggregate, Taken};
use shared_types::OutOfMemory;
use std::alloc::Global;

// The parts of a group without keys and without cells.
fn empty_group(alloc: Global) -> BoxParts
    ensures { result ≡ spec.empty_group }
{
    BoxParts {
        kind: BoxKind::Group(0),
        distinct: Distinct::Preserve,
        role: Role::Plain,
        conds: Conds::new(alloc),
        head: Head::new(alloc),
    }
}

// The cell of at most one row, of column 1.
fn single(alloc: Global, q: QuantId) -> Result<Head, OutOfMemory>
    ensures { IfOk result (λ h. h ≡ single_head q) }
{
    let column = Box::new(alloc, Gx::Col(q, 1))?;
    let mut head = Head::new(alloc);
    head.push(Gx::Fold(Aggregate::Single, Taken::All, column))?;
    Ok(head)
}

// The group ranges over the box of r and gets its cell, and r ranges over it. Where there is no memory it
// fails, and but for the group the graph is as before.
fn fill(alloc: Global, graph: &mut Graph, group: BoxId, r: OwnedQuant) -> Result<(), OutOfMemory>
    requires { spec.CanFill graph.old group r }
    ensures ok { OnOk result (spec.Fills graph.old graph.new group r) }
    ensures err { OnErr result (drop_box group graph.new ≡ drop_box group graph.old) }
    ensures held { OnErr result (HasBox group graph.new) }
{
    let q = graph.add_quant(group, 1, QuantKind::F, r.over)?;
    let head = single(alloc, q)?;
    graph.put_terms(group, Conds::new(alloc), head);
    graph.redirect(r.id, group);
    if graph.compact(alloc).is_err() {
        graph.redirect(r.id, r.over);
        return Err(OutOfMemory);
    }
    Ok(())
}

/// Does U2 at quantifier r of box b. Where there is no memory it fails, and the graph is as before.
pub fn group(alloc: Global, graph: &mut Graph, b: BoxId, r: OwnedQuant) -> Result<(), OutOfMemory>
    requires { spec.CanGroup graph.old b r }
    ensures ok { OnOk result (spec.Groups graph.old graph.new b r) }
    ensures err { OnErr result (graph.new ≡ graph.old) }
{
    let group = graph.add_box(alloc, empty_group(alloc), Some(b))?;
    let filled = fill(alloc, graph, group, r);
    if filled.is_err() {
        graph.drop_box(group);
    }
    filled
}
