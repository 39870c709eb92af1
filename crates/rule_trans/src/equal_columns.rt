// J1.
ghost use Rattle.std.specs.Prelude.{◌≡◌, ◌+◌, ◌<◌, ◌++◌, IfOk, OnOk, drop, length, map};
ghost use Rattle.list_laws.specs.Lists.{In};
ghost use Rattle.qgm_props.specs.Laws.{Tells};
ghost use Rattle.qgm_props.specs.Table.{facts_of};
ghost use Rattle.qgm_terms.specs.Shown.{cond};
ghost use Rattle.qgm_wellformed.specs.Sentences.{WellFormed};
ghost use Rattle.rule_api.specs.Picks.{grid};
ghost use Rattle.rule_api.specs.Rules.{place_at};
ghost use Rattle.rule_api.specs.declared.rule_id.RuleId.TheVariants.{J1};
ghost use Rattle.rule_trans.specs.ColumnPairs.{has};
ghost use Rattle.rule_trans.specs.EqualColumns.{AddsEqualColumns, MayEqualColumns};
ghost use Rattle.rule_trans.specs.EqualColumnsPlaces as spec;
ghost use Rattle.rule_trans.specs.EqualColumnsExact.{PlansAt, equal_columns_exact};
ghost use Rattle.rule_trans.specs.Joints as told;

use crate::adding::{AddPlan, add, plan_add};
use crate::column_pairs::{ColumnPairs, pairs_of};
use crate::equalities::{Equality, has_two};
use crate::joints::{Joint, implied, joint_of, joints_of, passes};
use qgm_core::{BoxId, BoxKind, Gc, Graph, Gx, Node};
use qgm_props::{Inference, Props, props};
use qgm_terms::Sign;
use rule_api::{Place, Rule, RuleId, add_if};
use rule_facts::box_at;
use shared_types::OutOfMemory;
use std::alloc::Global;

/// J1: of two equalities that share an error-free column, the equality of the other two columns is
/// added, where these are of two F quantifiers of the box and it isn't there yet (Pirahesh, Hellerstein
/// and Hasan 1992, 3).
#[derive(Clone, Copy)]
pub struct EqualColumns;

fn is_outer_join(kind: &BoxKind) -> bool
    ensures { result ≡ spec.is_outer_join kind.now }
{
    match kind {
        BoxKind::OuterJoin => true,
        BoxKind::Base(_) | BoxKind::Select | BoxKind::Group(_) | BoxKind::SetOp(_, _) => false,
    }
}

/// Whether a box is a select or an outer join that isn't fed.
pub fn takes(node: &Node) -> bool
    ensures { result ≡ spec.takes node.now }
{
    (node.parts.kind.is_select() || is_outer_join(&node.parts.kind)) && !node.parts.role.is_fed()
}

// Whether such a box has two equalities of columns. Else it has no place, and facts aren't inferred.
fn may_have(node: &Node) -> bool
    ensures { result ≡ spec.may_have node.now }
{
    takes(node) && has_two(node.parts.conds.as_slice())
}

// Adds a place for each conjunct behind conjunct i, from 0, with which it passes.
fn add_row(
    pairs: &ColumnPairs,
    b: BoxId,
    i: usize,
    joints: &[Option<Joint>],
    out: &mut Vec<Place>,
) -> Result<(), OutOfMemory>
    requires { i < length joints.now }
    ensures { OnOk result (out.new.items ≡ out.old.items ++ map (place_at b) (told.row_from (has pairs.now) (i + 1) (drop i joints.now))) }
{
    let e = &joints[i];
    for j in i + 1..joints.len() {
        if passes(pairs, e, &joints[j]) {
            add_if(out, true, b, i + 1, j + 1)?;
        }
    }
    Ok(())
}

// Adds a place for each two conjuncts that pass, the first before the second.
fn add_grid(
    pairs: &ColumnPairs,
    b: BoxId,
    joints: &[Option<Joint>],
    out: &mut Vec<Place>,
) -> Result<(), OutOfMemory>
    ensures { OnOk result (out.new.items ≡ out.old.items ++ map (place_at b) (grid (told.passes (has pairs.now)) 1 joints.now)) }
{
    for i in 0..joints.len() {
        add_row(pairs, b, i, joints, out)?;
    }
    Ok(())
}

// Adds the places at a box, by what is inferred.
fn add_places(
    alloc: Global,
    graph: &Graph,
    known: &Props,
    node: &Node,
    b: BoxId,
    out: &mut Vec<Place>,
) -> Result<(), OutOfMemory>
    requires { Tells (facts_of known.now) graph.now.boxes }
    ensures { OnOk result (out.new.items ≡ out.old.items ++ map (place_at b) (grid (spec.passes graph.now node.now) 1 node.now.parts.conds.items)) }
{
    let pairs = pairs_of(alloc, node.parts.conds.as_slice())?;
    let joints = joints_of(alloc, graph, known, node)?;
    add_grid(&pairs, b, &joints, out)
}

// The condition that two columns are equal.
fn equality(alloc: Global, e: Equality) -> Result<Gc, OutOfMemory>
    ensures { IfOk result (λ c. cond c ≡ spec.equality e) }
{
    let left = Box::new(alloc, Gx::Col(e.left.quant, e.left.place))?;
    let right = Box::new(alloc, Gx::Col(e.right.quant, e.right.place))?;
    Ok(Gc::Compare(Sign::Eq, left, right))
}

// What J1 does at a place.
fn plan_at(alloc: Global, graph: &Graph, place: Place) -> Result<AddPlan, OutOfMemory>
    requires formed { WellFormed graph.now }
    requires given { In (place.i, place.j) (spec.equal_columns_pairs graph.now place.at) }
    ensures { IfOk result (λ m. PlansAt place graph.now m) }
{
    graph.each_number_once();
    let Some(node) = box_at(graph.nodes(), place.at) else {
        unreachable!()
    };
    let known = props(alloc, graph)?;
    let pairs = pairs_of(alloc, node.parts.conds.as_slice())?;
    let c = node.parts.conds.at(place.i);
    let d = node.parts.conds.at(place.j);
    let e = joint_of(graph, &known, node, c);
    let f = joint_of(graph, &known, node, d);
    let Some(x) = implied(&pairs, &e, &f) else {
        unreachable!()
    };
    let p = equality(alloc, x)?;
    plan_add(alloc, node, p)
}

impl Rule for EqualColumns {
    ghost pairs = { λ _. spec.equal_columns_pairs };

    ghost may = { λ _. MayEqualColumns };

    ghost act = { λ _. AddsEqualColumns };

    ghost name = { λ _. J1 };

    ghost exact = { λ _. equal_columns_exact };

    fn id(&self) -> RuleId {
        RuleId::J1
    }

    #[tactic(auto, unfolding(crate::specs::EqualColumnsPlaces::equal_columns_pairs))]
    fn places(
        &self,
        alloc: Global,
        graph: &Graph,
        known: &mut Inference,
        b: BoxId,
    ) -> Result<Vec<Place>, OutOfMemory> {
        let mut out = Vec::new(alloc);
        graph.each_number_once();
        let Some(node) = box_at(graph.nodes(), b) else {
            return Ok(out);
        };
        if !may_have(node) {
            return Ok(out);
        }
        let facts = known.take(alloc, graph)?;
        add_places(alloc, graph, &facts, node, b, &mut out)?;
        known.put(facts);
        Ok(out)
    }

    fn apply(&self, alloc: Global, graph: &mut Graph, place: Place) -> Result<(), OutOfMemory> {
        graph.each_number_once();
        let m = plan_at(alloc, graph, place)?;
        add(alloc, graph, m)?;
        Ok(())
    }
}
