// P3.
ghost use Rattle.std.specs.Prelude.{◌≡◌, ◌&&◌, ◌||◌, IfOk, IfSome};
ghost use Rattle.list_laws.specs.Lists.{In};
ghost use Rattle.qgm_core.specs.Boxes.{overs_in};
ghost use Rattle.qgm_props.specs.Laws.{KeptOf};
ghost use Rattle.qgm_terms.specs.Shown.{cond};
ghost use Rattle.qgm_wellformed.specs.Sentences.{WellFormed};
ghost use Rattle.rule_api.specs.declared.rule_id.RuleId.TheVariants.{P3};
ghost use Rattle.rule_push.specs.Decided.{decided};
ghost use Rattle.rule_push.specs.PushIntoArms.{ActsPushIntoArms, MayPushIntoArms, PlansIntoArms, arms_passes, is_union, push_into_arms_pairs, two_inputs};
ghost use Rattle.rule_push.specs.PushIntoArmsExact.{push_into_arms_exact};
ghost use Rattle.rule_push.specs.PushPlaces as spec;

use crate::decided::is_decided;
use crate::leaving::{first_range, leaving_at, second_range};
use crate::moves::{ArmsPlan, plan_push_both, push_both};
use crate::push_places::{is_input, is_used_once, one_read};
use crate::small::is_small_into;
use qgm_core::{BoxId, BoxKind, Counts, Gc, Graph, Node, OwnedQuant, SetOperator};
use qgm_props::Inference;
use qgm_terms::{ROOM, substitute_cond};
use rule_api::{Place, Rule, RuleId, add_if};
use rule_facts::box_at;
use shared_types::OutOfMemory;
use std::alloc::Global;

/// P3: a conjunct on the columns of a set operation goes into both of its arms.
#[derive(Clone, Copy)]
pub struct PushIntoArms;

fn is_union(form: SetOperator) -> bool
    ensures { result ≡ is_union form }
{
    match form {
        SetOperator::Union | SetOperator::UnionAll => true,
        SetOperator::Intersect
        | SetOperator::IntersectAll
        | SetOperator::Except
        | SetOperator::ExceptAll => false,
    }
}

// Whether these are two quantifiers over plain selects over which no other ranges, and p, which reads
// r, grows little by the cells of both.
fn two_inputs(
    alloc: Global,
    graph: &Graph,
    p: &Gc,
    r: OwnedQuant,
    ranges: &[OwnedQuant],
) -> Result<bool, OutOfMemory>
    ensures { IfOk result (λ v. v ≡ two_inputs graph.now (cond p.now) r ranges.now) }
{
    match ranges {
        [] | [_] | [_, _, _, ..] => Ok(false),
        [s, t] => {
            if !is_input(graph, *s) || !is_input(graph, *t) {
                return Ok(false);
            }
            if !is_small_into(alloc, graph, p, r.id, *s)? {
                return Ok(false);
            }
            is_small_into(alloc, graph, p, r.id, *t)
        }
    }
}

// Whether p may go through c, a set operation.
fn into_arms(
    alloc: Global,
    graph: &Graph,
    known: &mut Inference,
    p: &Gc,
    r: OwnedQuant,
    form: SetOperator,
    c: &Node,
) -> Result<bool, OutOfMemory>
    requires { KeptOf known.old graph.now.boxes }
    ensures known { KeptOf known.new graph.now.boxes }
    ensures test { IfOk result (λ v. v ≡ (two_inputs graph.now (cond p.now) r c.now.quants && (is_union form || decided graph.now (cond p.now) c.now))) }
{
    if !two_inputs(alloc, graph, p, r, c.quants.as_slice())? {
        return Ok(false);
    }
    if is_union(form) {
        return Ok(true);
    }
    is_decided(alloc, graph, known, p, c)
}

// Whether p, which reads r, may go through c, the box under r.
fn passes(
    alloc: Global,
    graph: &Graph,
    known: &mut Inference,
    p: &Gc,
    r: OwnedQuant,
    c: &Node,
) -> Result<bool, OutOfMemory>
    requires { KeptOf known.old graph.now.boxes }
    ensures known { KeptOf known.new graph.now.boxes }
    ensures test { IfOk result (λ v. v ≡ arms_passes graph.now (cond p.now) r c.now) }
{
    match &c.parts.kind {
        BoxKind::SetOp(form, _) => into_arms(alloc, graph, known, p, r, *form, c),
        BoxKind::Base(_) | BoxKind::Select | BoxKind::Group(_) | BoxKind::OuterJoin => Ok(false),
    }
}

// Whether p, a conjunct of b, may go down to the arms of a set operation.
#[tactic(auto, using(crate::proofs::OneRead::leaves_by_one))]
fn may_leave(
    alloc: Global,
    graph: &Graph,
    known: &mut Inference,
    uses: &mut Option<Counts>,
    b: &Node,
    p: &Gc,
) -> Result<bool, OutOfMemory>
    requires known { KeptOf known.old graph.now.boxes }
    requires uses { IfSome uses.old (λ c. c ≡ overs_in graph.now.boxes) }
    ensures uses { IfSome uses.new (λ c. c ≡ overs_in graph.now.boxes) }
    ensures known { KeptOf known.new graph.now.boxes }
    ensures test { IfOk result (λ v. v ≡ spec.may_leave (arms_passes graph.now) graph.now b.now (cond p.now)) }
{
    graph.each_number_once();
    let Some(r) = one_read(alloc, b, p)? else {
        return Ok(false);
    };
    let Some(c) = box_at(graph.nodes(), r.over) else {
        return Ok(false);
    };
    if !passes(alloc, graph, known, p, r, c)? {
        return Ok(false);
    }
    is_used_once(alloc, graph, uses, r.over)
}

// What P3 does at a place.
fn plan_at(alloc: Global, graph: &Graph, place: Place) -> Result<ArmsPlan, OutOfMemory>
    requires formed { WellFormed graph.now }
    requires given { In (place.i, place.j) (push_into_arms_pairs graph.now place.at) }
    ensures { IfOk result (λ m. PlansIntoArms place graph.now m) }
{
    graph.each_number_once();
    let x = leaving_at(graph, place);
    let Some(s) = first_range(x.c.quants.as_slice()) else {
        unreachable!()
    };
    let Some(t) = second_range(x.c.quants.as_slice()) else {
        unreachable!()
    };
    let Some(n) = box_at(graph.nodes(), s.over) else {
        unreachable!()
    };
    let Some(m) = box_at(graph.nodes(), t.over) else {
        unreachable!()
    };
    let p = substitute_cond(alloc, x.p, x.r.id, &n.parts.head, ROOM)?;
    let q = substitute_cond(alloc, x.p, x.r.id, &m.parts.head, ROOM)?;
    let arms = plan_push_both(alloc, x.b, place.i, n, p, m, q)?;
    Ok(arms)
}

impl Rule for PushIntoArms {
    ghost pairs = { λ _. push_into_arms_pairs };

    ghost may = { λ _. MayPushIntoArms };

    ghost act = { λ _. ActsPushIntoArms };

    ghost name = { λ _. P3 };

    ghost exact = { λ _. push_into_arms_exact };

    fn id(&self) -> RuleId {
        RuleId::P3
    }

    #[tactic(auto, unfolding(crate::specs::PushIntoArms::push_into_arms_pairs))]
    fn places(
        &self,
        alloc: Global,
        graph: &Graph,
        known: &mut Inference,
        b: BoxId,
    ) -> Result<Vec<Place>, OutOfMemory> {
        let mut out = Vec::new(alloc);
        graph.each_number_once();
        let Some(node) = box_at(graph.nodes(), b) else {
            return Ok(out);
        };
        let list = node.parts.conds.as_slice();
        let mut uses = None;
        for k in 0..list.len() {
            let passes = may_leave(alloc, graph, known, &mut uses, node, &list[k])?;
            add_if(&mut out, passes, b, k + 1, 0)?;
        }
        Ok(out)
    }

    fn apply(&self, alloc: Global, graph: &mut Graph, place: Place) -> Result<(), OutOfMemory> {
        graph.each_number_once();
        let arms = plan_at(alloc, graph, place)?;
        push_both(alloc, graph, arms)?;
        Ok(())
    }
}
