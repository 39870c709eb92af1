// P2.
ghost use Rattle.std.specs.Prelude.{◌≡◌, nat_le, IfOk, IfSome};
ghost use Rattle.list_laws.specs.Lists.{In};
ghost use Rattle.qgm_core.specs.Boxes.{overs_in};
ghost use Rattle.qgm_props.specs.Laws.{KeptOf};
ghost use Rattle.qgm_terms.specs.Shown.{cond};
ghost use Rattle.qgm_wellformed.specs.Sentences.{WellFormed};
ghost use Rattle.rule_api.specs.declared.rule_id.RuleId.TheVariants.{P2};
ghost use Rattle.rule_push.specs.PushPlaces as spec;
ghost use Rattle.rule_push.specs.PushThroughGroup.{ActsPushThroughGroup, MayPushThroughGroup, PlansThroughGroup, group_passes, of_group, over_keys, push_through_group_pairs};
ghost use Rattle.rule_push.specs.PushThroughGroupExact.{push_through_group_exact};

use crate::decided::is_decided;
use crate::moves::{PushPlan, push};
use crate::push_places::{is_input, is_used_once, one_read};
use crate::small::is_small_below;
use crate::through::plan_through;
use qgm_core::{BoxId, BoxKind, Counts, Gc, Graph, Node, OwnedQuant, QuantId};
use qgm_props::Inference;
use qgm_term_search::{add_columns_of_cond, stands_in_cond};
use qgm_terms::Sought;
use rule_api::{Place, Rule, RuleId, add_if};
use rule_facts::box_at;
use shared_types::OutOfMemory;
use std::alloc::Global;

/// P2: a conjunct on the keys of a group goes into the select that it groups.
#[derive(Clone, Copy)]
pub struct PushThroughGroup;

// Whether each column of r that p reads is one of the first ones, so many.
fn reads_keys(alloc: Global, p: &Gc, r: QuantId, keys: usize) -> Result<bool, OutOfMemory>
    ensures { IfOk result (λ v. v ≡ spec.reads_only (λ j. nat_le j keys) r (cond p.now)) }
{
    let mut columns = Vec::new(alloc);
    add_columns_of_cond(p, &mut columns)?;
    for x in &columns {
        if x.place > keys && stands_in_cond(p, Sought::Cell(r, x.place)) {
            return Ok(false);
        }
    }
    Ok(true)
}

// Whether p, which reads r, may go through c, a group of so many keys.
fn through_keys(
    alloc: Global,
    graph: &Graph,
    p: &Gc,
    r: OwnedQuant,
    c: &Node,
    keys: usize,
) -> Result<bool, OutOfMemory>
    ensures { IfOk result (λ v. v ≡ over_keys graph.now (cond p.now) r c.now.parts.head c.now.quants keys) }
{
    match c.quants.as_slice() {
        [] | [_, _, ..] => Ok(false),
        [s] => {
            if !is_input(graph, *s) || keys == 0 || !reads_keys(alloc, p, r.id, keys)? {
                return Ok(false);
            }
            is_small_below(alloc, graph, p, r.id, &c.parts.head, *s)
        }
    }
}

// Whether it may go through c, the box under r, but for what is inferred.
fn through_group(
    alloc: Global,
    graph: &Graph,
    p: &Gc,
    r: OwnedQuant,
    c: &Node,
) -> Result<bool, OutOfMemory>
    ensures { IfOk result (λ v. v ≡ of_group (over_keys graph.now (cond p.now) r c.now.parts.head c.now.quants) c.now.parts.kind) }
{
    match &c.parts.kind {
        BoxKind::Group(keys) => through_keys(alloc, graph, p, r, c, *keys),
        BoxKind::Base(_) | BoxKind::Select | BoxKind::SetOp(_, _) | BoxKind::OuterJoin => Ok(false),
    }
}

// Whether it may go through c.
fn passes(
    alloc: Global,
    graph: &Graph,
    known: &mut Inference,
    p: &Gc,
    r: OwnedQuant,
    c: &Node,
) -> Result<bool, OutOfMemory>
    requires { KeptOf known.old graph.now.boxes }
    ensures known { KeptOf known.new graph.now.boxes }
    ensures test { IfOk result (λ v. v ≡ group_passes graph.now (cond p.now) r c.now) }
{
    if !through_group(alloc, graph, p, r, c)? {
        return Ok(false);
    }
    is_decided(alloc, graph, known, p, c)
}

// Whether p, a conjunct of b, may go down below a group.
#[tactic(auto, using(crate::proofs::OneRead::leaves_by_one))]
fn may_leave(
    alloc: Global,
    graph: &Graph,
    known: &mut Inference,
    uses: &mut Option<Counts>,
    b: &Node,
    p: &Gc,
) -> Result<bool, OutOfMemory>
    requires known { KeptOf known.old graph.now.boxes }
    requires uses { IfSome uses.old (λ c. c ≡ overs_in graph.now.boxes) }
    ensures uses { IfSome uses.new (λ c. c ≡ overs_in graph.now.boxes) }
    ensures known { KeptOf known.new graph.now.boxes }
    ensures test { IfOk result (λ v. v ≡ spec.may_leave (group_passes graph.now) graph.now b.now (cond p.now)) }
{
    graph.each_number_once();
    let Some(r) = one_read(alloc, b, p)? else {
        return Ok(false);
    };
    let Some(c) = box_at(graph.nodes(), r.over) else {
        return Ok(false);
    };
    if !passes(alloc, graph, known, p, r, c)? {
        return Ok(false);
    }
    is_used_once(alloc, graph, uses, r.over)
}

// What P2 does at a place.
fn plan_at(alloc: Global, graph: &Graph, place: Place) -> Result<PushPlan, OutOfMemory>
    requires formed { WellFormed graph.now }
    requires given { In (place.i, place.j) (push_through_group_pairs graph.now place.at) }
    ensures { IfOk result (λ m. PlansThroughGroup place graph.now m) }
{
    let m = plan_through(alloc, graph, place)?;
    Ok(m)
}

impl Rule for PushThroughGroup {
    ghost pairs = { λ _. push_through_group_pairs };

    ghost may = { λ _. MayPushThroughGroup };

    ghost act = { λ _. ActsPushThroughGroup };

    ghost name = { λ _. P2 };

    ghost exact = { λ _. push_through_group_exact };

    fn id(&self) -> RuleId {
        RuleId::P2
    }

    #[tactic(auto, unfolding(crate::specs::PushThroughGroup::push_through_group_pairs))]
    fn places(
        &self,
        alloc: Global,
        graph: &Graph,
        known: &mut Inference,
        b: BoxId,
    ) -> Result<Vec<Place>, OutOfMemory> {
        let mut out = Vec::new(alloc);
        graph.each_number_once();
        let Some(node) = box_at(graph.nodes(), b) else {
            return Ok(out);
        };
        let list = node.parts.conds.as_slice();
        let mut uses = None;
        for k in 0..list.len() {
            let passes = may_leave(alloc, graph, known, &mut uses, node, &list[k])?;
            add_if(&mut out, passes, b, k + 1, 0)?;
        }
        Ok(out)
    }

    fn apply(&self, alloc: Global, graph: &mut Graph, place: Place) -> Result<(), OutOfMemory> {
        graph.each_number_once();
        let m = plan_at(alloc, graph, place)?;
        push(alloc, graph, m)?;
        Ok(())
    }
}
