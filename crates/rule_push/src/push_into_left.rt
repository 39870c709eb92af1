// P4.
ghost use Rattle.std.specs.Prelude.{◌≡◌, IfOk, IfSome};
ghost use Rattle.list_laws.specs.Lists.{In};
ghost use Rattle.qgm_core.specs.Boxes.{overs_in};
ghost use Rattle.qgm_props.specs.Lists.{is_none};
ghost use Rattle.qgm_terms.specs.Shown.{cond, links, term};
ghost use Rattle.qgm_terms.specs.Substitution.{cell_at};
ghost use Rattle.qgm_wellformed.specs.Sentences.{WellFormed};
ghost use Rattle.rule_api.specs.declared.rule_id.RuleId.TheVariants.{P4};
ghost use Rattle.rule_push.specs.PushIntoLeft.{ActsPushIntoLeft, MayPushIntoLeft, PlansIntoLeft, is_column_of, is_outer_join, left_arm, left_passes, push_into_left_pairs};
ghost use Rattle.rule_push.specs.PushIntoLeftExact.{push_into_left_exact};
ghost use Rattle.rule_push.specs.PushPlaces as spec;

use crate::moves::{PushPlan, push};
use crate::push_places::{is_input, is_used_once, one_read};
use crate::small::is_small_below;
use crate::through::plan_through;
use qgm_core::{BoxId, BoxKind, Counts, Gc, Graph, Gx, Head, Link, Node, OwnedQuant, QuantId};
use qgm_props::Inference;
use qgm_term_search::{add_columns_of_cond, stands_in_cond};
use qgm_terms::{Sought, both};
use rule_api::{Place, Rule, RuleId, add_if};
use rule_facts::box_at;
use shared_types::OutOfMemory;
use std::alloc::Global;

/// P4: a conjunct on left columns of an outer join goes into its left arm.
#[derive(Clone, Copy)]
pub struct PushIntoLeft;

fn is_outer_join(kind: &BoxKind) -> bool
    ensures { result ≡ is_outer_join kind.now }
{
    match kind {
        BoxKind::OuterJoin => true,
        BoxKind::Base(_) | BoxKind::Select | BoxKind::Group(_) | BoxKind::SetOp(_, _) => false,
    }
}

// Whether no operand stands behind the first one.
fn is_lone(list: &[Link]) -> bool
    ensures { result ≡ is_none (links list.now) }
{
    match list {
        [] => true,
        [_, ..] => false,
    }
}

// Whether an expression is a column of s.
fn is_column_of(s: QuantId, x: &Gx) -> bool
    ensures { result ≡ is_column_of s (term x.now) }
{
    match x {
        Gx::Col(q, _) => *q == s,
        Gx::Chain(a, list) => both(is_lone(list), is_column_of(s, a)),
        Gx::Int(_)
        | Gx::Text(_)
        | Gx::NullInt
        | Gx::NullText
        | Gx::Scalar(_)
        | Gx::Neg(_)
        | Gx::Case(_, _)
        | Gx::CountAll
        | Gx::Fold(_, _, _) => false,
    }
}

// Whether the cell of a place is a column of s.
fn is_left(head: &Head, s: QuantId, k: usize) -> bool
    ensures { result ≡ is_column_of s (cell_at k head.now) }
{
    if k == 0 || k > head.len() {
        return false;
    }
    is_column_of(s, head.at(k))
}

// Whether each column of r that p reads is one of s in this head.
fn reads_left(
    alloc: Global,
    p: &Gc,
    r: QuantId,
    head: &Head,
    s: QuantId,
) -> Result<bool, OutOfMemory>
    ensures { IfOk result (λ v. v ≡ spec.reads_only (λ k. is_column_of s (cell_at k head.now)) r (cond p.now)) }
{
    let mut columns = Vec::new(alloc);
    add_columns_of_cond(p, &mut columns)?;
    for x in &columns {
        if !is_left(head, s, x.place) && stands_in_cond(p, Sought::Cell(r, x.place)) {
            return Ok(false);
        }
    }
    Ok(true)
}

// Whether p, which reads r, may go into the first of these two arms of an outer join.
fn into_left(
    alloc: Global,
    graph: &Graph,
    p: &Gc,
    r: OwnedQuant,
    head: &Head,
    arms: &[OwnedQuant],
) -> Result<bool, OutOfMemory>
    ensures { IfOk result (λ v. v ≡ left_arm graph.now (cond p.now) r head.now arms.now) }
{
    match arms {
        [] | [_] | [_, _, _, ..] => Ok(false),
        [s, _] => {
            if !is_input(graph, *s) || !reads_left(alloc, p, r.id, head, s.id)? {
                return Ok(false);
            }
            is_small_below(alloc, graph, p, r.id, head, *s)
        }
    }
}

// Whether p, which reads r, may go through c, the box under r.
fn passes(
    alloc: Global,
    graph: &Graph,
    p: &Gc,
    r: OwnedQuant,
    c: &Node,
) -> Result<bool, OutOfMemory>
    ensures { IfOk result (λ v. v ≡ left_passes graph.now (cond p.now) r c.now) }
{
    if !is_outer_join(&c.parts.kind) {
        return Ok(false);
    }
    into_left(alloc, graph, p, r, &c.parts.head, c.quants.as_slice())
}

// Whether p, a conjunct of b, may go down to the left arm of an outer join.
#[tactic(auto, using(crate::proofs::OneRead::leaves_by_one))]
fn may_leave(
    alloc: Global,
    graph: &Graph,
    uses: &mut Option<Counts>,
    b: &Node,
    p: &Gc,
) -> Result<bool, OutOfMemory>
    requires { IfSome uses.old (λ c. c ≡ overs_in graph.now.boxes) }
    ensures uses { IfSome uses.new (λ c. c ≡ overs_in graph.now.boxes) }
    ensures test { IfOk result (λ v. v ≡ spec.may_leave (left_passes graph.now) graph.now b.now (cond p.now)) }
{
    graph.each_number_once();
    let Some(r) = one_read(alloc, b, p)? else {
        return Ok(false);
    };
    let Some(c) = box_at(graph.nodes(), r.over) else {
        return Ok(false);
    };
    if !passes(alloc, graph, p, r, c)? {
        return Ok(false);
    }
    is_used_once(alloc, graph, uses, r.over)
}

// What P4 does at a place.
fn plan_at(alloc: Global, graph: &Graph, place: Place) -> Result<PushPlan, OutOfMemory>
    requires formed { WellFormed graph.now }
    requires given { In (place.i, place.j) (push_into_left_pairs graph.now place.at) }
    ensures { IfOk result (λ m. PlansIntoLeft place graph.now m) }
{
    let m = plan_through(alloc, graph, place)?;
    Ok(m)
}

impl Rule for PushIntoLeft {
    ghost pairs = { λ _. push_into_left_pairs };

    ghost may = { λ _. MayPushIntoLeft };

    ghost act = { λ _. ActsPushIntoLeft };

    ghost name = { λ _. P4 };

    ghost exact = { λ _. push_into_left_exact };

    fn id(&self) -> RuleId {
        RuleId::P4
    }

    #[tactic(auto, unfolding(crate::specs::PushIntoLeft::push_into_left_pairs))]
    fn places(
        &self,
        alloc: Global,
        graph: &Graph,
        known: &mut Inference,
        b: BoxId,
    ) -> Result<Vec<Place>, OutOfMemory> {
        let mut out = Vec::new(alloc);
        let _facts = known;
        graph.each_number_once();
        let Some(node) = box_at(graph.nodes(), b) else {
            return Ok(out);
        };
        let list = node.parts.conds.as_slice();
        let mut uses = None;
        for k in 0..list.len() {
            let passes = may_leave(alloc, graph, &mut uses, node, &list[k])?;
            add_if(&mut out, passes, b, k + 1, 0)?;
        }
        Ok(out)
    }

    fn apply(&self, alloc: Global, graph: &mut Graph, place: Place) -> Result<(), OutOfMemory> {
        graph.each_number_once();
        let m = plan_at(alloc, graph, place)?;
        push(alloc, graph, m)?;
        Ok(())
    }
}
