// P1.
ghost use Rattle.std.specs.Prelude.{◌≡◌, IfOk, IfSome};
ghost use Rattle.list_laws.specs.Lists.{In};
ghost use Rattle.qgm_core.specs.Boxes.{overs_in};
ghost use Rattle.qgm_wellformed.specs.Sentences.{WellFormed};
ghost use Rattle.qgm_terms.specs.Shown.{cond};
ghost use Rattle.rule_api.specs.declared.rule_id.RuleId.TheVariants.{P1};
ghost use Rattle.rule_push.specs.PushIntoSelect.{ActsPushIntoSelect, MayPushIntoSelect, PlansAt, push_into_select_pairs, select_passes};
ghost use Rattle.rule_push.specs.PushPlaces as spec;
ghost use Rattle.rule_push.specs.PushIntoSelectExact.{push_into_select_exact};

use crate::leaving::leaving_at;
use crate::moves::{PushPlan, plan_push, push};
use crate::push_places::{is_used_once, one_read};
use crate::small::is_small;
use qgm_core::{BoxId, Counts, Gc, Graph, Node, OwnedQuant};
use qgm_props::Inference;
use qgm_terms::{ROOM, substitute_cond};
use rule_api::{Place, Rule, RuleId, add_if};
use rule_facts::box_at;
use shared_types::OutOfMemory;
use std::alloc::Global;

/// P1: a conjunct on the columns of one quantifier goes into the plain select under it.
#[derive(Clone, Copy)]
pub struct PushIntoSelect;

// Whether p, which reads r, may go into c, the box under r.
fn passes(alloc: Global, p: &Gc, r: OwnedQuant, c: &Node) -> Result<bool, OutOfMemory>
    ensures { IfOk result (λ v. v ≡ select_passes (cond p.now) r c.now) }
{
    if !c.parts.kind.is_select() || !c.parts.role.is_plain() {
        return Ok(false);
    }
    is_small(alloc, p, r.id, &c.parts.head)
}

// Whether p, a conjunct of b, may go down to a plain select.
#[tactic(auto, using(crate::proofs::OneRead::leaves_by_one))]
fn may_leave(
    alloc: Global,
    graph: &Graph,
    uses: &mut Option<Counts>,
    b: &Node,
    p: &Gc,
) -> Result<bool, OutOfMemory>
    requires { IfSome uses.old (λ c. c ≡ overs_in graph.now.boxes) }
    ensures uses { IfSome uses.new (λ c. c ≡ overs_in graph.now.boxes) }
    ensures test { IfOk result (λ v. v ≡ spec.may_leave select_passes graph.now b.now (cond p.now)) }
{
    graph.each_number_once();
    let Some(r) = one_read(alloc, b, p)? else {
        return Ok(false);
    };
    let Some(c) = box_at(graph.nodes(), r.over) else {
        return Ok(false);
    };
    if !passes(alloc, p, r, c)? {
        return Ok(false);
    }
    is_used_once(alloc, graph, uses, r.over)
}

// What P1 does at a place.
fn plan_at(alloc: Global, graph: &Graph, place: Place) -> Result<PushPlan, OutOfMemory>
    requires formed { WellFormed graph.now }
    requires given { In (place.i, place.j) (push_into_select_pairs graph.now place.at) }
    ensures { IfOk result (λ m. PlansAt place graph.now m) }
{
    let x = leaving_at(graph, place);
    let q = substitute_cond(alloc, x.p, x.r.id, &x.c.parts.head, ROOM)?;
    let m = plan_push(alloc, x.b, place.i, x.c, q)?;
    Ok(m)
}

impl Rule for PushIntoSelect {
    ghost pairs = { λ _. push_into_select_pairs };

    ghost may = { λ _. MayPushIntoSelect };

    ghost act = { λ _. ActsPushIntoSelect };

    ghost name = { λ _. P1 };

    ghost exact = { λ _. push_into_select_exact };

    fn id(&self) -> RuleId {
        RuleId::P1
    }

    #[tactic(auto, unfolding(crate::specs::PushIntoSelect::push_into_select_pairs))]
    fn places(
        &self,
        alloc: Global,
        graph: &Graph,
        known: &mut Inference,
        b: BoxId,
    ) -> Result<Vec<Place>, OutOfMemory> {
        let mut out = Vec::new(alloc);
        let _facts = known;
        graph.each_number_once();
        let Some(node) = box_at(graph.nodes(), b) else {
            return Ok(out);
        };
        let list = node.parts.conds.as_slice();
        let mut uses = None;
        for k in 0..list.len() {
            let passes = may_leave(alloc, graph, &mut uses, node, &list[k])?;
            add_if(&mut out, passes, b, k + 1, 0)?;
        }
        Ok(out)
    }

    fn apply(&self, alloc: Global, graph: &mut Graph, place: Place) -> Result<(), OutOfMemory> {
        graph.each_number_once();
        let m = plan_at(alloc, graph, place)?;
        push(alloc, graph, m)?;
        Ok(())
    }
}
