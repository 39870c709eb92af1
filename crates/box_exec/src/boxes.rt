// The rows of boxes.
ghost use Rattle.std.specs.Prelude.{◌≡◌, ◌<◌, ◌+◌, ◌++◌, ◌∷◌, ℕ, Bool, IfOk, IfSome, OnOk, Some, false, filter, get_or, if◌then◌else◌, length, slice_get, true};
ghost use Rattle.box_exec.specs.Bound.{env_of};
ghost use Rattle.box_exec.specs.Costs.{Between, Keeps, asked, at_level};
ghost use Rattle.box_exec.specs.Counted.{Counted};
ghost use Rattle.box_exec.specs.Early.{is_open};
ghost use Rattle.box_exec.specs.Lasting.{AllPlanned, rows_kept};
ghost use Rattle.box_exec.specs.Lookup.{Hashes};
ghost use Rattle.box_exec.specs.Outer.{rejects_on};
ghost use Rattle.box_exec.specs.Plans as plan;
ghost use Rattle.box_exec.specs.Ready.{Fit, Ready, SubsOf, isnt_F};
ghost use Rattle.box_exec.specs.Sources.{held, rows_held};
ghost use Rattle.box_exec.specs.Taken.{taken_by};
ghost use Rattle.box_exec.specs.Takings.{asked_takings};
ghost use Rattle.qgm_core.specs.declared.kinds.BoxKind.TheVariants as kind;
ghost use Rattle.qgm_meaning.specs.Meaning as m;
ghost use Rattle.qgm_meaning.specs.Plain.{counted_by, under_each, under_others};
ghost use Rattle.row_bag.specs.Bags.{Alike, keep};
ghost use Rattle.sql_value.specs.declared.level.Level.TheVariants as Level;

use crate::bindings::Bindings;
use crate::combining::combined;
use crate::early::{Early, is_open, rejected};
use crate::grouping::grouped;
use crate::hashed::{all_kept, is_taken, kept_selected, sub_rows, way_under};
use crate::heads::{add_given, once_added};
use crate::idle_index::IdleIndex;
use crate::joining::{Join, outer_joined};
use crate::lookup::{Hashed, Keyed};
use crate::order::Order;
use crate::plan::{Plan, plan_of};
use crate::source::{Sub, SubRows, made, push_sub, unindexed};
use crate::tally::{Tally, take};
use crate::under::{Loop, Run, Under, loops, table_rows};
use qgm_core::{BoxKind, Node, SetOperator};
use row_bag::{Bag, Operand, copied_rows};
use row_index::{first_of, next_of};
use shared_types::OutOfMemory;
use sql_value::{Level, least};
use std::sync::ledger::Ledger;
use step_count::Steps;

/// A box that is evaluated: itself, those behind it, its quantifiers, its conditions that are tested before
/// all of these are bound, the keys of these with indexes of their rows, and better orders if there are any; the
/// indexes of rows of its E and A quantifiers, and of the right rows of an outer join.
#[derive(Clone, Copy)]
pub(crate) struct At<'a> {
    pub run: &'a Run<'a>,
    pub node: &'a Node,
    pub below: &'a [Node],
    pub loops: &'a [Loop<'a>],
    pub early: &'a [Early<'a>],
    pub keyed: &'a [Option<Keyed<'a>>],
    pub orders: &'a [Order<'a>],
    pub idle: &'a [Option<IdleIndex<'a>>],
    pub right: &'a [Hashed<'a>],
}

/// One evaluation of a box more.
pub(crate) fn step<L: Ledger>(steps: &mut Steps<L>, tally: &mut Tally)
    ensures counted { (start : ℕ) → Counted start steps.old tally.old.count → Counted start steps.new tally.new.count }
    ensures ticked { steps.new ≡ steps.old + 1 }
    ensures taken { tally.new.taken ≡ tally.old.taken }
{
    steps.tick();
    tally.count = tally.count.saturating_add(1);
}

// The plan of the box with so many boxes behind it, if there is one.
fn plan_at<'a>(plans: &'a [Option<Plan<'a>>], i: usize) -> Option<&'a Plan<'a>>
    ensures { IfSome result (λ p. slice_get plans.now i ≡ Some (Some p.now)) }
{
    match plans.get(i) {
        Some(Some(plan)) => Some(plan),
        Some(None) | None => None,
    }
}

/// The rows of a box over those behind it, one evaluation more. It fails only for want of memory.
#[cycle(rows)]
pub(crate) fn evaluated<'a, L: Ledger>(
    run: &'a Run<'a>,
    node: &'a Node,
    below: &'a [Node],
    env: &Bindings,
    steps: &mut Steps<L>,
    tally: &mut Tally,
) -> Result<Bag, OutOfMemory>
    requires ready { Ready run.now.tables.now run.now.memo.now below.now }
    requires fit { Fit node.now below.now }
    requires plans { AllPlanned run.now.memo.now run.now.plans.now (node.now ∷ below.now) }
    ensures rows { IfOk result (λ bag. Alike bag (m.rows_of run.now.tables.now node.now (m.bag_in run.now.tables.now below.now) (env_of env.now))) }
    ensures counted { (start : ℕ) → Counted start steps.old tally.old.count → Counted start steps.new tally.new.count }
    ensures took { (kept : ℕ → Bool) → Keeps run.now.memo.now kept below.now → IfOk result (λ bag. Between 1 (counted_by node.now.parts.kind node.now (m.bag_in run.now.tables.now below.now) (asked run.now.tables.now kept below.now) (env_of env.now)) steps.old steps.new) }
    ensures taken { (kept : ℕ → Bool) → plan.SeeksIn run.now.indexed run.now.memo.now run.now.plans.now kept node.now below.now → IfOk result (λ bag. Between 0 (taken_by kept node.now.parts.kind node.now (m.bag_in run.now.tables.now below.now) (asked_takings run.now.tables.now kept below.now) (env_of env.now)) tally.old.taken tally.new.taken) }
{
    step(steps, tally);
    let loops = loops(run, node.quants.as_slice(), below)?;
    if let Some(plan) = plan_at(run.plans, below.len()) {
        let at = At {
            run: &*run,
            node: &*node,
            below: &*below,
            loops: &loops,
            early: &plan.early,
            keyed: &plan.keyed,
            orders: &plan.orders,
            idle: &plan.idle,
            right: &plan.right,
        };
        return of_kind(&at, env, steps, tally);
    }
    let plan = plan_of(run, node, below, &loops, false)?;
    let at = At {
        run: &*run,
        node: &*node,
        below: &*below,
        loops: &loops,
        early: &plan.early,
        keyed: &plan.keyed,
        orders: &plan.orders,
        idle: &plan.idle,
        right: &plan.right,
    };
    of_kind(&at, env, steps, tally)
}

// Whether nothing is there.
fn is_no(level: Level) -> bool
    ensures none { result ≡ true → level ≡ Level.No }
    ensures there { (n : ℕ) → at_level level n ≡ (if result then 0 else n) }
{
    match level {
        Level::No => true,
        Level::Cardinality | Level::Division | Level::Overflow | Level::Yes => false,
    }
}

// The rows of a box by its kind.
#[cycle(rows)]
fn of_kind<L: Ledger>(
    at: &At<'_>,
    env: &Bindings,
    steps: &mut Steps<L>,
    tally: &mut Tally,
) -> Result<Bag, OutOfMemory>
    requires planned { plan.Planned at.now }
    ensures rows { IfOk result (λ bag. Alike bag (plan.rows_at at.now (env_of env.now))) }
    ensures counted { (start : ℕ) → Counted start steps.old tally.old.count → Counted start steps.new tally.new.count }
    ensures took { (kept : ℕ → Bool) → plan.KeepsAt at.now kept → IfOk result (λ bag. Between 1 (plan.cost_at at.now kept (env_of env.now)) steps.old (steps.new + 1)) }
    ensures taken { (kept : ℕ → Bool) → plan.SeeksAt at.now kept → IfOk result (λ bag. Between 0 (plan.takings_at at.now kept (env_of env.now)) tally.old.taken tally.new.taken) }
{
    match &at.node.parts.kind {
        BoxKind::Base(table) => copied_rows(at.run.alloc, table_rows(at.run.tables, &table.name)),
        BoxKind::Select => selected(at, env, steps, tally),
        BoxKind::Group(keys) => groups(at, *keys, env, steps, tally),
        BoxKind::SetOp(operator, types) => {
            put_together(at, *operator, types.len(), env, steps, tally)
        }
        BoxKind::OuterJoin => joined(at, env, steps, tally),
    }
}

// The rows under a quantifier.
#[cycle(rows)]
fn rows_under<'a, L: Ledger>(
    at: &At<'a>,
    l: &Loop<'a>,
    env: &Bindings,
    steps: &mut Steps<L>,
    tally: &mut Tally,
) -> Result<Operand<'a>, OutOfMemory>
    requires stands { plan.StandsAt at.now l.now }
    requires plans { AllPlanned at.now.run.now.memo.now at.now.run.now.plans.now at.now.below.now }
    ensures rows { IfOk result (λ s. Alike (held s) (plan.family at.now l.now.range.over (env_of env.now))) }
    ensures kept { is_open l.now.under ≡ false → IfOk result (λ s. held s ≡ rows_kept l.now.under) }
    ensures counted { (start : ℕ) → Counted start steps.old tally.old.count → Counted start steps.new tally.new.count }
    ensures took { (kept : ℕ → Bool) → plan.KeepsAt at.now kept → IfOk result (λ s. Between 0 (plan.asked_at at.now kept l.now.range.over (env_of env.now)) steps.old steps.new) }
    ensures taken { (kept : ℕ → Bool) → plan.SeeksAt at.now kept → IfOk result (λ s. Between 0 (plan.asked_takings_at at.now kept l.now.range.over (env_of env.now)) tally.old.taken tally.new.taken) }
{
    match l.under {
        Under::Kept(rows) => Ok(Operand::Borrowed(rows)),
        Under::Open(node, behind) => made(evaluated(at.run, node, behind, env, steps, tally)),
        Under::Nothing => Ok(Operand::Borrowed(at.run.tables.none())),
    }
}

// The rows of a select.
#[cycle(rows)]
fn selected<L: Ledger>(
    at: &At<'_>,
    env: &Bindings,
    steps: &mut Steps<L>,
    tally: &mut Tally,
) -> Result<Bag, OutOfMemory>
    requires planned { plan.Planned at.now }
    ensures rows { IfOk result (λ bag. Alike bag (m.rows_by kind.Select (plan.tables_of at.now) at.now.node.now (m.quant_rows at.now.node.now (plan.family at.now)) (env_of env.now))) }
    ensures counted { (start : ℕ) → Counted start steps.old tally.old.count → Counted start steps.new tally.new.count }
    ensures took { (kept : ℕ → Bool) → plan.KeepsAt at.now kept → IfOk result (λ bag. Between 0 (plan.cost_left at.now kept 0 (env_of env.now)) steps.old steps.new) }
    ensures taken { (kept : ℕ → Bool) → plan.SeeksAt at.now kept → at.now.node.now.parts.kind ≡ kind.Select → IfOk result (λ bag. Between 0 (taken_by kept kind.Select at.now.node.now (plan.family at.now) (plan.asked_takings_at at.now kept) (env_of env.now)) tally.old.taken tally.new.taken) }
{
    if all_kept(at.loops) {
        return kept_selected(at, env, &mut tally.taken);
    }
    let mut out = Bag::new(at.run.alloc);
    let added = each(at, 0, Level::Yes, &*env, &mut out, steps, tally);
    once_added(at.node.parts.distinct, added, out)
}

// Adds what a select gives for each combination of rows of its F quantifiers from a place on, each
// row at the lower one of its level and this one.
#[cycle(rows)]
fn each<'x, L: Ledger>(
    at: &At<'_>,
    k: usize,
    level: Level,
    env: &'x Bindings<'x>,
    out: &mut Bag,
    steps: &mut Steps<L>,
    tally: &mut Tally,
) -> Result<(), OutOfMemory>
    requires planned { plan.Planned at.now }
    ensures rows { OnOk result (Alike out.new (out.old ++ keep level (plan.left_at at.now k (env_of env.now)))) }
    ensures counted { (start : ℕ) → Counted start steps.old tally.old.count → Counted start steps.new tally.new.count }
    ensures took { (kept : ℕ → Bool) → plan.KeepsAt at.now kept → OnOk result (Between 0 (at_level level (plan.cost_left at.now kept k (env_of env.now))) steps.old steps.new) }
    ensures taken { (kept : ℕ → Bool) → plan.SeeksAt at.now kept → plan.SoughtAt at.now → OnOk result (Between 0 (at_level level (plan.takings_left at.now kept k (env_of env.now))) tally.old.taken tally.new.taken) }
{
    if is_no(level) {
        return Ok(());
    }
    if rejected(at.run.alloc, at.early, k, env)? {
        return Ok(());
    }
    let Some(l) = at.loops.get(k) else {
        return add_head(at, level, env, out, steps, tally);
    };
    if !l.range.kind.is_f() {
        return each(at, k + 1, level, env, out, steps, tally);
    }
    let source = rows_under(at, l, env, steps, tally)?;
    let rows = source.rows();
    let way = way_under(at, k, l, rows, env)?;
    let mut c = first_of(&way);
    let mut i = c.place();
    while i < way.end {
        let row = rows.at(i);
        if is_taken(at, k, l, row.cells, env)? {
            let level = least(level, row.level);
            take(level, &mut tally.taken);
            let inside = Bindings::Row(l.range.id, row.cells, &*env);
            each(at, k + 1, level, &inside, out, steps, tally)?;
        }
        c = next_of(&way, c);
        i = c.place();
    }
    Ok(())
}

// Adds what a select gives where all its F quantifiers are bound.
#[cycle(rows)]
#[inline(never)]
fn add_head<L: Ledger>(
    at: &At<'_>,
    level: Level,
    env: &Bindings,
    out: &mut Bag,
    steps: &mut Steps<L>,
    tally: &mut Tally,
) -> Result<(), OutOfMemory>
    requires planned { plan.Planned at.now }
    ensures rows { OnOk result (Alike out.new (out.old ++ keep level (m.given_by (m.quant_rows at.now.node.now (plan.family at.now)) at.now.node.now (env_of env.now)))) }
    ensures counted { (start : ℕ) → Counted start steps.old tally.old.count → Counted start steps.new tally.new.count }
    ensures took { (kept : ℕ → Bool) → plan.KeepsAt at.now kept → OnOk result (Between 0 (under_others at.now.node.now.quants (plan.asked_at at.now kept) (env_of env.now)) steps.old steps.new) }
    ensures taken { (kept : ℕ → Bool) → plan.SeeksAt at.now kept → OnOk result (Between 0 (under_others at.now.node.now.quants (plan.asked_takings_at at.now kept) (env_of env.now)) tally.old.taken tally.new.taken) }
{
    let subs = subs(at, env, steps, tally)?;
    add_given(at.run.alloc, at.node, subs.as_slice(), level, env, out)
}

// The rows of a quantifier that binds none, with their index if there is one.
#[cycle(rows)]
fn sub_under<'a, L: Ledger>(
    at: &At<'a>,
    i: usize,
    l: &Loop<'a>,
    env: &Bindings,
    steps: &mut Steps<L>,
    tally: &mut Tally,
) -> Result<SubRows<'a>, OutOfMemory>
    requires planned { plan.Planned at.now }
    requires within { i < length at.now.loops.now }
    requires at { l.now ≡ get_or at.now.loops.now i l.now }
    ensures rows { IfOk result (λ s. Alike (rows_held s) (plan.family at.now l.now.range.over (env_of env.now))) }
    ensures counted { (start : ℕ) → Counted start steps.old tally.old.count → Counted start steps.new tally.new.count }
    ensures took { (kept : ℕ → Bool) → plan.KeepsAt at.now kept → IfOk result (λ s. Between 0 (plan.asked_at at.now kept l.now.range.over (env_of env.now)) steps.old steps.new) }
    ensures taken { (kept : ℕ → Bool) → plan.SeeksAt at.now kept → IfOk result (λ s. Between 0 (plan.asked_takings_at at.now kept l.now.range.over (env_of env.now)) tally.old.taken tally.new.taken) }
{
    if is_open(l.under) {
        return unindexed(rows_under(at, l, env, steps, tally));
    }
    Ok(sub_rows(at, i, l))
}

// What the quantifiers of a box give that bind no rows.
#[cycle(rows)]
fn subs<'a, L: Ledger>(
    at: &At<'a>,
    env: &Bindings,
    steps: &mut Steps<L>,
    tally: &mut Tally,
) -> Result<Vec<Sub<'a>>, OutOfMemory>
    requires planned { plan.Planned at.now }
    ensures rows { IfOk result (λ subs. SubsOf (plan.family at.now) (env_of env.now) (filter isnt_F (plan.ranges at.now.loops.now)) subs.items) }
    ensures counted { (start : ℕ) → Counted start steps.old tally.old.count → Counted start steps.new tally.new.count }
    ensures took { (kept : ℕ → Bool) → plan.KeepsAt at.now kept → IfOk result (λ subs. Between 0 (under_others (plan.ranges at.now.loops.now) (plan.asked_at at.now kept) (env_of env.now)) steps.old steps.new) }
    ensures taken { (kept : ℕ → Bool) → plan.SeeksAt at.now kept → IfOk result (λ subs. Between 0 (under_others (plan.ranges at.now.loops.now) (plan.asked_takings_at at.now kept) (env_of env.now)) tally.old.taken tally.new.taken) }
{
    let mut subs = Vec::new(at.run.alloc);
    for i in 0..at.loops.len() {
        let l = &at.loops[i];
        if !l.range.kind.is_f() {
            let rows = sub_under(at, i, l, env, steps, tally);
            push_sub(&mut subs, l.range.id, rows)?;
        }
    }
    Ok(subs)
}

// The rows of a group box.
#[cycle(rows)]
fn groups<L: Ledger>(
    at: &At<'_>,
    keys: usize,
    env: &Bindings,
    steps: &mut Steps<L>,
    tally: &mut Tally,
) -> Result<Bag, OutOfMemory>
    requires planned { plan.Planned at.now }
    ensures rows { IfOk result (λ bag. Alike bag (m.rows_by (kind.Group keys) (plan.tables_of at.now) at.now.node.now (m.quant_rows at.now.node.now (plan.family at.now)) (env_of env.now))) }
    ensures counted { (start : ℕ) → Counted start steps.old tally.old.count → Counted start steps.new tally.new.count }
    ensures took { (kept : ℕ → Bool) → plan.KeepsAt at.now kept → IfOk result (λ bag. Between 0 (under_each at.now.node.now.quants (plan.asked_at at.now kept) (env_of env.now)) steps.old steps.new) }
    ensures taken { (kept : ℕ → Bool) → plan.SeeksAt at.now kept → IfOk result (λ bag. Between 0 (under_each at.now.node.now.quants (plan.asked_takings_at at.now kept) (env_of env.now)) tally.old.taken tally.new.taken) }
{
    let Some(l) = at.loops.get(0) else {
        return Ok(Bag::new(at.run.alloc));
    };
    let rows = rows_under(at, l, env, steps, tally);
    let head = at.node.parts.head.as_slice();
    grouped(at.run.alloc, keys, head, l.range.id, rows, env)
}

// The rows of a set operation.
#[cycle(rows)]
fn put_together<L: Ledger>(
    at: &At<'_>,
    operator: SetOperator,
    width: usize,
    env: &Bindings,
    steps: &mut Steps<L>,
    tally: &mut Tally,
) -> Result<Bag, OutOfMemory>
    requires planned { plan.Planned at.now }
    ensures rows { IfOk result (λ bag. Alike bag (m.of_two at.now.node.now.quants (λ p q. m.combined operator width (m.quant_rows at.now.node.now (plan.family at.now) p (env_of env.now)) (m.quant_rows at.now.node.now (plan.family at.now) q (env_of env.now))))) }
    ensures counted { (start : ℕ) → Counted start steps.old tally.old.count → Counted start steps.new tally.new.count }
    ensures took { (kept : ℕ → Bool) → plan.KeepsAt at.now kept → IfOk result (λ bag. Between 0 (under_each at.now.node.now.quants (plan.asked_at at.now kept) (env_of env.now)) steps.old steps.new) }
    ensures taken { (kept : ℕ → Bool) → plan.SeeksAt at.now kept → IfOk result (λ bag. Between 0 (under_each at.now.node.now.quants (plan.asked_takings_at at.now kept) (env_of env.now)) tally.old.taken tally.new.taken) }
{
    let [p, q, ..] = at.loops else {
        return Ok(Bag::new(at.run.alloc));
    };
    let xs = rows_under(at, p, env, steps, tally);
    let ys = rows_under(at, q, env, steps, tally);
    combined(at.run.alloc, operator, width, xs, ys)
}

// The index of the right rows of an outer join, if these are kept and it is made already.
fn made_right<'a>(at: &At<'a>, q: &Loop<'_>) -> Option<&'a Hashed<'a>>
    requires planned { plan.Planned at.now }
    requires within { 1 < length at.now.loops.now }
    requires at { q.now ≡ get_or at.now.loops.now 1 q.now }
    ensures { IfSome result (λ h. (is_open q.now.under ≡ false) × Hashes (rejects_on at.now.node.now) q.now.range.id (rows_kept q.now.under) h.now) }
{
    if is_open(q.under) {
        return None;
    }
    match at.right {
        [h, ..] => Some(h),
        [] => None,
    }
}

// The rows of an outer join.
#[cycle(rows)]
fn joined<L: Ledger>(
    at: &At<'_>,
    env: &Bindings,
    steps: &mut Steps<L>,
    tally: &mut Tally,
) -> Result<Bag, OutOfMemory>
    requires planned { plan.Planned at.now }
    ensures rows { IfOk result (λ bag. Alike bag (m.of_two at.now.node.now.quants (m.outer_rows at.now.node.now (m.quant_rows at.now.node.now (plan.family at.now)) (env_of env.now)))) }
    ensures counted { (start : ℕ) → Counted start steps.old tally.old.count → Counted start steps.new tally.new.count }
    ensures took { (kept : ℕ → Bool) → plan.KeepsAt at.now kept → IfOk result (λ bag. Between 0 (under_each at.now.node.now.quants (plan.asked_at at.now kept) (env_of env.now)) steps.old steps.new) }
    ensures taken { (kept : ℕ → Bool) → plan.SeeksAt at.now kept → IfOk result (λ bag. Between 0 (under_each at.now.node.now.quants (plan.asked_takings_at at.now kept) (env_of env.now)) tally.old.taken tally.new.taken) }
{
    let [p, q, ..] = at.loops else {
        return Ok(Bag::new(at.run.alloc));
    };
    let xs = rows_under(at, p, env, steps, tally);
    let ys = rows_under(at, q, env, steps, tally);
    let join = Join {
        node: at.node,
        left: p.range.id,
        right: q.range.id,
        indexed: at.run.indexed,
        made: made_right(at, q),
    };
    outer_joined(at.run.alloc, &join, xs, ys, env)
}
