// Rows of selects over kept boxes, looked up by the hashes of the cells that equalities ask for.
ghost use Rattle.std.specs.Prelude.{◌≡◌, ◌<◌, ◌+◌, ◌++◌, ℕ, Bool, IfOk, IfSome, OnOk, Some, false, get_or, length, filter, not, option_map, slice_get, true};
ghost use Rattle.box_exec.specs.Asked.{keys_at, keys_made};
ghost use Rattle.box_exec.specs.Bound.{env_of};
ghost use Rattle.box_exec.specs.Costs.{Between, at_level};
ghost use Rattle.box_exec.specs.Early.{is_open, rejects};
ghost use Rattle.box_exec.specs.Hashed as spec;
ghost use Rattle.box_exec.specs.Lasting.{IsOrder};
ghost use Rattle.box_exec.specs.Lookup as lookup;
ghost use Rattle.box_exec.specs.Plans as plan;
ghost use Rattle.box_exec.specs.Ready.{Fit, SubsOf, isnt_F};
ghost use Rattle.box_exec.specs.Sources.{rows_held};
ghost use Rattle.box_exec.specs.Sought.{AllSought};
ghost use Rattle.box_exec.specs.Taken.{bound_order, takes, ways};
ghost use Rattle.qgm_core.specs.Kinds.{is_enforce};
ghost use Rattle.qgm_core.specs.declared.kinds.BoxKind.TheVariants as kind;
ghost use Rattle.qgm_meaning.specs.Meaning as m;
ghost use Rattle.qgm_meaning.specs.Values.{Environment, bound};
ghost use Rattle.row_bag.specs.Bags.{Alike, keep};
ghost use Rattle.std.specs.List.{list_any};

use crate::bindings::Bindings;
use crate::boxes::At;
use crate::early::{is_none, is_open, rejected};
use crate::heads::{add_given, once_added};
use crate::idle_index::IdleIndex;
use crate::indexed_rows::IndexedRows;
use crate::lookup::{Keyed, all_rows, keyed_way, takes as keys_take};
use crate::order::Order;
use crate::source::{Sub, SubRows};
use crate::tally::take;
use crate::under::{Loop, kept_rows, loops};
use row_bag::{Bag, Operand};
use row_index::{Way, first_of, next_of};
use shared_types::OutOfMemory;
use sql_value::{Cell, Level, least};

/// A select whose quantifiers all stand on kept rows, and the rows of those that bind none.
#[derive(Clone, Copy)]
pub(crate) struct Whole<'a> {
    pub at: &'a At<'a>,
    pub subs: &'a [Sub<'a>],
}

// The keys of the quantifier at a place, if there are any.
fn keyed_at<'a>(keyed: &'a [Option<Keyed<'a>>], i: usize) -> Option<&'a Keyed<'a>>
    ensures there { IfSome result (λ k. slice_get keyed.now i ≡ Some (Some k.now)) }
    ensures keys { keys_made (option_map (λ k. k.now) result) ≡ keys_at keyed.now i }
{
    match keyed.get(i) {
        Some(Some(k)) => Some(k),
        Some(None) | None => None,
    }
}

// The way through the rows that are kept under the quantifier at a place.
fn way_of<'a>(at: &At<'a>, i: usize, l: &Loop<'_>, env: &Bindings) -> Result<Way<'a>, OutOfMemory>
    requires bound { plan.Bound at.now }
    requires within { i < length at.now.loops.now }
    requires at { l.now ≡ get_or at.now.loops.now i l.now }
    ensures { IfOk result (λ way. spec.LeadsAt at.now i l.now (env_of env.now) way) }
{
    let end = kept_rows(at.run.tables, l).len();
    match keyed_at(at.keyed, i) {
        Some(k) => keyed_way(at.run.alloc, k, end, env),
        None => Ok(all_rows(end)),
    }
}

/// The way through the rows under the quantifier at a place: past none where its box is evaluated anew. It
/// fails only for want of memory.
pub(crate) fn way_under<'a>(
    at: &At<'a>,
    i: usize,
    l: &Loop<'_>,
    rows: &Bag,
    env: &Bindings,
) -> Result<Way<'a>, OutOfMemory>
    requires planned { plan.Planned at.now }
    requires within { i < length at.now.loops.now }
    requires at { l.now ≡ get_or at.now.loops.now i l.now }
    requires kept { is_open l.now.under ≡ false → rows.now ≡ spec.rows_kept l.now.under }
    ensures { IfOk result (λ way. lookup.Leads (rejects at.now.early.now (i + 1)) l.now.range.id rows.now (env_of env.now) way) }
{
    if is_open(l.under) {
        return Ok(all_rows(rows.len()));
    }
    way_of(at, i, l, env)
}

/// Whether a row under the quantifier at a place is taken: of a box that is evaluated anew each is, of a kept one
/// those that its keys take. It fails only for want of memory.
pub(crate) fn is_taken(
    at: &At<'_>,
    i: usize,
    l: &Loop<'_>,
    cells: &[Cell],
    env: &Bindings,
) -> Result<bool, OutOfMemory>
    requires bound { plan.Bound at.now }
    requires within { i < length at.now.loops.now }
    requires at { l.now ≡ get_or at.now.loops.now i l.now }
    ensures passed { IfOk result (λ b. b ≡ false → rejects at.now.early.now (i + 1) (bound l.now.range.id cells.now (env_of env.now)) ≡ true) }
    ensures taken { is_open l.now.under ≡ false → IfOk result (λ b. b ≡ takes (keys_at at.now.keyed.now i) l.now.range.id (env_of env.now) cells.now) }
{
    if is_open(l.under) {
        return Ok(true);
    }
    match keyed_at(at.keyed, i) {
        Some(k) => keys_take(at.run.alloc, &k.keys, l.range.id, cells, env),
        None => Ok(true),
    }
}

// Adds what a select gives for each combination of rows of its F quantifiers from a place on, each
// row at the lower one of its level and this one.
fn over_kept<'x>(
    whole: &Whole<'_>,
    place: usize,
    level: Level,
    env: &'x Bindings<'x>,
    out: &mut Bag,
    taken: &mut u64,
) -> Result<(), OutOfMemory>
    requires { spec.KeptPlan whole.now }
    ensures rows { OnOk result (Alike out.new (out.old ++ keep level (plan.left_at whole.now.at.now place (env_of env.now)))) }
    ensures took { (closed : ℕ → Bool) → plan.SoughtAt whole.now.at.now → OnOk result (Between 0 (at_level level (plan.ways_left whole.now.at.now closed place (env_of env.now))) taken.old taken.new) }
{
    let at = whole.at;
    if is_none(level) {
        return Ok(());
    }
    if rejected(at.run.alloc, at.early, place, env)? {
        return Ok(());
    }
    let Some(l) = at.loops.get(place) else {
        return add_given(at.run.alloc, at.node, whole.subs, level, env, out);
    };
    if !l.range.kind.is_f() {
        return over_kept(whole, place + 1, level, env, out, taken);
    }
    let rows = kept_rows(at.run.tables, l);
    let way = way_of(at, place, l, env)?;
    let mut c = first_of(&way);
    let mut i = c.place();
    while i < way.end {
        let row = rows.at(i);
        if is_taken(at, place, l, row.cells, env)? {
            let level = least(level, row.level);
            take(level, taken);
            let inside = Bindings::Row(l.range.id, row.cells, &*env);
            over_kept(whole, place + 1, level, &inside, out, taken)?;
        }
        c = next_of(&way, c);
        i = c.place();
    }
    Ok(())
}

// The index of the rows of an E or A quantifier at a place, if there is one.
fn index_at<'a>(idle: &'a [Option<IdleIndex<'a>>], i: usize) -> Option<&'a IdleIndex<'a>>
    ensures { IfSome result (λ x. slice_get idle.now i ≡ Some (Some x.now)) }
{
    match idle.get(i) {
        Some(Some(index)) => Some(index),
        Some(None) | None => None,
    }
}

/// The rows that are kept under the quantifier at a place, with their index if there is one.
pub(crate) fn sub_rows<'a>(at: &At<'a>, i: usize, l: &Loop<'a>) -> SubRows<'a>
    requires { spec.IdleUnder at.now.idle.now i l.now.under }
    ensures { rows_held result ≡ spec.rows_kept l.now.under }
{
    let rows = kept_rows(at.run.tables, l);
    match index_at(at.idle, i) {
        Some(index) => SubRows::Indexed(IndexedRows::new(rows, index)),
        None => SubRows::Plain(Operand::Borrowed(rows)),
    }
}

// The rows of the quantifiers that bind none.
fn kept_subs<'a>(at: &At<'a>) -> Result<Vec<Sub<'a>>, OutOfMemory>
    requires planned { plan.Planned at.now }
    requires kept { spec.AllKept at.now.loops.now }
    ensures { IfOk result (λ subs. (env : Environment) → SubsOf (plan.family at.now) env (filter isnt_F (plan.ranges at.now.loops.now)) subs.items) }
{
    let mut subs = Vec::new(at.run.alloc);
    for i in 0..at.loops.len() {
        let l = &at.loops[i];
        if !l.range.kind.is_f() {
            let rows = sub_rows(at, i, l);
            subs.push(Sub {
                quant: l.range.id,
                rows,
            })?;
        }
    }
    Ok(subs)
}

// Whether a box under these quantifiers is evaluated anew.
fn any_open(loops: &[Loop<'_>]) -> bool
    ensures { result ≡ list_any (λ l. is_open l.under) loops.now }
{
    loops.iter().any(|l| is_open(l.under))
}

/// Whether no box under these quantifiers is evaluated anew.
pub(crate) fn all_kept(loops: &[Loop<'_>]) -> bool
    ensures kept { result ≡ true → spec.AllKept loops.now }
    ensures exact { result ≡ not (list_any (λ l. is_open l.under) loops.now) }
{
    !any_open(loops)
}

// The rows of a select whose quantifiers are bound in this order, over the rows of those that bind none.
fn bound_in_order(
    at: &At<'_>,
    subs: &[Sub<'_>],
    env: &Bindings,
    taken: &mut u64,
) -> Result<Bag, OutOfMemory>
    requires bound { plan.Bound at.now }
    requires fit { Fit at.now.node.now at.now.below.now }
    requires kept { spec.AllKept at.now.loops.now }
    requires subs { (e : Environment) → SubsOf (plan.family at.now) e (filter isnt_F at.now.node.now.quants) subs.now }
    ensures rows { IfOk result (λ bag. Alike bag (m.once_if (is_enforce at.now.node.now.parts.distinct) (plan.left_at at.now 0 (env_of env.now)))) }
    ensures took { (closed : ℕ → Bool) → plan.SoughtAt at.now → IfOk result (λ bag. Between 0 (plan.ways_left at.now closed 0 (env_of env.now)) taken.old taken.new) }
{
    let whole = Whole {
        at: &*at,
        subs: &*subs,
    };
    let mut out = Bag::new(at.run.alloc);
    let added = over_kept(&whole, 0, Level::Yes, &*env, &mut out, taken);
    once_added(at.node.parts.distinct, added, out)
}

// The rows of a select whose quantifiers are bound in another order.
fn reordered_selected(
    at: &At<'_>,
    order: &Order<'_>,
    subs: &[Sub<'_>],
    env: &Bindings,
    taken: &mut u64,
) -> Result<Bag, OutOfMemory>
    requires planned { plan.Planned at.now }
    requires kept { spec.AllKept at.now.loops.now }
    requires order { IsOrder at.now.node.now (plan.stored at.now) order.now }
    requires subs { (e : Environment) → SubsOf (plan.family at.now) e (filter isnt_F at.now.node.now.quants) subs.now }
    ensures rows { IfOk result (λ bag. Alike bag (m.once_if (is_enforce at.now.node.now.parts.distinct) (plan.left_at at.now 0 (env_of env.now)))) }
    ensures took { (kept : ℕ → Bool) → plan.SeeksAt at.now kept → AllSought at.now.node.now order.now.ranges.items order.now.keyed.items → IfOk result (λ bag. Between 0 (ways kept at.now.node.now order.now.ranges.items (plan.family at.now) (env_of env.now)) taken.old taken.new) }
{
    let loops = loops(at.run, &order.ranges, at.below)?;
    if !all_kept(&loops) {
        return bound_in_order(at, subs, env, taken);
    }
    let other = At {
        run: &*at.run,
        node: &*at.node,
        below: &*at.below,
        loops: &loops,
        early: &order.early,
        keyed: &order.keyed,
        orders: &[],
        idle: at.idle,
        right: at.right,
    };
    bound_in_order(&other, subs, env, taken)
}

/// The rows of a select whose quantifiers all stand on kept rows. It fails only for want of memory.
#[inline(never)]
pub(crate) fn kept_selected(
    at: &At<'_>,
    env: &Bindings,
    taken: &mut u64,
) -> Result<Bag, OutOfMemory>
    requires planned { plan.Planned at.now }
    requires kept { spec.AllKept at.now.loops.now }
    ensures rows { IfOk result (λ bag. Alike bag (m.rows_by kind.Select (plan.tables_of at.now) at.now.node.now (m.quant_rows at.now.node.now (plan.family at.now)) (env_of env.now))) }
    ensures took { (kept : ℕ → Bool) → plan.SeeksAt at.now kept → at.now.node.now.parts.kind ≡ kind.Select → IfOk result (λ bag. Between 0 (ways kept at.now.node.now (bound_order kept at.now.node.now) (plan.family at.now) (env_of env.now)) taken.old taken.new) }
{
    let subs = kept_subs(at)?;
    match at.orders {
        [order, ..] => reordered_selected(at, order, &subs, env, taken),
        [] => bound_in_order(at, &subs, env, taken),
    }
}
