// What is made once of a box: the conditions that are tested early, and the indexes of rows that are kept.
ghost use Rattle.std.specs.Prelude.{◌≡◌, ◌∷◌, [], ℕ, All, Bool, IfOk, IfSome, false, length, map, true};
ghost use Rattle.std.specs.List.{list_any};
ghost use Rattle.box_exec.specs.Asked as asked;
ghost use Rattle.box_exec.specs.Costs.{Keeps};
ghost use Rattle.box_exec.specs.Early.{is_open, rejects};
ghost use Rattle.box_exec.specs.Hashed as hashed;
ghost use Rattle.box_exec.specs.Indexed.{IsIdleIndex};
ghost use Rattle.box_exec.specs.Lasting as spec;
ghost use Rattle.box_exec.specs.Lookup.{FitsKeys, RejectsBy};
ghost use Rattle.box_exec.specs.Ready.{Ready};
ghost use Rattle.box_exec.specs.Sought.{AllSought, OpensAs};
ghost use Rattle.box_exec.specs.Taken.{in_turn};
ghost use Rattle.box_exec.specs.Takings.{Seeks, order_by};
ghost use Rattle.qgm_core.specs.Boxes.{Ordered};
ghost use Rattle.qgm_core.specs.Kinds.{is_F};
ghost use Rattle.qgm_core.specs.declared.kinds.BoxKind.TheVariants as kind;

use crate::early::{Early, early_conds, is_open};
use crate::hashed::all_kept;
use crate::idle_index::{IdleIndex, indexed_in};
use crate::joining::hashed_right;
use crate::key::{Key, key_in};
use crate::lookup::{Hashed, Keyed, keyed_by};
use crate::order::{Order, are_same, in_turn};
use crate::under::{Loop, Run, Under, kept_rows, loops};
use qgm_core::{BoxKind, Node, QuantId};
use shared_types::OutOfMemory;
use std::alloc::Global;

/// The conditions of a box that are tested before all its quantifiers are bound, and the keys of these with
/// indexes of their rows, or a better order of them; the indexes of rows of its E and A quantifiers, and of the
/// right rows of an outer join.
#[derive(Drop)]
pub(crate) struct Plan<'a> {
    pub early: Vec<Early<'a>>,
    pub keyed: Vec<Option<Keyed<'a>>>,
    pub orders: Vec<Order<'a>>,
    pub idle: Vec<Option<IdleIndex<'a>>>,
    pub right: Vec<Hashed<'a>>,
}

// What the equalities among the conditions that are tested at a place ask of rows of the last quantifier
// that is bound there.
fn keys_of<'a>(
    alloc: Global,
    early: &[Early<'a>],
    place: usize,
    q: QuantId,
) -> Result<Vec<Key<'a>>, OutOfMemory>
    ensures rejects { IfOk result (λ made. All (λ k. RejectsBy (rejects early.now place) q k) made.items) }
    ensures exact { IfOk result (λ made. asked.shown_keys made.items ≡ asked.tested_at early.now place q) }
{
    let mut made = Vec::new(alloc);
    for e in early {
        if e.place == place {
            if let Some(key) = key_in(alloc, e.cond, q)? {
                made.push(key)?;
            }
        }
    }
    Ok(made)
}

// The keys of the quantifier before a place, if it binds rows, and an index of these, if it is asked for.
fn keyed_if<'a>(
    several: bool,
    run: &Run<'_>,
    early: &[Early<'a>],
    place: usize,
    l: &Loop<'_>,
) -> Result<Option<Keyed<'a>>, OutOfMemory>
    ensures fits { IfOk result (λ o. IfSome o (λ k. FitsKeys (rejects early.now place) l.now.range.id (spec.rows_kept l.now.under) k)) }
    ensures made { is_F l.now.range.kind ≡ true → IfOk result (λ o. asked.keys_made o ≡ asked.tested_at early.now place l.now.range.id) }
{
    if !l.range.kind.is_f() {
        return Ok(None);
    }
    let keys = keys_of(run.alloc, early, place, l.range.id)?;
    let indexed = several && !is_open(l.under);
    keyed_by(
        indexed,
        run.alloc,
        keys,
        l.range.id,
        kept_rows(run.tables, l),
    )
}

// Whether a quantifier may bind several rows.
fn may_bind_several(l: &Loop<'_>) -> bool {
    let several = match l.under {
        Under::Kept(rows) => rows.len() > 1,
        Under::Open(_, _) => true,
        Under::Nothing => false,
    };
    l.range.kind.is_f() && several
}

// The keys of each F quantifier of a box. Of one that stands behind several rows of others there is an index; in
// a box that is evaluated again and again, of each.
fn all_keyed<'a>(
    run: &Run<'_>,
    early: &[Early<'a>],
    loops: &[Loop<'_>],
    again: bool,
) -> Result<Vec<Option<Keyed<'a>>>, OutOfMemory>
    ensures keyed { IfOk result (λ made. spec.AllKeyed early.now loops.now made.items) }
    ensures asked { run.now.indexed ≡ true → IfOk result (λ made. asked.AllAsked early.now loops.now made.items) }
{
    if !run.indexed {
        return Ok(Vec::new(run.alloc));
    }
    let mut made = Vec::with_capacity(run.alloc, loops.len())?;
    let mut several = again;
    for i in 0..loops.len() {
        let l = &loops[i];
        let keyed = keyed_if(several, run, early, i + 1, l)?;
        made.push(keyed)?;
        several = several || may_bind_several(l);
    }
    Ok(made)
}

// The index of the rows of an E or A quantifier, if it is asked for and there can be one.
fn idle_if<'a>(
    wanted: bool,
    run: &Run<'_>,
    node: &'a Node,
    l: &Loop<'_>,
) -> Result<Option<IdleIndex<'a>>, OutOfMemory>
    ensures { IfOk result (λ o. IfSome o (λ x. IsIdleIndex (spec.rows_kept l.now.under) x)) }
{
    if !wanted {
        return Ok(None);
    }
    let list = node.parts.conds.as_slice();
    indexed_in(run.alloc, list, l.range.id, kept_rows(run.tables, l))
}

// The index of the rows of each E and A quantifier of a select, where several combinations of rows of the
// others ask for them.
fn all_idle<'a>(
    run: &Run<'_>,
    node: &'a Node,
    over: &[Loop<'_>],
    again: bool,
) -> Result<Vec<Option<IdleIndex<'a>>>, OutOfMemory>
    ensures { IfOk result (λ made. hashed.AllIdleUnder over.now made.items) }
{
    if !run.indexed || !node.parts.kind.is_select() {
        return Ok(Vec::new(run.alloc));
    }
    let mut made = Vec::with_capacity(run.alloc, over.len())?;
    let several = again || over.iter().any(|l| may_bind_several(l));
    for i in 0..over.len() {
        let l = &over[i];
        let index = idle_if(several && !l.range.kind.is_f(), run, node, l)?;
        made.push(index)?;
    }
    Ok(made)
}

// An index alone.
fn one<'a>(alloc: Global, h: Hashed<'a>) -> Result<Vec<Hashed<'a>>, OutOfMemory>
    ensures { IfOk result (λ made. made.items ≡ h.entry ∷ []) }
{
    let mut made = Vec::new(alloc);
    made.push(h)?;
    Ok(made)
}

// The index of the right rows of an outer join that is evaluated again and again, if it has one.
fn right_of<'a>(
    run: &Run<'_>,
    node: &'a Node,
    over: &[Loop<'_>],
    again: bool,
) -> Result<Vec<Hashed<'a>>, OutOfMemory>
    ensures { IfOk result (λ made. All (λ h. hashed.HashesRight node.now over.now h) made.items) }
{
    let [_, q, ..] = over else {
        return Ok(Vec::new(run.alloc));
    };
    if !again || !run.indexed || !is_outer_join(&node.parts.kind) {
        return Ok(Vec::new(run.alloc));
    }
    match hashed_right(run.alloc, node, q.range.id, kept_rows(run.tables, q))? {
        Some(h) => one(run.alloc, h),
        None => Ok(Vec::new(run.alloc)),
    }
}

// Whether a box is an outer join.
fn is_outer_join(kind: &BoxKind) -> bool {
    match kind {
        BoxKind::OuterJoin => true,
        BoxKind::Base(_) | BoxKind::Select | BoxKind::Group(_) | BoxKind::SetOp(_, _) => false,
    }
}

// A better order of the quantifiers of a select over kept boxes than that of its text, if there is one.
fn orders_of<'a>(
    run: &Run<'_>,
    node: &'a Node,
    below: &[Node],
    over: &[Loop<'_>],
    again: bool,
) -> Result<Vec<Order<'a>>, OutOfMemory>
    requires { Ready run.now.tables.now run.now.memo.now below.now }
    ensures orders { IfOk result (λ made. All (λ o. spec.IsOrder node.now (spec.rows_stored run.now.memo.now below.now) o) made.items) }
    ensures text { list_any (λ l. is_open l.under) over.now ≡ true → IfOk result (λ made. made.items ≡ []) }
    ensures turn { run.now.indexed ≡ true → node.now.parts.kind ≡ kind.Select → list_any (λ l. is_open l.under) over.now ≡ false → IfOk result (λ made. order_by node.now made.items ≡ in_turn node.now (length node.now.quants) node.now.quants) }
    ensures keys { run.now.indexed ≡ true → node.now.parts.kind ≡ kind.Select → IfOk result (λ made. All (λ o. AllSought node.now o.ranges.items o.keyed.items) made.items) }
{
    let mut made = Vec::new(run.alloc);
    if !run.indexed || !node.parts.kind.is_select() || !all_kept(over) {
        return Ok(made);
    }
    let ranges = in_turn(run.alloc, node)?;
    if are_same(&ranges, node.quants.as_slice()) {
        return Ok(made);
    }
    let loops = loops(run, &ranges, below)?;
    let early = early_conds(run.alloc, node, &ranges)?;
    let keyed = all_keyed(run, &early, &loops, again)?;
    made.push(Order {
        ranges,
        early,
        keyed,
    })?;
    Ok(made)
}

/// The plan of a box whose quantifiers stand so, which is evaluated once, or again and again. It fails only
/// for want of memory.
pub(crate) fn plan_of<'a>(
    run: &Run<'_>,
    node: &'a Node,
    below: &[Node],
    over: &[Loop<'_>],
    again: bool,
) -> Result<Plan<'a>, OutOfMemory>
    requires ready { Ready run.now.tables.now run.now.memo.now below.now }
    requires ranged { map (λ l. l.range) over.now ≡ node.now.quants }
    requires kept { All (λ l. spec.rows_kept l.under ≡ spec.rows_stored run.now.memo.now below.now l.range.over) over.now }
    ensures fits { IfOk result (λ p. spec.FitsPlan node.now (spec.rows_stored run.now.memo.now below.now) p) }
    ensures seeks { (kept : ℕ → Bool) → run.now.indexed ≡ true → Keeps run.now.memo.now kept below.now → Ordered (node.now ∷ below.now) → All (λ l. OpensAs run.now.memo.now below.now l.range.over l.under) over.now → node.now.parts.kind ≡ kind.Select → IfOk result (λ p. Seeks kept node.now p.keyed.items p.orders.items) }
{
    let orders = orders_of(run, node, below, over, again)?;
    let idle = all_idle(run, node, over, again)?;
    let right = right_of(run, node, over, again)?;
    if !orders.is_empty() {
        return Ok(Plan {
            early: Vec::new(run.alloc),
            keyed: Vec::new(run.alloc),
            orders,
            idle,
            right,
        });
    }
    let early = early_conds(run.alloc, node, node.quants.as_slice())?;
    let keyed = all_keyed(run, &early, over, again)?;
    Ok(Plan {
        early,
        keyed,
        orders,
        idle,
        right,
    })
}
