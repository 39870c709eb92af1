// Selects that give the rows of a box as they are.
ghost use Rattle.std.specs.Prelude.{◌≡◌, ◌∷◌, [], ℕ, Bool, List, IfOk, IfSome, Some, slice_get, true, false};
ghost use Rattle.box_exec.specs.Costs.{Between, Keeps, asked, is_held};
ghost use Rattle.box_exec.specs.Counted.{Counted};
ghost use Rattle.box_exec.specs.HandedOn.{HandsOn, InOrder, base_of, is_wide};
ghost use Rattle.box_exec.specs.Lasting.{AllPlanned};
ghost use Rattle.box_exec.specs.Plans.{SeeksIn};
ghost use Rattle.box_exec.specs.Ready.{Entry, Fit, Held, Ready};
ghost use Rattle.box_exec.specs.Sources.{held};
ghost use Rattle.box_exec.specs.Taken.{taken_by};
ghost use Rattle.box_exec.specs.Takings.{asked_takings};
ghost use Rattle.qgm_core.specs.Kinds as kinds;
ghost use Rattle.qgm_core.specs.declared.kinds.BoxKind.TheVariants as kind;
ghost use Rattle.qgm_meaning.specs.Meaning.{bag_in, rows_of, rows_or_none};
ghost use Rattle.qgm_meaning.specs.Plain.{counted_by};
ghost use Rattle.qgm_meaning.specs.Values.{Environment};
ghost use Rattle.qgm_terms.specs.Shown.{term, terms};
ghost use Rattle.qgm_terms.specs.Terms.{col};
ghost use Rattle.row_bag.specs.Bags.{Alike};
ghost use Rattle.row_bag.specs.Tables.{bag_named};
ghost use Rattle.row_bag.specs.declared.tables.Table.{Table};

use crate::bindings::Bindings;
use crate::boxes::{evaluated, step};
use crate::tally::Tally;
use crate::under::{BoxOver, Run, behind, kept, place_of, table_rows};
use qgm_core::{BoxKind, Node, OwnedQuant};
use qgm_terms::{Gx, QuantId};
use row_bag::{Bag, Operand, Tables};
use shared_types::{OutOfMemory, Text};
use std::alloc::Global;
use std::sync::ledger::Ledger;
use step_count::Steps;

// Whether an expression is this column of the quantifier.
fn is_column(x: &Gx, q: QuantId, k: usize) -> bool
    ensures { result ≡ true → term x.now ≡ col q k }
{
    let Gx::Col(r, column) = x else {
        return false;
    };
    *r == q && *column == k
}

// Whether the expressions are the quantifier's columns from the first on, in order.
fn in_order(list: &[Gx], q: QuantId) -> bool
    ensures { result ≡ true → InOrder q 1 (terms list.now) }
{
    for i in 0..list.len() {
        if !is_column(&list[i], q, i + 1) {
            return false;
        }
    }
    true
}

// Whether a box is a select of all rows.
fn takes_all(node: &Node) -> bool
    ensures kind { result ≡ true → node.now.parts.kind ≡ kind.Select }
    ensures repeated { result ≡ true → kinds.is_enforce node.now.parts.distinct ≡ false }
    ensures unfiltered { result ≡ true → node.now.parts.conds.items ≡ [] }
{
    match &node.parts.kind {
        BoxKind::Select => !node.parts.distinct.is_enforce() && node.parts.conds.len() == 0,
        BoxKind::Base(_) | BoxKind::Group(_) | BoxKind::SetOp(_, _) | BoxKind::OuterJoin => false,
    }
}

// The quantifier whose rows a select hands on.
fn handed_on(node: &Node) -> Option<OwnedQuant>
    ensures { IfSome result (λ r. HandsOn node.now r) }
{
    let [r] = node.quants.as_slice() else {
        return None;
    };
    if takes_all(node) && r.kind.is_f() && in_order(node.parts.head.as_slice(), r.id) {
        Some(*r)
    } else {
        None
    }
}

// The name of the table that a base is.
fn base_name(node: &Node) -> Option<&Text>
    ensures { IfSome result (λ name. base_of node.now.parts.kind ≡ Some name.now) }
{
    match &node.parts.kind {
        BoxKind::Base(table) => Some(&table.name),
        BoxKind::Select | BoxKind::Group(_) | BoxKind::SetOp(_, _) | BoxKind::OuterJoin => None,
    }
}

// Whether each row has so many cells.
fn is_wide(rows: &Bag, width: usize) -> bool
    ensures { result ≡ is_wide width rows.now }
{
    for i in 0..rows.len() {
        if rows.at(i).cells.len() != width {
            return false;
        }
    }
    true
}

// Where the rows that a box hands on are kept.
fn handed_place(memo: &[Option<Operand<'_>>], place: &BoxOver<'_>) -> Option<usize>
    ensures held { IfSome result (λ k. is_held (slice_get memo.now k) ≡ true) }
    ensures entry { (tables : List Table) → Ready tables memo.now place.now.below.now → IfSome result (λ k. Entry tables place.now.node.now place.now.below.now (slice_get memo.now k)) }
{
    let Some(r) = handed_on(place.node) else {
        return None;
    };
    let Some(i) = place_of(place.below, r.over) else {
        return None;
    };
    let k = behind(place.below, i).len();
    let Some(rows) = kept(memo, k) else {
        return None;
    };
    if is_wide(rows, place.node.parts.head.len()) {
        Some(k)
    } else {
        None
    }
}

// The rows at this place, if they are kept and stand elsewhere.
fn borrowed<'t>(memo: &[Option<Operand<'t>>], k: usize) -> Option<&'t Bag>
    ensures { IfSome result (λ rows. Held (slice_get memo.now k) rows.now) }
{
    match memo.get(k) {
        Some(Some(Operand::Borrowed(rows))) => Some(*rows),
        Some(Some(Operand::Made(_))) | Some(None) | None => None,
    }
}

/// The rows that a box hands on, if they are kept and stand elsewhere.
pub(crate) fn lent<'t>(memo: &[Option<Operand<'t>>], place: &BoxOver<'_>) -> Option<&'t Bag>
    ensures { (tables : List Table) → Ready tables memo.now place.now.below.now → IfSome result (λ rows. (env : Environment) → Alike rows.now (rows_of tables place.now.node.now (bag_in tables place.now.below.now) env)) }
{
    let Some(k) = handed_place(memo, place) else {
        return None;
    };
    borrowed(memo, k)
}

// The rows that are kept at this place.
fn taken<'t>(mut memo: Vec<Option<Operand<'t>>>, k: usize) -> Operand<'t>
    requires { is_held (slice_get memo.items k) ≡ true }
    ensures { Held (slice_get memo.entry.items k) (held result) }
{
    let Some(source) = memo.swap_remove(k) else {
        unreachable!()
    };
    source
}

// The rows of the root, which are made of those of the boxes behind it.
fn made_rows<L: Ledger>(
    alloc: Global,
    tables: &Tables,
    memo: &[Option<Operand<'_>>],
    root: &BoxOver<'_>,
    steps: &mut Steps<L>,
    tally: &mut Tally,
) -> Result<Bag, OutOfMemory>
    requires ready { Ready tables.now memo.now root.now.below.now }
    requires fit { Fit root.now.node.now root.now.below.now }
    requires plans { AllPlanned memo.now root.now.plans.now (root.now.node.now ∷ root.now.below.now) }
    ensures rows { IfOk result (λ bag. Alike bag (rows_of tables.now root.now.node.now (bag_in tables.now root.now.below.now) [])) }
    ensures counted { (start : ℕ) → Counted start steps.old tally.old.count → Counted start steps.new tally.new.count }
    ensures took { (kept : ℕ → Bool) → Keeps memo.now kept root.now.below.now → IfOk result (λ bag. Between 1 (counted_by root.now.node.now.parts.kind root.now.node.now (bag_in tables.now root.now.below.now) (asked tables.now kept root.now.below.now) []) steps.old steps.new) }
    ensures taken { (kept : ℕ → Bool) → SeeksIn root.now.indexed memo.now root.now.plans.now kept root.now.node.now root.now.below.now → IfOk result (λ bag. Between 0 (taken_by kept root.now.node.now.parts.kind root.now.node.now (bag_in tables.now root.now.below.now) (asked_takings tables.now kept root.now.below.now) []) tally.old.taken tally.new.taken) }
{
    let run = Run {
        alloc,
        tables,
        memo,
        plans: root.plans,
        indexed: root.indexed,
    };
    evaluated(&run, root.node, root.below, &Bindings::Empty, steps, tally)
}

/// The rows of the root over those of the boxes behind it, one evaluation more. Rows that it hands on
/// are taken out of the memo, and stay where they stand. It fails only for want of memory.
pub(crate) fn root_rows<'t, L: Ledger>(
    alloc: Global,
    tables: &'t Tables,
    memo: Vec<Option<Operand<'t>>>,
    root: &BoxOver<'_>,
    steps: &mut Steps<L>,
    tally: &mut Tally,
) -> Result<Operand<'t>, OutOfMemory>
    requires ready { Ready tables.now memo.items root.now.below.now }
    requires fit { Fit root.now.node.now root.now.below.now }
    requires plans { AllPlanned memo.items root.now.plans.now (root.now.node.now ∷ root.now.below.now) }
    ensures rows { IfOk result (λ r. Alike (held r) (rows_of tables.now root.now.node.now (bag_in tables.now root.now.below.now) [])) }
    ensures counted { (start : ℕ) → Counted start steps.old tally.old.count → Counted start steps.new tally.new.count }
    ensures took { (kept : ℕ → Bool) → Keeps memo.entry.items kept root.now.below.now → IfOk result (λ r. Between 1 (counted_by root.now.node.now.parts.kind root.now.node.now (bag_in tables.now root.now.below.now) (asked tables.now kept root.now.below.now) []) steps.old steps.new) }
    ensures taken { (kept : ℕ → Bool) → SeeksIn root.now.indexed memo.entry.items root.now.plans.now kept root.now.node.now root.now.below.now → IfOk result (λ r. Between 0 (taken_by kept root.now.node.now.parts.kind root.now.node.now (bag_in tables.now root.now.below.now) (asked_takings tables.now kept root.now.below.now) []) tally.old.taken tally.new.taken) }
{
    let Some(k) = handed_place(&memo, root) else {
        let rows = made_rows(alloc, tables, &memo, root, steps, tally)?;
        return Ok(Operand::Made(rows));
    };
    step(steps, tally);
    Ok(taken(memo, k))
}

/// The name of a table whose rows a box hands on.
pub(crate) fn table_handed_on<'g>(
    tables: &Tables,
    node: &'g Node,
    below: &'g [Node],
) -> Option<&'g Text>
    ensures { IfSome result (λ name. (env : Environment) → Alike (rows_or_none (bag_named tables.now name.now)) (rows_of tables.now node.now (bag_in tables.now below.now) env)) }
{
    let Some(r) = handed_on(node) else {
        return None;
    };
    let Some(i) = place_of(below, r.over) else {
        return None;
    };
    let Some(name) = base_name(&below[i]) else {
        return None;
    };
    if is_wide(table_rows(tables, name), node.parts.head.len()) {
        Some(name)
    } else {
        None
    }
}
