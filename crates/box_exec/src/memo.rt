// The rows of closed boxes, each evaluated once.
ghost use Rattle.std.specs.Prelude.{◌≡◌, ◌&&◌, ◌∷◌, [], ℕ, Bool, IfOk, Some, if◌then◌else◌, true};
ghost use Rattle.box_exec.specs.Beyond.{LooksNowhere};
ghost use Rattle.box_exec.specs.Costs.{Between, Keeps, asked, is_held};
ghost use Rattle.box_exec.specs.Counted.{Counted};
ghost use Rattle.box_exec.specs.Kept.{KeptAs, is_nil, kept_costs, kept_number};
ghost use Rattle.box_exec.specs.Lasting.{AllPlanned, PlanFits};
ghost use Rattle.box_exec.specs.Plans as plan;
ghost use Rattle.box_exec.specs.Ready.{AllFit, Entry, Fit, Holds, Ready};
ghost use Rattle.box_exec.specs.Taken.{taken_by};
ghost use Rattle.box_exec.specs.Takings.{AllSeek, PlanSeeks, asked_takings, kept_takings};
ghost use Rattle.qgm_core.specs.Boxes.{Ordered};
ghost use Rattle.qgm_core.specs.declared.node.Node.{Node};
ghost use Rattle.list_laws.specs.Lists.{holds};
ghost use Rattle.qgm_meaning.specs.Meaning.{bag_in};
ghost use Rattle.qgm_meaning.specs.Plain.{counted_by};

use crate::beyond::beyond;
use crate::bindings::Bindings;
use crate::boxes::{evaluated, step};
use crate::handed_on::lent;
use crate::plan::{Plan, plan_of};
use crate::tally::Tally;
use crate::under::{BoxOver, Run, behind, loops, table_rows};
use qgm_core::{BoxId, BoxKind, Marks, Node, QuantId};
use row_bag::{Operand, Tables};
use shared_types::OutOfMemory;
use std::alloc::Global;
use std::sync::ledger::Ledger;
use step_count::Steps;

// The rows of a box that looks no quantifier up: a table's where they stand, of a box that hands such
// rows on too, or made.
fn entry<'t, L: Ledger>(
    alloc: Global,
    tables: &'t Tables,
    memo: &[Option<Operand<'t>>],
    place: &BoxOver<'_>,
    steps: &mut Steps<L>,
    tally: &mut Tally,
) -> Result<Operand<'t>, OutOfMemory>
    requires ready { Ready tables.now memo.now place.now.below.now }
    requires fit { Fit place.now.node.now place.now.below.now }
    requires closed { LooksNowhere place.now.node.now place.now.below.now }
    requires plans { AllPlanned memo.now place.now.plans.now (place.now.node.now ∷ place.now.below.now) }
    ensures rows { IfOk result (λ s. Holds tables.now place.now.node.now place.now.below.now s) }
    ensures counted { (start : ℕ) → Counted start steps.old tally.old.count → Counted start steps.new tally.new.count }
    ensures took { (kept : ℕ → Bool) → Keeps memo.now kept place.now.below.now → IfOk result (λ s. Between 1 (counted_by place.now.node.now.parts.kind place.now.node.now (bag_in tables.now place.now.below.now) (asked tables.now kept place.now.below.now) []) steps.old steps.new) }
    ensures taken { (kept : ℕ → Bool) → plan.SeeksIn place.now.indexed memo.now place.now.plans.now kept place.now.node.now place.now.below.now → IfOk result (λ s. Between 0 (taken_by kept place.now.node.now.parts.kind place.now.node.now (bag_in tables.now place.now.below.now) (asked_takings tables.now kept place.now.below.now) []) tally.old.taken tally.new.taken) }
{
    match &place.node.parts.kind {
        BoxKind::Base(table) => {
            step(steps, tally);
            Ok(Operand::Borrowed(table_rows(tables, &table.name)))
        }
        BoxKind::Select | BoxKind::Group(_) | BoxKind::SetOp(_, _) | BoxKind::OuterJoin => {
            if let Some(rows) = lent(memo, place) {
                step(steps, tally);
                return Ok(Operand::Borrowed(rows));
            }
            let run = Run {
                alloc,
                tables,
                memo,
                plans: place.plans,
                indexed: place.indexed,
            };
            let rows = evaluated(
                &run,
                place.node,
                place.below,
                &Bindings::Empty,
                steps,
                tally,
            )?;
            Ok(Operand::Made(rows))
        }
    }
}

// The rows of a box, if it is to be kept.
fn entry_if<'t, L: Ledger>(
    keep: bool,
    alloc: Global,
    tables: &'t Tables,
    memo: &[Option<Operand<'t>>],
    place: &BoxOver<'_>,
    steps: &mut Steps<L>,
    tally: &mut Tally,
) -> Result<Option<Operand<'t>>, OutOfMemory>
    requires ready { Ready tables.now memo.now place.now.below.now }
    requires fit { Fit place.now.node.now place.now.below.now }
    requires closed { keep ≡ true → LooksNowhere place.now.node.now place.now.below.now }
    requires plans { AllPlanned memo.now place.now.plans.now (place.now.node.now ∷ place.now.below.now) }
    ensures rows { IfOk result (λ o. Entry tables.now place.now.node.now place.now.below.now (Some o)) }
    ensures counted { (start : ℕ) → Counted start steps.old tally.old.count → Counted start steps.new tally.new.count }
    ensures held { IfOk result (λ o. is_held (Some o) ≡ keep) }
    ensures took { (kept : ℕ → Bool) → Keeps memo.now kept place.now.below.now → IfOk result (λ o. Between (if keep then 1 else 0) (if keep then counted_by place.now.node.now.parts.kind place.now.node.now (bag_in tables.now place.now.below.now) (asked tables.now kept place.now.below.now) [] else 0) steps.old steps.new) }
    ensures taken { (kept : ℕ → Bool) → plan.SeeksIn place.now.indexed memo.now place.now.plans.now kept place.now.node.now place.now.below.now → IfOk result (λ o. Between 0 (if keep then taken_by kept place.now.node.now.parts.kind place.now.node.now (bag_in tables.now place.now.below.now) (asked_takings tables.now kept place.now.below.now) [] else 0) tally.old.taken tally.new.taken) }
{
    if keep {
        let rows = entry(alloc, tables, memo, place, steps, tally)?;
        Ok(Some(rows))
    } else {
        Ok(None)
    }
}

// A box is kept if it is marked and names nothing beyond itself.
fn is_kept(names: &[QuantId], marks: &Marks, b: BoxId) -> bool
    ensures nothing { result ≡ true → names.now ≡ [] }
    ensures kept { result ≡ (is_nil names.now && holds b marks.now) }
{
    match names {
        [] => marks.has(b),
        [_, ..] => false,
    }
}

// The plan of a box, if it is to be evaluated again and again.
fn plan_if<'n>(
    again: bool,
    run: &Run<'_>,
    node: &'n Node,
    below: &[Node],
) -> Result<Option<Plan<'n>>, OutOfMemory>
    requires { Ready run.now.tables.now run.now.memo.now below.now }
    ensures fits { IfOk result (λ o. PlanFits run.now.memo.now node.now below.now (Some o)) }
    ensures seeks { (kept : ℕ → Bool) → run.now.indexed ≡ true → Keeps run.now.memo.now kept below.now → Ordered (node.now ∷ below.now) → IfOk result (λ o. PlanSeeks kept node.now (Some o)) }
{
    if !again {
        return Ok(None);
    }
    let loops = loops(run, node.quants.as_slice(), below)?;
    let plan = plan_of(run, node, below, &loops, true)?;
    Ok(Some(plan))
}

/// The rows of those of these boxes that are marked and name nothing beyond themselves, each evaluated
/// once, from the last; and the plans of the other marked boxes. It fails only for want of memory.
pub(crate) fn memo_of<'t, 'n, L: Ledger>(
    alloc: Global,
    nodes: &'n [Node],
    tables: &'t Tables,
    marks: &Marks,
    indexed: bool,
    steps: &mut Steps<L>,
    tally: &mut Tally,
) -> Result<(Vec<Option<Operand<'t>>>, Vec<Option<Plan<'n>>>), OutOfMemory>
    requires { AllFit nodes.now }
    ensures ready { IfOk result (λ made. Ready tables.now made.0.items nodes.now) }
    ensures plans { (n : Node) → IfOk result (λ made. AllPlanned made.0.items made.1.items (n ∷ nodes.now)) }
    ensures counted { (start : ℕ) → Counted start steps.old tally.old.count → Counted start steps.new tally.new.count }
    ensures keeps { (kept : ℕ → Bool) → KeptAs kept marks.now nodes.now → IfOk result (λ made. Keeps made.0.items kept nodes.now) }
    ensures took { (kept : ℕ → Bool) → KeptAs kept marks.now nodes.now → IfOk result (λ made. Between (kept_number kept nodes.now) (kept_costs tables.now kept nodes.now) steps.old steps.new) }
    ensures seeks { (kept : ℕ → Bool) → KeptAs kept marks.now nodes.now → indexed ≡ true → Ordered nodes.now → (n : Node) → IfOk result (λ made. AllSeek kept made.1.items (n ∷ nodes.now)) }
    ensures taken { (kept : ℕ → Bool) → KeptAs kept marks.now nodes.now → indexed ≡ true → Ordered nodes.now → IfOk result (λ made. Between 0 (kept_takings tables.now kept nodes.now) tally.old.taken tally.new.taken) }
{
    let mut named: Vec<Vec<QuantId>> = Vec::new(alloc);
    let mut memo = Vec::new(alloc);
    let mut plans = Vec::new(alloc);
    let mut i = nodes.len();
    'boxes: while i > 0 {
        i -= 1;
        let node = &nodes[i];
        let below = behind(nodes, i);
        let place = BoxOver {
            node,
            below,
            plans: &plans,
            indexed,
        };
        let names = beyond(alloc, node, below, &named)?;
        let keep = is_kept(&names, marks, node.id);
        let rows = entry_if(keep, alloc, tables, &memo, &place, steps, tally)?;
        let run = Run {
            alloc,
            tables,
            memo: &memo,
            plans: &plans,
            indexed,
        };
        let again = !keep && marks.has(node.id);
        let plan = plan_if(again, &run, node, below)?;
        named.push(names)?;
        memo.push(rows)?;
        plans.push(plan)?;
    }
    Ok((memo, plans))
}
