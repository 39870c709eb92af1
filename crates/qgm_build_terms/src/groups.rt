// The cells that stand for aggregates, and the heads of the boxes of a grouped block.
ghost use Rattle.std.specs.Prelude.{◌≡◌, ◌++◌, ◌∷◌, [], IfOk, OnOk, map, suc, length};
ghost use Rattle.qgm_terms.specs.Shown.{aggregate, term, terms};
ghost use Rattle.qgm_terms.specs.Terms as t;
ghost use Rattle.qgm_translation.specs.Shown as w;
ghost use Rattle.qgm_build_terms.specs.Folds.{leaf_of};
ghost use Rattle.qgm_build_terms.specs.Written.{frame_of, ref_of};

use crate::boxes::push;
use crate::folds::Fold;
use crate::seen::{Seen, push_seen};
use qgm_core::{Gx, QuantId};
use qgm_terms::{Aggregate, Taken};
use shared_types::OutOfMemory;
use sql_ast::SetFunction;
use std::alloc::Global;

// What an aggregate is where no group is.
fn ungrouped(x: &Fold<'_>) -> Seen
    ensures { ref_of result ∷ [] ≡ w.ungrouped_cells (leaf_of x.now ∷ []) }
{
    match x {
        Fold::CountAll | Fold::Of(SetFunction::Count, _, _) => Seen::NoneCounted,
        Fold::Of(SetFunction::Sum | SetFunction::Avg | SetFunction::Min | SetFunction::Max, _, _) =>
            Seen::Nothing,
    }
}

/// What aggregates are where no group is, which no valid query has.
pub fn ungrouped_cells(alloc: Global, folds: &[Fold<'_>]) -> Result<Vec<Seen>, OutOfMemory>
    ensures { IfOk result (λ v. frame_of v.items ≡ w.ungrouped_cells (map leaf_of folds.now)) }
{
    let mut out = Vec::new(alloc);
    for x in folds {
        push_seen(&mut out, ungrouped(x))?;
    }
    Ok(out)
}

/// The next number. It fails past 2^64, which no list in memory reaches.
pub fn after(n: usize) -> Result<usize, OutOfMemory>
    ensures { IfOk result (λ m. m ≡ suc n) }
{
    n.checked_add(1).ok_or(OutOfMemory)
}

/// The columns of a group box from the j-th on, in which aggregates are seen.
pub fn group_cells(
    alloc: Global,
    u: QuantId,
    j: usize,
    folds: &[Fold<'_>],
) -> Result<Vec<Seen>, OutOfMemory>
    ensures { IfOk result (λ v. frame_of v.items ≡ w.fold_refs u j (map leaf_of folds.now)) }
{
    let mut out = Vec::new(alloc);
    let mut k = j;
    for x in folds {
        let _fold = *x;
        push_seen(&mut out, Seen::At(u, k))?;
        k = after(k)?;
    }
    Ok(out)
}

// Adds an expression.
fn push_term(out: &mut Vec<Gx>, x: Gx) -> Result<(), OutOfMemory>
    ensures { OnOk result (terms out.new.items ≡ terms out.old.items ++ term x ∷ []) }
{
    push(out, x)
}

// The aggregate that a name of SQL stands for.
fn aggregate_of(function: SetFunction) -> Aggregate
    ensures { aggregate result ≡ w.aggregate function }
{
    match function {
        SetFunction::Count => Aggregate::Count,
        SetFunction::Sum => Aggregate::Sum,
        SetFunction::Avg => Aggregate::Avg,
        SetFunction::Min => Aggregate::Min,
        SetFunction::Max => Aggregate::Max,
    }
}

// An aggregate of a column, with DISTINCT where true stands.
fn fold_term(
    alloc: Global,
    function: SetFunction,
    distinct: bool,
    q: QuantId,
    j: usize,
) -> Result<Gx, OutOfMemory>
    ensures { IfOk result (λ x. term x ≡ t.fold (w.aggregate function) (w.taken distinct) (t.col q j)) }
{
    let x = Box::new(alloc, Gx::Col(q, j))?;
    let each = if distinct { Taken::Once } else { Taken::All };
    Ok(Gx::Fold(aggregate_of(function), each, x))
}

/// Adds the aggregates of a group box, whose arguments stand from column j on.
pub fn fold_terms(
    alloc: Global,
    q: QuantId,
    j: usize,
    folds: &[Fold<'_>],
    out: &mut Vec<Gx>,
) -> Result<(), OutOfMemory>
    ensures { OnOk result (terms out.new.items ≡ terms out.old.items ++ w.fold_terms q j (map leaf_of folds.now)) }
{
    let mut k = j;
    for x in folds {
        match x {
            Fold::CountAll => push_term(out, Gx::CountAll)?,
            Fold::Of(function, distinct, _) => {
                let x = fold_term(alloc, *function, *distinct, q, k)?;
                push_term(out, x)?;
                k = after(k)?;
            }
        }
    }
    Ok(())
}

// Where a column of a FROM is seen among the keys.
fn key_ref(u: QuantId, places: &[usize], i: usize) -> Seen
    ensures { ref_of result ≡ w.key_ref u 1 places.now i }
{
    for k in 0..places.len() {
        if i == places[k] {
            return Seen::At(u, k + 1);
        }
    }
    Seen::Nothing
}

/// Where n columns of a FROM are seen, of which the grouping ones are keys.
pub fn key_frame(
    alloc: Global,
    u: QuantId,
    places: &[usize],
    n: usize,
) -> Result<Vec<Seen>, OutOfMemory>
    ensures { IfOk result (λ v. frame_of v.items ≡ w.key_frame u places.now 0 n) }
{
    let mut out = Vec::new(alloc);
    for i in 0..n {
        push_seen(&mut out, key_ref(u, places, i))?;
    }
    Ok(out)
}
