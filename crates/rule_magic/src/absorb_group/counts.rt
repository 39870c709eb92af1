// The cells over an outer join of groups: a count is 0 where it is null.
ghost use Rattle.std.specs.Prelude.{◌≡◌, ◌++◌, ◌∷◌, [], IfOk, pos, suc};
ghost use Rattle.qgm_meaning.specs.Tags.{columns_from};
ghost use Rattle.qgm_props.specs.Inferred as facts;
ghost use Rattle.qgm_props.specs.Lists.{is_none};
ghost use Rattle.qgm_terms.specs.Shown.{aggregate, choices, links, term};
ghost use Rattle.qgm_terms.specs.Terms as t;
ghost use Rattle.rule_magic.specs.Boxes as spec;

use crate::heads::columns;
use qgm_terms::{Aggregate, Arm, Gc, Gx, Head, Link, QuantId, both};
use shared_types::OutOfMemory;
use std::alloc::Global;

// Whether an aggregate counts.
fn counts(f: Aggregate) -> bool
    ensures { result ≡ facts.counts (aggregate f) }
{
    match f {
        Aggregate::Count => true,
        Aggregate::Single | Aggregate::Sum | Aggregate::Avg | Aggregate::Min | Aggregate::Max =>
            false,
    }
}

// Whether no operand stands behind the first one.
fn is_alone(list: &[Link]) -> bool
    ensures { result ≡ is_none (links list.now) }
{
    match list {
        [] => true,
        [_, ..] => false,
    }
}

// Whether a cell is a COUNT.
fn is_count(x: &Gx) -> bool
    ensures { result ≡ facts.is_count (term x.now) }
{
    match x {
        Gx::CountAll => true,
        Gx::Fold(f, _, _) => counts(*f),
        Gx::Chain(a, list) => both(is_alone(list), is_count(a)),
        Gx::Int(_)
        | Gx::Text(_)
        | Gx::NullInt
        | Gx::NullText
        | Gx::Col(_, _)
        | Gx::Scalar(_)
        | Gx::Case(_, _)
        | Gx::Neg(_) => false,
    }
}

// 0 where a column is null.
fn zero_at(alloc: Global, q: QuantId, k: usize) -> Result<Vec<Arm>, OutOfMemory>
    ensures { IfOk result (λ v. choices v.items ≡ (record { when = t.is_null (t.col q k); then = t.int (pos 0) }) ∷ []) }
{
    let column = Box::new(alloc, Gx::Col(q, k))?;
    let mut arms = Vec::new(alloc);
    arms.push(Arm {
        when: Gc::IsNull(column),
        then: Gx::Int(0),
    })?;
    Ok(arms)
}

// A column, of a count or not.
#[tactic(auto, using(qgm_terms::proofs::Lists::lists))]
fn count_at(alloc: Global, q: QuantId, k: usize, counts: bool) -> Result<Gx, OutOfMemory>
    ensures { IfOk result (λ x. term x ≡ spec.count_at q k counts) }
{
    if !counts {
        return Ok(Gx::Col(q, k));
    }
    let column = Box::new(alloc, Gx::Col(q, k))?;
    let arms = zero_at(alloc, q, k)?;
    Ok(Gx::Case(arms, column))
}

/// Columns 1 to w of a quantifier, and those of these aggregates behind them. It fails, too, where there
/// are too many to count.
pub fn counted(alloc: Global, q: QuantId, w: usize, cells: &Head) -> Result<Head, OutOfMemory>
    ensures { IfOk result (λ h. h ≡ columns_from q 1 w ++ spec.counted q (suc w) cells.now) }
{
    let mut head = columns(alloc, q, w)?;
    let mut k = w;
    for x in cells.as_slice() {
        if k == usize::MAX {
            return Err(OutOfMemory);
        }
        k += 1;
        let y = count_at(alloc, q, k, is_count(x))?;
        head.push(y)?;
    }
    Ok(head)
}
