// Expressions and conditions put together of the results of their parts. They fail where a part does.
ghost use Rattle.std.specs.Prelude.{◌≡◌, ◌++◌, ◌∷◌, [], IfOk, IsOkAnd, OnOk};
ghost use Rattle.qgm_terms.specs.Shown.{aggregate, choices, cond, sign, taken, term};
ghost use Rattle.qgm_terms.specs.Terms as t;

use crate::chains::{anded, chained, ored};
use crate::named::QuantId;
use crate::tree::{Aggregate, Arm, Gc, Gx, Op, Sign, Taken};
use shared_types::OutOfMemory;
use std::alloc::Global;

// An expression in a box.
fn boxed(alloc: Global, x: Result<Gx, OutOfMemory>) -> Result<Box<Gx>, OutOfMemory>
    ensures { IfOk result (λ y. IsOkAnd x (λ z. y.value ≡ z)) }
{
    Ok(Box::new(alloc, x?)?)
}

// A condition in a box.
fn boxed_cond(alloc: Global, c: Result<Gc, OutOfMemory>) -> Result<Box<Gc>, OutOfMemory>
    ensures { IfOk result (λ y. IsOkAnd c (λ z. y.value ≡ z)) }
{
    Ok(Box::new(alloc, c?)?)
}

// `- a`
pub(crate) fn neg_of(alloc: Global, a: Result<Gx, OutOfMemory>) -> Result<Gx, OutOfMemory>
    ensures { IfOk result (λ y. IsOkAnd a (λ x. term y ≡ t.minus_of (term x))) }
{
    Ok(Gx::Neg(boxed(alloc, a)?))
}

// An aggregate of the values of `a`.
pub(crate) fn fold_of(
    alloc: Global,
    f: Aggregate,
    each: Taken,
    a: Result<Gx, OutOfMemory>,
) -> Result<Gx, OutOfMemory>
    ensures { IfOk result (λ y. IsOkAnd a (λ x. term y ≡ t.fold (aggregate f) (taken each) (term x))) }
{
    Ok(Gx::Fold(f, each, boxed(alloc, a)?))
}

// A comparison of two operands.
pub(crate) fn compare_of(
    alloc: Global,
    s: Sign,
    a: Result<Gx, OutOfMemory>,
    b: Result<Gx, OutOfMemory>,
) -> Result<Gc, OutOfMemory>
    ensures { IfOk result (λ p. IsOkAnd a (λ x. IsOkAnd b (λ y. cond p ≡ t.compare (sign s) (term x) (term y)))) }
{
    let left = boxed(alloc, a);
    let right = boxed(alloc, b);
    Ok(Gc::Compare(s, left?, right?))
}

// `a IS NULL`
pub(crate) fn is_null_of(alloc: Global, a: Result<Gx, OutOfMemory>) -> Result<Gc, OutOfMemory>
    ensures { IfOk result (λ p. IsOkAnd a (λ x. cond p ≡ t.is_null (term x))) }
{
    Ok(Gc::IsNull(boxed(alloc, a)?))
}

// `NOT c`
pub(crate) fn not_of(alloc: Global, c: Result<Gc, OutOfMemory>) -> Result<Gc, OutOfMemory>
    ensures { IfOk result (λ p. IsOkAnd c (λ x. cond p ≡ t.not (cond x))) }
{
    Ok(Gc::Not(boxed_cond(alloc, c)?))
}

// A condition for a row of an E quantifier.
pub(crate) fn some_of(
    alloc: Global,
    q: QuantId,
    c: Result<Gc, OutOfMemory>,
) -> Result<Gc, OutOfMemory>
    ensures { IfOk result (λ p. IsOkAnd c (λ x. cond p ≡ t.some q (cond x))) }
{
    Ok(Gc::Some(q, boxed_cond(alloc, c)?))
}

// A condition for each row of an A quantifier.
pub(crate) fn every_of(
    alloc: Global,
    q: QuantId,
    c: Result<Gc, OutOfMemory>,
) -> Result<Gc, OutOfMemory>
    ensures { IfOk result (λ p. IsOkAnd c (λ x. cond p ≡ t.every q (cond x))) }
{
    Ok(Gc::Every(q, boxed_cond(alloc, c)?))
}

// `total op next`
pub(crate) fn chained_of(
    alloc: Global,
    total: Result<Gx, OutOfMemory>,
    op: Op,
    next: Result<Gx, OutOfMemory>,
) -> Result<Gx, OutOfMemory>
    ensures { IfOk result (λ y. IsOkAnd total (λ a. IsOkAnd next (λ b. term y ≡ t.both op (term a) (term b)))) }
{
    chained(alloc, total?, op, next?)
}

// `total AND next`
pub(crate) fn anded_of(
    alloc: Global,
    total: Result<Gc, OutOfMemory>,
    next: Result<Gc, OutOfMemory>,
) -> Result<Gc, OutOfMemory>
    ensures { IfOk result (λ p. IsOkAnd total (λ a. IsOkAnd next (λ b. cond p ≡ t.and (cond a) (cond b)))) }
{
    anded(alloc, total?, next?)
}

// `total OR next`
pub(crate) fn ored_of(
    alloc: Global,
    total: Result<Gc, OutOfMemory>,
    next: Result<Gc, OutOfMemory>,
) -> Result<Gc, OutOfMemory>
    ensures { IfOk result (λ p. IsOkAnd total (λ a. IsOkAnd next (λ b. cond p ≡ t.or (cond a) (cond b)))) }
{
    ored(alloc, total?, next?)
}

// A CASE of its arms and its last value.
#[tactic(auto, using(crate::proofs::Lists::lists))]
pub(crate) fn case_of(
    alloc: Global,
    arms: Result<Vec<Arm>, OutOfMemory>,
    last: Result<Gx, OutOfMemory>,
) -> Result<Gx, OutOfMemory>
    ensures { IfOk result (λ y. IsOkAnd arms (λ v. IsOkAnd last (λ x. term y ≡ t.choose (t.armed (choices v.items)) (term x)))) }
{
    let last = boxed(alloc, last);
    Ok(Gx::Case(arms?, last?))
}

// Adds an arm at the end.
pub(crate) fn push_arm(
    all: &mut Vec<Arm>,
    when: Result<Gc, OutOfMemory>,
    then: Result<Gx, OutOfMemory>,
) -> Result<(), OutOfMemory>
    ensures { OnOk result (IsOkAnd when (λ c. IsOkAnd then (λ x. all.new.items ≡ all.old.items ++ (record { when = c; then = x }) ∷ []))) }
{
    all.push(Arm {
        when: when?,
        then: then?,
    })?;
    Ok(())
}
