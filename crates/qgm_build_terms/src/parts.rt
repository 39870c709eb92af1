// Expressions and conditions from their own parts, abbreviations written out.
ghost use Rattle.std.specs.Prelude.{◌≡◌, ◌∷◌, ◌++◌, [], IfOk, IsOkAnd, OnOk, map};
ghost use Rattle.sql_meaning.specs.ResolvedShown as meant;
ghost use Rattle.qgm_terms.specs.Shown.{choices, cond, conds, sign, term, terms};
ghost use Rattle.qgm_terms.specs.Terms as t;
ghost use Rattle.qgm_translation.specs.Maps.{ref_term};
ghost use Rattle.qgm_translation.specs.Terms as shown;
ghost use Rattle.qgm_build_terms.specs.Parts as spec;
ghost use Rattle.qgm_build_terms.specs.Opened.{open_choice, open_of, opened};
ghost use Rattle.qgm_translation.specs.Typing.{typed_by};
ghost use Rattle.qgm_build_terms.specs.Written.{ref_of};

use crate::boxes::{boxed, boxed_made, paired, push, push_made, take_first};
use crate::seen::Seen;
use crate::types::type_of;
use qgm_terms::{Arm, Gc, Gx, Op, QuantId, ROOM, Sign, anded, chained, copy};
use shared_types::{CmpOp, OutOfMemory, Text};
use sql_ast::{AdditiveOp, MultiplicativeOp, Quantifier};
use sql_meaning::Value;
use sql_value::SqlType;
use sqlite_items::Items;
use std::alloc::Global;

/// A condition of a CASE and its result; none stands for a NULL without a type of its own.
#[derive(Drop)]
pub(crate) struct OpenArm {
    pub when: Box<Gc>,
    pub then: Option<Box<Gx>>,
}

/// A number.
pub(crate) fn number(alloc: Global, n: i64) -> Result<Box<Gx>, OutOfMemory>
    ensures { IfOk result (λ y. term y.value ≡ t.int n) }
{
    boxed(alloc, Gx::Int(n))
}

/// A text.
pub(crate) fn text(alloc: Global, x: &Text) -> Result<Box<Gx>, OutOfMemory>
    ensures { IfOk result (λ y. term y.value ≡ t.text x.now) }
{
    let x = x.copy(alloc)?;
    boxed(alloc, Gx::Text(x))
}

/// NULL of a type.
pub(crate) fn null_as(alloc: Global, of: SqlType) -> Result<Box<Gx>, OutOfMemory>
    ensures { IfOk result (λ y. term y.value ≡ shown.null_as of) }
{
    match of {
        SqlType::Integer => boxed(alloc, Gx::NullInt),
        SqlType::Varchar => boxed(alloc, Gx::NullText),
    }
}

/// NULL of the type of a CAST.
pub(crate) fn null_of(alloc: Global, of: Option<SqlType>) -> Result<Box<Gx>, OutOfMemory>
    ensures { IfOk result (λ y. term y.value ≡ shown.null_of of) }
{
    match of {
        Some(of) => null_as(alloc, of),
        None => boxed(alloc, Gx::NullInt),
    }
}

/// What is seen, as an expression.
pub fn seen_term(x: Seen) -> Gx
    ensures { term result ≡ ref_term (ref_of x) }
{
    match x {
        Seen::Nothing => Gx::NullInt,
        Seen::NoneCounted => Gx::Int(0),
        Seen::At(q, k) => Gx::Col(q, k),
    }
}

/// What is seen, as an expression in a box.
pub(crate) fn seen(alloc: Global, x: Seen) -> Result<Box<Gx>, OutOfMemory>
    ensures { IfOk result (λ y. term y.value ≡ ref_term (ref_of x)) }
{
    boxed(alloc, seen_term(x))
}

/// The value of the one row of a quantifier.
pub(crate) fn scalar(alloc: Global, q: QuantId) -> Result<Box<Gx>, OutOfMemory>
    ensures { IfOk result (λ y. term y.value ≡ t.scalar q) }
{
    boxed(alloc, Gx::Scalar(q))
}

// A copy of an expression.
fn copied(alloc: Global, x: &Gx) -> Result<Box<Gx>, OutOfMemory>
    ensures { IfOk result (λ y. term y.value ≡ term x.now) }
{
    boxed_made(alloc, copy(alloc, x, ROOM))
}

// A copy of an expression that was made.
fn again(alloc: Global, x: &Result<Box<Gx>, OutOfMemory>) -> Result<Box<Gx>, OutOfMemory>
    ensures { IfOk result (λ y. IsOkAnd x.now (λ a. term y.value ≡ term a.value)) }
{
    match x {
        Ok(x) => copied(alloc, x),
        Err(_) => Err(OutOfMemory),
    }
}

/// The operator of a sum.
pub(crate) fn additive(op: AdditiveOp) -> Op
    ensures { result ≡ shown.additive op }
{
    match op {
        AdditiveOp::Plus => Op::Add,
        AdditiveOp::Minus => Op::Sub,
        AdditiveOp::Concat => Op::Cat,
    }
}

/// The operator of a product.
pub(crate) fn multiplicative(op: MultiplicativeOp) -> Op
    ensures { result ≡ shown.multiplicative op }
{
    match op {
        MultiplicativeOp::Times => Op::Mul,
        MultiplicativeOp::Divide => Op::Div,
    }
}

/// `total op next`.
pub(crate) fn longer(
    alloc: Global,
    total: Result<Box<Gx>, OutOfMemory>,
    op: Op,
    next: Result<Box<Gx>, OutOfMemory>,
) -> Result<Box<Gx>, OutOfMemory>
    ensures { IfOk result (λ y. IsOkAnd total (λ a. IsOkAnd next (λ b. term y.value ≡ t.both op (term a.value) (term b.value)))) }
{
    let (total, next) = paired(total, next)?;
    boxed_made(
        alloc,
        chained(alloc, Box::into_inner(total), op, Box::into_inner(next)),
    )
}

/// `- x`.
pub(crate) fn negative(
    alloc: Global,
    x: Result<Box<Gx>, OutOfMemory>,
) -> Result<Box<Gx>, OutOfMemory>
    ensures { IfOk result (λ y. IsOkAnd x (λ a. term y.value ≡ t.minus_of (term a.value))) }
{
    boxed(alloc, Gx::Neg(x?))
}

// The sign of a comparison.
fn sign_of(op: CmpOp) -> Sign
    ensures { sign result ≡ shown.sign op }
{
    match op {
        CmpOp::Eq => Sign::Eq,
        CmpOp::Ne => Sign::Ne,
        CmpOp::Lt => Sign::Lt,
        CmpOp::Le => Sign::Le,
        CmpOp::Gt => Sign::Gt,
        CmpOp::Ge => Sign::Ge,
    }
}

/// A comparison.
pub(crate) fn compare(
    alloc: Global,
    op: CmpOp,
    x: Result<Box<Gx>, OutOfMemory>,
    y: Result<Box<Gx>, OutOfMemory>,
) -> Result<Box<Gc>, OutOfMemory>
    ensures { IfOk result (λ p. IsOkAnd x (λ a. IsOkAnd y (λ b. cond p.value ≡ t.compare (shown.sign op) (term a.value) (term b.value)))) }
{
    let (x, y) = paired(x, y)?;
    boxed(alloc, Gc::Compare(sign_of(op), x, y))
}

/// `x = y`, of copies of x and of a whole y.
pub(crate) fn equal_copy(
    alloc: Global,
    x: &Gx,
    y: Result<Box<Gx>, OutOfMemory>,
) -> Result<Box<Gc>, OutOfMemory>
    ensures { IfOk result (λ p. IsOkAnd y (λ b. cond p.value ≡ t.compare t.equal (term x.now) (term b.value))) }
{
    compare(alloc, CmpOp::Eq, copied(alloc, x), y)
}

/// `x LIKE y`.
pub(crate) fn like(
    alloc: Global,
    x: Result<Box<Gx>, OutOfMemory>,
    y: Result<Box<Gx>, OutOfMemory>,
) -> Result<Box<Gc>, OutOfMemory>
    ensures { IfOk result (λ p. IsOkAnd x (λ a. IsOkAnd y (λ b. cond p.value ≡ t.compare t.like (term a.value) (term b.value)))) }
{
    let (x, y) = paired(x, y)?;
    boxed(alloc, Gc::Compare(Sign::Like, x, y))
}

/// `x IS NULL`.
pub(crate) fn is_null(
    alloc: Global,
    x: Result<Box<Gx>, OutOfMemory>,
) -> Result<Box<Gc>, OutOfMemory>
    ensures { IfOk result (λ p. IsOkAnd x (λ a. cond p.value ≡ t.is_null (term a.value))) }
{
    boxed(alloc, Gc::IsNull(x?))
}

/// `NOT p`.
pub(crate) fn not(alloc: Global, p: Result<Box<Gc>, OutOfMemory>) -> Result<Box<Gc>, OutOfMemory>
    ensures { IfOk result (λ r. IsOkAnd p (λ a. cond r.value ≡ t.not (cond a.value))) }
{
    boxed(alloc, Gc::Not(p?))
}

// `p AND q`.
fn both_hold(
    alloc: Global,
    p: Result<Box<Gc>, OutOfMemory>,
    q: Result<Box<Gc>, OutOfMemory>,
) -> Result<Box<Gc>, OutOfMemory>
    ensures { IfOk result (λ r. IsOkAnd p (λ a. IsOkAnd q (λ b. cond r.value ≡ t.and (cond a.value) (cond b.value)))) }
{
    let (p, q) = paired(p, q)?;
    boxed_made(alloc, anded(alloc, Box::into_inner(p), Box::into_inner(q)))
}

/// `x BETWEEN y AND z`.
pub(crate) fn between(
    alloc: Global,
    x: Result<Box<Gx>, OutOfMemory>,
    y: Result<Box<Gx>, OutOfMemory>,
    z: Result<Box<Gx>, OutOfMemory>,
) -> Result<Box<Gc>, OutOfMemory>
    ensures { IfOk result (λ p. IsOkAnd x (λ a. IsOkAnd y (λ b. IsOkAnd z (λ d. cond p.value ≡ t.and (t.compare t.at_least (term a.value) (term b.value)) (t.compare t.at_most (term a.value) (term d.value)))))) }
{
    let again = again(alloc, &x);
    let low = compare(alloc, CmpOp::Ge, x, y);
    both_hold(alloc, low, compare(alloc, CmpOp::Le, again, z))
}

/// Of some row, where it is asked for any, or of every row.
pub(crate) fn quantified(
    alloc: Global,
    each: Quantifier,
    q: QuantId,
    p: Result<Box<Gc>, OutOfMemory>,
) -> Result<Box<Gc>, OutOfMemory>
    ensures { IfOk result (λ r. IsOkAnd p (λ a. cond r.value ≡ shown.quantified each q (cond a.value))) }
{
    let p = p?;
    match each {
        Quantifier::Any | Quantifier::Some => boxed(alloc, Gc::Some(q, p)),
        Quantifier::All => boxed(alloc, Gc::Every(q, p)),
    }
}

// Adds a condition of a CASE and its result, where both could be made.
fn push_arm(
    list: &mut Vec<Arm>,
    when: Result<Box<Gc>, OutOfMemory>,
    then: Result<Box<Gx>, OutOfMemory>,
) -> Result<(), OutOfMemory>
    ensures { OnOk result (IsOkAnd when (λ p. IsOkAnd then (λ x. list.new.items ≡ list.old.items ++ (record { when = p.value; then = x.value }) ∷ []))) }
{
    let (when, then) = paired(when, then)?;
    let arm = Arm {
        when: Box::into_inner(when),
        then: Box::into_inner(then),
    };
    push(list, arm)
}

// The one condition of a CASE, and its result.
fn one_arm(
    alloc: Global,
    when: Result<Box<Gc>, OutOfMemory>,
    then: Result<Box<Gx>, OutOfMemory>,
) -> Result<Vec<Arm>, OutOfMemory>
    ensures { IfOk result (λ v. IsOkAnd when (λ p. IsOkAnd then (λ x. v.items ≡ (record { when = p.value; then = x.value }) ∷ []))) }
{
    let mut arms = Vec::new(alloc);
    push_arm(&mut arms, when, then)?;
    Ok(arms)
}

// `CASE WHEN .. THEN .. ELSE last END`.
#[tactic(auto, using(qgm_terms::proofs::Lists::lists))]
fn cased(
    alloc: Global,
    arms: Result<Vec<Arm>, OutOfMemory>,
    last: Result<Box<Gx>, OutOfMemory>,
) -> Result<Box<Gx>, OutOfMemory>
    ensures { IfOk result (λ z. IsOkAnd arms (λ v. IsOkAnd last (λ y. term z.value ≡ t.choose (t.armed (choices v.items)) (term y.value)))) }
{
    let (arms, last) = paired(arms, last)?;
    boxed(alloc, Gx::Case(arms, last))
}

// `CASE WHEN p THEN x ELSE y END`.
fn case_of(
    alloc: Global,
    p: Result<Box<Gc>, OutOfMemory>,
    x: Result<Box<Gx>, OutOfMemory>,
    y: Result<Box<Gx>, OutOfMemory>,
) -> Result<Box<Gx>, OutOfMemory>
    ensures { IfOk result (λ z. IsOkAnd p (λ c. IsOkAnd x (λ a. IsOkAnd y (λ b. term z.value ≡ shown.case (cond c.value) (term a.value) (term b.value))))) }
{
    cased(alloc, one_arm(alloc, p, x), y)
}

// The type of an expression that was made.
fn type_of_made(rows: &[Items<SqlType>], x: &Result<Box<Gx>, OutOfMemory>) -> SqlType
    ensures { IfOk x.now (λ a. result ≡ typed_by rows.now (term a.value)) }
{
    match x {
        Ok(x) => type_of(rows, x),
        Err(_) => SqlType::Integer,
    }
}

/// `NULLIF(x, y)`: `CASE WHEN x = y THEN NULL ELSE x END`, whose NULL has the type of x.
pub(crate) fn null_if(
    alloc: Global,
    rows: &[Items<SqlType>],
    x: Result<Box<Gx>, OutOfMemory>,
    y: Result<Box<Gx>, OutOfMemory>,
) -> Result<Box<Gx>, OutOfMemory>
    ensures { IfOk result (λ z. IsOkAnd x (λ a. IsOkAnd y (λ b. term z.value ≡ shown.case (t.compare t.equal (term a.value) (term b.value)) (shown.null_as (typed_by rows.now (term a.value))) (term a.value)))) }
{
    let null = null_as(alloc, type_of_made(rows, &x));
    let p = compare(alloc, CmpOp::Eq, again(alloc, &x), y);
    case_of(alloc, p, null, x)
}

// `CASE WHEN x IS NOT NULL THEN x ELSE y END`.
fn present_or(
    alloc: Global,
    x: Result<Box<Gx>, OutOfMemory>,
    y: Result<Box<Gx>, OutOfMemory>,
) -> Result<Box<Gx>, OutOfMemory>
    ensures { IfOk result (λ z. IsOkAnd x (λ a. IsOkAnd y (λ b. term z.value ≡ shown.case (t.not (t.is_null (term a.value))) (term a.value) (term b.value)))) }
{
    let p = not(alloc, is_null(alloc, again(alloc, &x)));
    case_of(alloc, p, x, y)
}

/// The AND of these, true where there is none.
#[tactic(auto, using(qgm_terms::proofs::Lists::lists))]
pub(crate) fn all_of(
    alloc: Global,
    list: Result<Vec<Gc>, OutOfMemory>,
) -> Result<Box<Gc>, OutOfMemory>
    ensures { IfOk result (λ p. IsOkAnd list (λ v. cond p.value ≡ spec.all_of (conds v.items))) }
{
    let mut list = list?;
    if list.is_empty() {
        return boxed(alloc, Gc::True);
    }
    let first = take_first(alloc, &mut list)?;
    boxed(alloc, Gc::All(first, list))
}

// Never.
fn never(alloc: Global) -> Result<Box<Gc>, OutOfMemory>
    ensures { IfOk result (λ p. cond p.value ≡ t.not t.always) }
{
    not(alloc, boxed(alloc, Gc::True))
}

/// The OR of these, false where there is none.
#[tactic(auto, using(qgm_terms::proofs::Lists::lists))]
pub(crate) fn any_of(
    alloc: Global,
    list: Result<Vec<Gc>, OutOfMemory>,
) -> Result<Box<Gc>, OutOfMemory>
    ensures { IfOk result (λ p. IsOkAnd list (λ v. cond p.value ≡ spec.any_of (conds v.items))) }
{
    let mut list = list?;
    if list.is_empty() {
        return never(alloc);
    }
    let first = take_first(alloc, &mut list)?;
    boxed(alloc, Gc::Any(first, list))
}

// Turns the last two of these into one while there are two: `COALESCE`, written out from its end.
#[tactic(auto, using(crate::proofs::Wholes::coalesced_more))]
fn coalesced_onto(
    alloc: Global,
    list: Vec<Gx>,
    last: Result<Box<Gx>, OutOfMemory>,
) -> Result<Box<Gx>, OutOfMemory>
    ensures { IfOk result (λ y. IsOkAnd last (λ z. term y.value ≡ spec.coalesced_onto (terms list.items) (term z.value))) }
{
    let mut rest = list;
    let mut total = last;
    while let Some(x) = rest.pop() {
        total = present_or(alloc, boxed(alloc, x), total);
    }
    total
}

// The first of these that isn't null, the last where each before it is.
fn coalesced_before(
    alloc: Global,
    first: Result<Box<Gx>, OutOfMemory>,
    list: Vec<Gx>,
    last: Result<Box<Gx>, OutOfMemory>,
) -> Result<Box<Gx>, OutOfMemory>
    ensures { IfOk result (λ y. IsOkAnd first (λ x. IsOkAnd last (λ z. term y.value ≡ spec.coalesced_onto (term x.value ∷ terms list.items) (term z.value)))) }
{
    let others = coalesced_onto(alloc, list, last);
    present_or(alloc, first, others)
}

/// The first of these that isn't null, the last where each before it is.
#[tactic(auto, using(crate::proofs::Wholes::coalesced_first))]
pub(crate) fn coalesced(
    alloc: Global,
    first: Result<Box<Gx>, OutOfMemory>,
    others: Result<Vec<Gx>, OutOfMemory>,
) -> Result<Box<Gx>, OutOfMemory>
    ensures { IfOk result (λ y. IsOkAnd first (λ x. IsOkAnd others (λ xs. term y.value ≡ spec.coalesced (term x.value ∷ terms xs.items)))) }
{
    let mut rest = others?;
    match rest.pop() {
        Some(last) => coalesced_before(alloc, first, rest, boxed(alloc, last)),
        None => first,
    }
}

// Whether it is a NULL that has no type of its own.
fn is_untyped(x: &Value) -> bool
    ensures { result ≡ shown.is_untyped (meant.value x.now) }
{
    match x {
        Value::Null(None) => true,
        Value::Null(Some(_))
        | Value::Number(_)
        | Value::Text(_)
        | Value::Column(_, _)
        | Value::Sum(_, _)
        | Value::Product(_, _)
        | Value::Negative(_)
        | Value::Searched(_, _)
        | Value::Simple(_, _, _)
        | Value::Coalesce(_, _)
        | Value::NullIf(_, _)
        | Value::Scalar(_)
        | Value::CountAll
        | Value::Aggregate(_, _, _) => false,
    }
}

/// What a result of a CASE stands as: none for a NULL without a type of its own.
pub(crate) fn open(
    x: &Value,
    y: Result<Box<Gx>, OutOfMemory>,
) -> Result<Option<Box<Gx>>, OutOfMemory>
    ensures { IfOk result (λ z. IsOkAnd y (λ b. open_of z ≡ spec.open_term (meant.value x.now) (term b.value))) }
{
    let y = y?;
    Ok(if is_untyped(x) { None } else { Some(y) })
}

/// Adds a condition of a CASE and its result, where both could be made.
pub(crate) fn push_open(
    list: &mut Vec<OpenArm>,
    when: Result<Box<Gc>, OutOfMemory>,
    then: Result<Option<Box<Gx>>, OutOfMemory>,
) -> Result<(), OutOfMemory>
    ensures { OnOk result (IsOkAnd when (λ c. IsOkAnd then (λ y. list.new.items ≡ list.old.items ++ (record { when = c; then = y }) ∷ []))) }
{
    let (when, then) = paired(when, then)?;
    push(list, OpenArm { when, then })
}

// The result of a CASE of this type.
fn closed(alloc: Global, of: SqlType, x: Option<Box<Gx>>) -> Result<Box<Gx>, OutOfMemory>
    ensures { IfOk result (λ y. term y.value ≡ spec.closed of (open_of x)) }
{
    match x {
        Some(x) => Ok(x),
        None => null_as(alloc, of),
    }
}

// The type of a result, or this one where it has none of its own.
fn own_type(rows: &[Items<SqlType>], x: &Option<Box<Gx>>, other: SqlType) -> SqlType
    ensures { result ≡ spec.own_type rows.now (open_of x.now) other }
{
    match x {
        Some(x) => type_of(rows, x),
        None => other,
    }
}

// The type of the first result that has one of its own, or else this one.
fn first_type(rows: &[Items<SqlType>], list: &[OpenArm], other: SqlType) -> SqlType
    ensures { result ≡ spec.first_type rows.now (opened list.now) other }
{
    for arm in list {
        if arm.then.is_some() {
            return own_type(rows, &arm.then, other);
        }
    }
    other
}

// Adds a condition of a CASE, whose result has this type.
fn push_closed(
    alloc: Global,
    of: SqlType,
    arm: OpenArm,
    out: &mut Vec<Arm>,
) -> Result<(), OutOfMemory>
    ensures { OnOk result (choices out.new.items ≡ choices out.old.items ++ spec.closed_choice of (open_choice arm) ∷ []) }
{
    push_arm(out, Ok(arm.when), closed(alloc, of, arm.then))
}

// The conditions of a CASE, whose results have this type.
fn closed_arms(alloc: Global, of: SqlType, list: Vec<OpenArm>) -> Result<Vec<Arm>, OutOfMemory>
    ensures { IfOk result (λ v. choices v.items ≡ map (spec.closed_choice of) (opened list.items)) }
{
    let mut arms = Vec::new(alloc);
    for arm in list {
        push_closed(alloc, of, arm, &mut arms)?;
    }
    Ok(arms)
}

// `CASE WHEN .. THEN .. ELSE .. END`, whose results have this type.
fn chosen_as(
    alloc: Global,
    of: SqlType,
    list: Vec<OpenArm>,
    last: Option<Box<Gx>>,
) -> Result<Box<Gx>, OutOfMemory>
    ensures { IfOk result (λ y. term y.value ≡ spec.chosen_as of (opened list.items) (open_of last)) }
{
    let arms = closed_arms(alloc, of, list);
    cased(alloc, arms, closed(alloc, of, last))
}

/// `CASE WHEN .. THEN .. ELSE .. END`. A NULL without a type has that of the first result that has one.
pub(crate) fn chosen(
    alloc: Global,
    rows: &[Items<SqlType>],
    list: Result<Vec<OpenArm>, OutOfMemory>,
    last: Result<Option<Box<Gx>>, OutOfMemory>,
) -> Result<Box<Gx>, OutOfMemory>
    ensures { IfOk result (λ y. IsOkAnd list (λ v. IsOkAnd last (λ z. term y.value ≡ spec.chosen rows.now (opened v.items) (open_of z)))) }
{
    let (list, last) = paired(list, last)?;
    let other = own_type(rows, &last, SqlType::Integer);
    let of = first_type(rows, &list, other);
    chosen_as(alloc, of, list, last)
}

// Adds `x = y`.
fn push_equal(alloc: Global, x: &Gx, y: Gx, out: &mut Vec<Gc>) -> Result<(), OutOfMemory>
    ensures { OnOk result (conds out.new.items ≡ conds out.old.items ++ t.compare t.equal (term x.now) (term y) ∷ []) }
{
    push_made(out, equal_copy(alloc, x, boxed(alloc, y)))
}

// `x = y` for each y of a list.
fn equal_each(alloc: Global, x: &Gx, list: Vec<Gx>) -> Result<Vec<Gc>, OutOfMemory>
    ensures { IfOk result (λ v. conds v.items ≡ map (t.compare t.equal (term x.now)) (terms list.items)) }
{
    let mut all = Vec::new(alloc);
    for y in list {
        push_equal(alloc, x, y, &mut all)?;
    }
    Ok(all)
}

/// `x IN (..)`: `x = y OR ..`.
pub(crate) fn equals_one(
    alloc: Global,
    x: Result<Box<Gx>, OutOfMemory>,
    list: Result<Vec<Gx>, OutOfMemory>,
) -> Result<Box<Gc>, OutOfMemory>
    ensures { IfOk result (λ p. IsOkAnd x (λ a. IsOkAnd list (λ v. cond p.value ≡ spec.any_of (map (t.compare t.equal (term a.value)) (terms v.items))))) }
{
    let (x, list) = paired(x, list)?;
    any_of(alloc, equal_each(alloc, &x, list))
}

/// A comparison with the column of a quantifier.
pub(crate) fn compare_column(
    alloc: Global,
    op: CmpOp,
    x: Result<Box<Gx>, OutOfMemory>,
    q: QuantId,
) -> Result<Box<Gc>, OutOfMemory>
    ensures { IfOk result (λ p. IsOkAnd x (λ a. cond p.value ≡ t.compare (shown.sign op) (term a.value) (t.col q 1))) }
{
    compare(alloc, op, x, boxed(alloc, Gx::Col(q, 1)))
}

/// Of some row.
pub(crate) fn some_row(
    alloc: Global,
    q: QuantId,
    p: Result<Box<Gc>, OutOfMemory>,
) -> Result<Box<Gc>, OutOfMemory>
    ensures { IfOk result (λ r. IsOkAnd p (λ a. cond r.value ≡ t.some q (cond a.value))) }
{
    boxed(alloc, Gc::Some(q, p?))
}

/// Whether there is a row.
pub(crate) fn any_row(alloc: Global, q: QuantId) -> Result<Box<Gc>, OutOfMemory>
    ensures { IfOk result (λ r. cond r.value ≡ t.some q t.always) }
{
    some_row(alloc, q, boxed(alloc, Gc::True))
}
