// The expressions and the conditions of a block, as those of a box.
ghost use Rattle.std.specs.Prelude.{◌≡◌, ◌++◌, ◌∷◌, [], IfOk, IsOkAnd, OnOk};
ghost use Rattle.sql_meaning.specs.ResolvedShown as shown;
ghost use Rattle.qgm_terms.specs.Shown.{cond, conds, term, terms};
ghost use Rattle.qgm_translation.specs.Terms as t;
ghost use Rattle.qgm_translation.specs.Leaves as l;
ghost use Rattle.qgm_build_terms.specs.Opened.{open_of, opened};
ghost use Rattle.qgm_build_terms.specs.Parts.{arms_in, choices_in, conds_in};
ghost use Rattle.qgm_build_terms.specs.Setting as spec;
ghost use Rattle.qgm_build_terms.specs.Setting.{frame_in, outer_in, sources_in};
ghost use Rattle.qgm_build_terms.specs.Written.{slots_of};

use crate::boxes::push_made;
use crate::parts as made;
use crate::parts::OpenArm;
use crate::seen::{Scopes, seen_at};
use crate::setting::Setting;
use crate::slots::{Slots, take_cell, take_quant};
use qgm_terms::{Gc, Gx};
use shared_types::{CmpOp, OutOfMemory};
use sql_meaning::{Addend, Arm, Choice, Multiplier, Test, Value};
use std::alloc::Global;

// A column.
fn column(g: &Setting<'_>, scope: usize, place: usize) -> Result<Box<Gx>, OutOfMemory>
    ensures { IfOk result (λ y. term y.value ≡ spec.column_in g.now scope place) }
{
    let inner = Scopes::Inside(g.frame, g.outer);
    made::seen(g.alloc, seen_at(&inner, scope, place))
}

/// The expression of a value, where it stands. It fails only for want of memory.
#[cycle(terms)]
pub fn value(g: &Setting<'_>, x: &Value, s: &mut Slots<'_>) -> Result<Box<Gx>, OutOfMemory>
    ensures term { IfOk result (λ y. term y.value ≡ t.term (sources_in g.now) (frame_in g.now) (outer_in g.now) (slots_of s.old) (shown.value x.now)) }
    ensures slots { OnOk result (slots_of s.new ≡ l.after (l.leaves (frame_in g.now) (shown.value x.now)) (slots_of s.old)) }
{
    let alloc = g.alloc;
    match x {
        Value::Number(n) => made::number(alloc, *n),
        Value::Text(x) => made::text(alloc, x),
        Value::Null(of) => made::null_of(alloc, *of),
        Value::Column(scope, place) => column(g, *scope, *place),
        Value::Sum(a, list) => {
            let first = value(g, a, s);
            sum(g, list.as_slice(), first, s)
        }
        Value::Product(a, list) => {
            let first = value(g, a, s);
            product(g, list.as_slice(), first, s)
        }
        Value::Negative(a) => made::negative(alloc, value(g, a, s)),
        Value::Searched(list, last) => {
            let list = arms(g, list.as_slice(), s);
            let last = outcome(g, last, s);
            made::chosen(alloc, g.rows, list, last)
        }
        Value::Simple(a, list, last) => {
            let a = value(g, a, s);
            let list = choices(g, list.as_slice(), a, s);
            let last = outcome(g, last, s);
            made::chosen(alloc, g.rows, list, last)
        }
        Value::Coalesce(a, list) => {
            let a = value(g, a, s);
            let others = listed(g, list.as_slice(), s);
            made::coalesced(alloc, a, others)
        }
        Value::NullIf(a, b) => {
            let a = value(g, a, s);
            let b = value(g, b, s);
            made::null_if(alloc, g.rows, a, b)
        }
        Value::Scalar(_) => made::scalar(alloc, take_quant(s)),
        Value::CountAll | Value::Aggregate(_, _, _) => made::seen(alloc, take_cell(s)),
    }
}

// A first operand, and what is added to it.
#[cycle(terms)]
fn sum(
    g: &Setting<'_>,
    list: &[Addend],
    first: Result<Box<Gx>, OutOfMemory>,
    s: &mut Slots<'_>,
) -> Result<Box<Gx>, OutOfMemory>
    ensures term { IfOk result (λ y. IsOkAnd first (λ a. term y.value ≡ t.summed (sources_in g.now) (frame_in g.now) (outer_in g.now) (slots_of s.old) (term a.value) (shown.addend_list list.now))) }
    ensures slots { OnOk result (slots_of s.new ≡ l.after (l.addend_leaves (frame_in g.now) (shown.addend_list list.now)) (slots_of s.old)) }
{
    let mut total = first;
    for x in list {
        let next = value(g, &x.value, s);
        total = made::longer(g.alloc, total, made::additive(x.op), next);
    }
    total
}

// A first operand, and what it is multiplied by.
#[cycle(terms)]
fn product(
    g: &Setting<'_>,
    list: &[Multiplier],
    first: Result<Box<Gx>, OutOfMemory>,
    s: &mut Slots<'_>,
) -> Result<Box<Gx>, OutOfMemory>
    ensures term { IfOk result (λ y. IsOkAnd first (λ a. term y.value ≡ t.multiplied (sources_in g.now) (frame_in g.now) (outer_in g.now) (slots_of s.old) (term a.value) (shown.multiplier_list list.now))) }
    ensures slots { OnOk result (slots_of s.new ≡ l.after (l.multiplier_leaves (frame_in g.now) (shown.multiplier_list list.now)) (slots_of s.old)) }
{
    let mut total = first;
    for x in list {
        let next = value(g, &x.value, s);
        total = made::longer(g.alloc, total, made::multiplicative(x.op), next);
    }
    total
}

/// Adds the expressions of a list of values at the end of others. It fails only for want of memory.
#[cycle(terms)]
pub fn values(
    g: &Setting<'_>,
    list: &[Value],
    s: &mut Slots<'_>,
    out: &mut Vec<Gx>,
) -> Result<(), OutOfMemory>
    ensures terms { OnOk result (terms out.new.items ≡ terms out.old.items ++ t.terms (sources_in g.now) (frame_in g.now) (outer_in g.now) (slots_of s.old) (shown.value_list list.now)) }
    ensures slots { OnOk result (slots_of s.new ≡ l.after (l.list_leaves (frame_in g.now) (shown.value_list list.now)) (slots_of s.old)) }
{
    for x in list {
        push_made(out, value(g, x, s))?;
    }
    Ok(())
}

// The expressions of a list of values.
#[cycle(terms)]
fn listed(g: &Setting<'_>, list: &[Value], s: &mut Slots<'_>) -> Result<Vec<Gx>, OutOfMemory>
    ensures terms { IfOk result (λ v. terms v.items ≡ t.terms (sources_in g.now) (frame_in g.now) (outer_in g.now) (slots_of s.old) (shown.value_list list.now)) }
    ensures slots { OnOk result (slots_of s.new ≡ l.after (l.list_leaves (frame_in g.now) (shown.value_list list.now)) (slots_of s.old)) }
{
    let mut out = Vec::new(g.alloc);
    values(g, list, s, &mut out)?;
    Ok(out)
}

// A result of a CASE; none for a NULL without a type of its own.
#[cycle(terms)]
fn outcome(g: &Setting<'_>, x: &Value, s: &mut Slots<'_>) -> Result<Option<Box<Gx>>, OutOfMemory>
    ensures term { IfOk result (λ y. open_of y ≡ spec.outcome_in g.now (slots_of s.old) (shown.value x.now)) }
    ensures slots { OnOk result (slots_of s.new ≡ l.after (l.leaves (frame_in g.now) (shown.value x.now)) (slots_of s.old)) }
{
    made::open(x, value(g, x, s))
}

// The conditions of a CASE with their results.
#[cycle(terms)]
fn arms(g: &Setting<'_>, list: &[Arm], s: &mut Slots<'_>) -> Result<Vec<OpenArm>, OutOfMemory>
    ensures arms { IfOk result (λ v. opened v.items ≡ arms_in (sources_in g.now) (frame_in g.now) (outer_in g.now) (slots_of s.old) (shown.arm_list list.now)) }
    ensures slots { OnOk result (slots_of s.new ≡ l.after (l.arm_leaves (frame_in g.now) (shown.arm_list list.now)) (slots_of s.old)) }
{
    let mut out = Vec::new(g.alloc);
    for arm in list {
        let when = test(g, &arm.when, s);
        let then = outcome(g, &arm.then, s);
        made::push_open(&mut out, when, then)?;
    }
    Ok(out)
}

// The values of a CASE, which are compared with its operand, with their results.
#[cycle(terms)]
fn choices(
    g: &Setting<'_>,
    list: &[Choice],
    operand: Result<Box<Gx>, OutOfMemory>,
    s: &mut Slots<'_>,
) -> Result<Vec<OpenArm>, OutOfMemory>
    ensures arms { IfOk result (λ v. IsOkAnd operand (λ a. opened v.items ≡ choices_in (sources_in g.now) (frame_in g.now) (outer_in g.now) (slots_of s.old) (term a.value) (shown.choice_list list.now))) }
    ensures slots { OnOk result (slots_of s.new ≡ l.after (l.choice_leaves (frame_in g.now) (shown.choice_list list.now)) (slots_of s.old)) }
{
    let x = operand?;
    let mut out = Vec::new(g.alloc);
    for choice in list {
        let y = value(g, &choice.when, s);
        let when = made::equal_copy(g.alloc, &x, y);
        let then = outcome(g, &choice.then, s);
        made::push_open(&mut out, when, then)?;
    }
    Ok(out)
}

/// The condition of a test, where it stands. It fails only for want of memory.
#[cycle(terms)]
pub fn test(g: &Setting<'_>, p: &Test, s: &mut Slots<'_>) -> Result<Box<Gc>, OutOfMemory>
    ensures cond { IfOk result (λ c. cond c.value ≡ t.cond (sources_in g.now) (frame_in g.now) (outer_in g.now) (slots_of s.old) (shown.test p.now)) }
    ensures slots { OnOk result (slots_of s.new ≡ l.after (l.test_leaves (frame_in g.now) (shown.test p.now)) (slots_of s.old)) }
{
    let alloc = g.alloc;
    match p {
        Test::All(list) => made::all_of(alloc, tests(g, list.as_slice(), s)),
        Test::Any(list) => made::any_of(alloc, tests(g, list.as_slice(), s)),
        Test::Not(p) => made::not(alloc, test(g, p, s)),
        Test::Compare(a, op, b) => {
            let a = value(g, a, s);
            let b = value(g, b, s);
            made::compare(alloc, *op, a, b)
        }
        Test::Quantified(a, op, each, _) => {
            let a = value(g, a, s);
            let q = take_quant(s);
            let p = made::compare_column(alloc, *op, a, q);
            made::quantified(alloc, *each, q, p)
        }
        Test::Between(a, b, c) => {
            let a = value(g, a, s);
            let b = value(g, b, s);
            let c = value(g, c, s);
            made::between(alloc, a, b, c)
        }
        Test::Among(a, list) => {
            let a = value(g, a, s);
            let list = listed(g, list.as_slice(), s);
            made::equals_one(alloc, a, list)
        }
        Test::AmongRows(a, _) => {
            let a = value(g, a, s);
            let q = take_quant(s);
            let p = made::compare_column(alloc, CmpOp::Eq, a, q);
            made::some_row(alloc, q, p)
        }
        Test::Like(a, b) => {
            let a = value(g, a, s);
            let b = value(g, b, s);
            made::like(alloc, a, b)
        }
        Test::IsNull(a) => made::is_null(alloc, value(g, a, s)),
        Test::Exists(_) => made::any_row(alloc, take_quant(s)),
    }
}

// The conditions of a list.
#[cycle(terms)]
fn tests(g: &Setting<'_>, list: &[Test], s: &mut Slots<'_>) -> Result<Vec<Gc>, OutOfMemory>
    ensures conds { IfOk result (λ v. conds v.items ≡ conds_in (sources_in g.now) (frame_in g.now) (outer_in g.now) (slots_of s.old) (shown.test_list list.now)) }
    ensures slots { OnOk result (slots_of s.new ≡ l.after (l.tests_leaves (frame_in g.now) (shown.test_list list.now)) (slots_of s.old)) }
{
    let mut out = Vec::new(g.alloc);
    for p in list {
        push_made(&mut out, test(g, p, s))?;
    }
    Ok(out)
}
