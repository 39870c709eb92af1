// How many nodes the cells and conditions have that a query is written with, abbreviations written out.
// A copy doubles what it is made of, so nested abbreviations can ask for more than there is memory.
ghost use Rattle.std.specs.Prelude.{◌≡◌, ◌≤◌, ◌+◌, suc, true, IfOk, OnOk, IsOkAnd};
ghost use Rattle.sql_meaning.specs.ResolvedShown as shown;
ghost use Rattle.qgm_build_size.specs.Sizes as spec;

use shared_types::OutOfMemory;
use sql_meaning::{Addend, Arm, Choice, From, Multiplier, Query, Test, Value};

/// How many nodes a part of a query is written with: its own, where a subquery or an aggregate is one,
/// and those of the boxes below it, which are made once however often it is written.
#[derive(Clone, Copy)]
pub struct Size {
    pub own: usize,
    pub below: usize,
}

// One more.
fn after(n: usize) -> Result<usize, OutOfMemory>
    ensures { IfOk result (λ m. m ≡ suc n) }
{
    n.checked_add(1).ok_or(OutOfMemory)
}

// Nothing yet.
fn nothing() -> Size
    ensures { result ≡ spec.nothing }
{
    Size { own: 0, below: 0 }
}

// Of both.
fn plus(a: Size, b: Size) -> Result<Size, OutOfMemory>
    ensures { IfOk result (λ s. s ≡ spec.plus a b) }
{
    let own = a.own.checked_add(b.own).ok_or(OutOfMemory)?;
    let below = a.below.checked_add(b.below).ok_or(OutOfMemory)?;
    Ok(Size { own, below })
}

// With n more where it stands.
fn more(n: usize, a: Size) -> Result<Size, OutOfMemory>
    ensures { IfOk result (λ s. s ≡ spec.more n a) }
{
    let own = n.checked_add(a.own).ok_or(OutOfMemory)?;
    Ok(Size {
        own,
        below: a.below,
    })
}

// A copy.
fn again(a: Size) -> Size
    ensures { result ≡ spec.again a }
{
    Size {
        own: a.own,
        below: 0,
    }
}

// The boxes below alone.
fn below_it(a: Size) -> Size
    ensures { result ≡ spec.below_it a }
{
    Size {
        own: 0,
        below: a.below,
    }
}

// The first of some conditions, or one more of them.
fn joined(first: bool, so_far: Size, a: Size) -> Result<Size, OutOfMemory>
    ensures { IfOk result (λ s. s ≡ spec.joined first so_far a) }
{
    if first {
        return Ok(a);
    }
    plus(so_far, more(1, a)?)
}

// Boxes of this many.
fn under(n: usize) -> Size
    ensures { result ≡ spec.under n }
{
    Size { own: 0, below: n }
}

// One term over them.
fn over(n: usize) -> Size
    ensures { result ≡ spec.over n }
{
    Size { own: 1, below: n }
}

// Its own, and those below.
fn all_of(a: Size) -> Result<usize, OutOfMemory>
    ensures { IfOk result (λ n. n ≡ spec.all_of a) }
{
    a.own.checked_add(a.below).ok_or(OutOfMemory)
}

// With n more where it stands.
fn one(n: usize, a: Result<Size, OutOfMemory>) -> Result<Size, OutOfMemory>
    ensures { IfOk result (λ s. IsOkAnd a (λ x. s ≡ spec.more n x)) }
{
    more(n, a?)
}

// Of both, with n more.
fn both(
    n: usize,
    a: Result<Size, OutOfMemory>,
    b: Result<Size, OutOfMemory>,
) -> Result<Size, OutOfMemory>
    ensures { IfOk result (λ s. IsOkAnd a (λ x. IsOkAnd b (λ y. s ≡ spec.more n (spec.plus x y)))) }
{
    more(n, plus(a?, b?)?)
}

// Of both.
fn beside(a: Result<Size, OutOfMemory>, b: Result<Size, OutOfMemory>) -> Result<Size, OutOfMemory>
    ensures { IfOk result (λ s. IsOkAnd a (λ x. IsOkAnd b (λ y. s ≡ spec.plus x y))) }
{
    plus(a?, b?)
}

// Of all three.
fn three(
    a: Result<Size, OutOfMemory>,
    b: Result<Size, OutOfMemory>,
    c: Result<Size, OutOfMemory>,
) -> Result<Size, OutOfMemory>
    ensures { IfOk result (λ s. IsOkAnd a (λ x. IsOkAnd b (λ y. IsOkAnd c (λ z. s ≡ spec.plus x (spec.plus y z))))) }
{
    plus(a?, plus(b?, c?)?)
}

// CASE with an operand.
fn simple(
    a: Result<Size, OutOfMemory>,
    list: Result<Size, OutOfMemory>,
    last: Result<Size, OutOfMemory>,
) -> Result<Size, OutOfMemory>
    ensures { IfOk result (λ s. IsOkAnd a (λ x. IsOkAnd list (λ y. IsOkAnd last (λ z. s ≡ spec.more 1 (spec.plus (spec.below_it x) (spec.plus y z)))))) }
{
    more(1, plus(below_it(a?), plus(list?, last?)?)?)
}

// Copies of an operand, each in a comparison.
fn compared_with(
    a: Result<Size, OutOfMemory>,
    list: Result<Size, OutOfMemory>,
) -> Result<Size, OutOfMemory>
    ensures { IfOk result (λ s. IsOkAnd a (λ x. IsOkAnd list (λ y. s ≡ spec.plus (spec.below_it x) y))) }
{
    plus(below_it(a?), list?)
}

// An abbreviation that writes its first part twice.
fn repeated(a: Result<Size, OutOfMemory>, b: Result<Size, OutOfMemory>) -> Result<Size, OutOfMemory>
    ensures { IfOk result (λ s. IsOkAnd a (λ x. IsOkAnd b (λ y. s ≡ spec.more 3 (spec.plus x (spec.plus (spec.again x) y))))) }
{
    let first = a?;
    more(3, plus(first, plus(again(first), b?)?)?)
}

// BETWEEN.
fn between(
    a: Result<Size, OutOfMemory>,
    b: Result<Size, OutOfMemory>,
    c: Result<Size, OutOfMemory>,
) -> Result<Size, OutOfMemory>
    ensures { IfOk result (λ s. IsOkAnd a (λ x. IsOkAnd b (λ y. IsOkAnd c (λ z. s ≡ spec.more 3 (spec.plus x (spec.plus (spec.again x) (spec.plus y z))))))) }
{
    repeated(a, Ok(plus(b?, c?)?))
}

// A part of COALESCE that isn't its last one.
fn present(a: Size) -> Result<Size, OutOfMemory>
    ensures { IfOk result (λ s. s ≡ spec.more 3 (spec.plus a (spec.again a))) }
{
    more(3, plus(a, again(a))?)
}

// A comparison with a copy of n, and its result.
fn choice(n: usize, a: Size, b: Size) -> Result<Size, OutOfMemory>
    ensures { IfOk result (λ s. s ≡ spec.more (suc n) (spec.plus a b)) }
{
    more(after(n)?, plus(a, b)?)
}

// An aggregate of an argument.
fn aggregate(a: Result<Size, OutOfMemory>) -> Result<Size, OutOfMemory>
    ensures { IfOk result (λ s. IsOkAnd a (λ x. s ≡ spec.over (2 + spec.all_of x))) }
{
    let n = all_of(a?)?.checked_add(2).ok_or(OutOfMemory)?;
    Ok(over(n))
}

// A subquery in place of a value.
fn scalar(n: Result<usize, OutOfMemory>) -> Result<Size, OutOfMemory>
    ensures { IfOk result (λ s. IsOkAnd n (λ m. s ≡ spec.over m)) }
{
    Ok(over(n?))
}

// A subquery in a FROM.
fn derived(n: Result<usize, OutOfMemory>) -> Result<Size, OutOfMemory>
    ensures { IfOk result (λ s. IsOkAnd n (λ m. s ≡ spec.under m)) }
{
    Ok(under(n?))
}

// Of a block: its list, FROM and WHERE.
fn block_of(
    list: Result<Size, OutOfMemory>,
    from: Result<Size, OutOfMemory>,
    by: Result<Size, OutOfMemory>,
) -> Result<usize, OutOfMemory>
    ensures { IfOk result (λ n. IsOkAnd list (λ x. IsOkAnd from (λ y. IsOkAnd by (λ z. n ≡ spec.all_of (spec.plus x (spec.plus y z)))))) }
{
    all_of(three(list, from, by)?)
}

// Of a grouped block: its list, FROM, WHERE and HAVING.
fn grouped_of(
    list: Result<Size, OutOfMemory>,
    from: Result<Size, OutOfMemory>,
    by: Result<Size, OutOfMemory>,
    having: Result<Size, OutOfMemory>,
) -> Result<usize, OutOfMemory>
    ensures { IfOk result (λ n. IsOkAnd list (λ x. IsOkAnd from (λ y. IsOkAnd by (λ z. IsOkAnd having (λ w. n ≡ spec.all_of (spec.plus x (spec.plus y (spec.plus z w)))))))) }
{
    block_of(list, from, Ok(plus(by?, having?)?))
}

// Of both queries.
fn total_of(
    a: Result<usize, OutOfMemory>,
    b: Result<usize, OutOfMemory>,
) -> Result<usize, OutOfMemory>
    ensures { IfOk result (λ n. IsOkAnd a (λ x. IsOkAnd b (λ y. n ≡ x + y))) }
{
    a?.checked_add(b?).ok_or(OutOfMemory)
}

// An expression.
#[cycle(sizes)]
fn value(x: &Value) -> Result<Size, OutOfMemory>
    ensures { IfOk result (λ s. s ≡ spec.value_size (shown.value x.now)) }
{
    match x {
        Value::Number(_) | Value::Text(_) | Value::Null(_) | Value::Column(_, _) => Ok(over(0)),
        Value::Sum(a, list) => beside(value(a), addends(list.as_slice())),
        Value::Product(a, list) => beside(value(a), multipliers(list.as_slice())),
        Value::Negative(a) => one(1, value(a)),
        Value::Searched(list, last) => both(1, arms(list.as_slice()), value(last)),
        Value::Simple(a, list, last) => {
            let a = value(a);
            simple(a, compared(a, list.as_slice()), value(last))
        }
        Value::Coalesce(a, list) => coalesce(value(a), list.as_slice()),
        Value::NullIf(a, b) => repeated(value(a), value(b)),
        Value::Scalar(y) => scalar(query(y)),
        Value::CountAll => Ok(over(1)),
        Value::Aggregate(_, _, a) => aggregate(value(a)),
    }
}

// What is added.
#[cycle(sizes)]
fn addends(list: &[Addend]) -> Result<Size, OutOfMemory>
    ensures { IfOk result (λ s. s ≡ spec.addends_size (shown.addend_list list.now)) }
{
    let mut total = nothing();
    for x in list {
        let next = more(1, value(&x.value)?)?;
        total = plus(total, next)?;
    }
    Ok(total)
}

// What is multiplied.
#[cycle(sizes)]
fn multipliers(list: &[Multiplier]) -> Result<Size, OutOfMemory>
    ensures { IfOk result (λ s. s ≡ spec.multipliers_size (shown.multiplier_list list.now)) }
{
    let mut total = nothing();
    for x in list {
        let next = more(1, value(&x.value)?)?;
        total = plus(total, next)?;
    }
    Ok(total)
}

// A list.
#[cycle(sizes)]
fn values(list: &[Value]) -> Result<Size, OutOfMemory>
    ensures { IfOk result (λ s. s ≡ spec.values_size (shown.value_list list.now)) }
{
    let mut total = nothing();
    for x in list {
        total = plus(total, value(x)?)?;
    }
    Ok(total)
}

// Conditions with their results.
#[cycle(sizes)]
fn arms(list: &[Arm]) -> Result<Size, OutOfMemory>
    ensures { IfOk result (λ s. s ≡ spec.arms_size (shown.arm_list list.now)) }
{
    let mut total = nothing();
    for x in list {
        let when = test(&x.when)?;
        let then = value(&x.then)?;
        total = plus(total, plus(when, then)?)?;
    }
    Ok(total)
}

// Values with their results, each compared with a copy of n.
#[cycle(sizes)]
fn choices(n: usize, list: &[Choice]) -> Result<Size, OutOfMemory>
    ensures { IfOk result (λ s. s ≡ spec.choices_size n (shown.choice_list list.now)) }
{
    let mut total = nothing();
    for x in list {
        let when = value(&x.when)?;
        let then = value(&x.then)?;
        total = plus(total, choice(n, when, then)?)?;
    }
    Ok(total)
}

// The same, each compared with a copy of this operand.
#[cycle(sizes)]
fn compared(operand: Result<Size, OutOfMemory>, list: &[Choice]) -> Result<Size, OutOfMemory>
    ensures { IfOk result (λ s. IsOkAnd operand (λ x. s ≡ spec.choices_size x.own (shown.choice_list list.now))) }
{
    choices(operand?.own, list)
}

// Values that are each compared with a copy of n.
#[cycle(sizes)]
fn equals(n: usize, list: &[Value]) -> Result<Size, OutOfMemory>
    ensures { IfOk result (λ s. s ≡ spec.among_size n true (spec.more 2 spec.nothing) (shown.value_list list.now)) }
{
    let each = after(n)?;
    let mut total = more(2, nothing())?;
    let mut first = true;
    for x in list {
        let next = more(each, value(x)?)?;
        total = joined(first, total, next)?;
        first = false;
    }
    Ok(total)
}

// The same, each compared with a copy of this operand.
#[cycle(sizes)]
fn among(operand: Result<Size, OutOfMemory>, list: &[Value]) -> Result<Size, OutOfMemory>
    ensures { IfOk result (λ s. IsOkAnd operand (λ x. s ≡ spec.among_size x.own true (spec.more 2 spec.nothing) (shown.value_list list.now))) }
{
    equals(operand?.own, list)
}

// A first part of COALESCE, and the others.
#[cycle(sizes)]
fn coalesced(first: Size, list: &[Value]) -> Result<Size, OutOfMemory>
    ensures { IfOk result (λ s. s ≡ spec.coalesced_size first (shown.value_list list.now)) }
{
    let mut total = nothing();
    let mut last = first;
    for x in list {
        total = plus(total, present(last)?)?;
        last = value(x)?;
    }
    plus(total, last)
}

// COALESCE.
#[cycle(sizes)]
fn coalesce(first: Result<Size, OutOfMemory>, list: &[Value]) -> Result<Size, OutOfMemory>
    ensures { IfOk result (λ s. IsOkAnd first (λ x. s ≡ spec.coalesced_size x (shown.value_list list.now))) }
{
    coalesced(first?, list)
}

// A condition.
#[cycle(sizes)]
fn test(p: &Test) -> Result<Size, OutOfMemory>
    ensures { IfOk result (λ s. s ≡ spec.test_size (shown.test p.now)) }
{
    match p {
        Test::All(list) => tests(1, list.as_slice()),
        Test::Any(list) => tests(2, list.as_slice()),
        Test::Not(p) => one(1, test(p)),
        Test::Compare(a, _, b) | Test::Like(a, b) => both(1, value(a), value(b)),
        Test::Quantified(a, _, _, y) | Test::AmongRows(a, y) => {
            both(2, value(a), scalar(query(y)))
        }
        Test::Between(a, b, c) => between(value(a), value(b), value(c)),
        Test::Among(a, list) => {
            let a = value(a);
            compared_with(a, among(a, list.as_slice()))
        }
        Test::IsNull(a) => one(1, value(a)),
        Test::Exists(y) => one(1, scalar(query(y))),
    }
}

// Conditions that are joined; n where there is none.
#[cycle(sizes)]
fn tests(n: usize, list: &[Test]) -> Result<Size, OutOfMemory>
    ensures { IfOk result (λ s. s ≡ spec.tests_size true (spec.more n spec.nothing) (shown.test_list list.now)) }
{
    let mut total = more(n, nothing())?;
    let mut first = true;
    for p in list {
        let next = test(p)?;
        total = joined(first, total, next)?;
        first = false;
    }
    Ok(total)
}

// A table of a FROM.
#[cycle(sizes)]
fn from(x: &From) -> Result<Size, OutOfMemory>
    ensures { IfOk result (λ s. s ≡ spec.from_size (shown.from x.now)) }
{
    match x {
        From::Named(_) => Ok(nothing()),
        From::Derived(y) => derived(query(y)),
        From::Crossed(a, b) => beside(from(a), from(b)),
        From::Joined(a, b, p) | From::LeftJoined(a, b, _, p) => three(from(a), from(b), test(p)),
    }
}

// A FROM.
#[cycle(sizes)]
fn froms(list: &[From]) -> Result<Size, OutOfMemory>
    ensures { IfOk result (λ s. s ≡ spec.froms_size (shown.from_list list.now)) }
{
    let mut total = nothing();
    for x in list {
        total = plus(total, from(x)?)?;
    }
    Ok(total)
}

// A query.
#[cycle(sizes)]
fn query(x: &Query) -> Result<usize, OutOfMemory>
    ensures { IfOk result (λ n. n ≡ spec.query_size (shown.query x.now)) }
{
    match x {
        Query::Block(_, list, tables, by) => block_of(
            values(list.as_slice()),
            froms(tables.as_slice()),
            test(by),
        ),
        Query::Grouped(_, list, tables, by, _, _, having) => grouped_of(
            values(list.as_slice()),
            froms(tables.as_slice()),
            test(by),
            test(having),
        ),
        Query::Combine(a, _, _, _, b) | Query::Intersect(a, _, _, b) => {
            total_of(query(a), query(b))
        }
    }
}

/// That a query is written with no more than so many nodes. It fails where they are more.
pub fn fits(x: &Query, most: usize) -> Result<(), OutOfMemory>
    ensures { OnOk result (spec.query_size (shown.query x.now) ≤ most) }
{
    if query(x)? <= most {
        Ok(())
    } else {
        Err(OutOfMemory)
    }
}
