// What expressions and conditions are.
ghost use Rattle.std.specs.Prelude.{◌≡◌, IfOk, IsOkAnd, true, false, unwrap_or};
ghost use Rattle.qgm_terms.specs.Shown.{choices, cond, conds, links, sign, term};
ghost use Rattle.qgm_terms.specs.Terms.{armed};
ghost use Rattle.row_bag.specs.RowRefs.{lent};
ghost use Rattle.sql_value.specs.Arithmetic as arithmetic;
ghost use Rattle.sql_value.specs.Comparison as comparisons;
ghost use Rattle.sql_value.specs.Truths as truths;
ghost use Rattle.sql_value.specs.declared.cell.Cell.{Cell};
ghost use Rattle.box_exec.specs.Bound.{env_of};
ghost use Rattle.box_exec.specs.Sources.{held_by};
ghost use Rattle.box_exec.specs.Forms.{cell_held};
ghost use Rattle.box_exec.specs.Idle as idle;
ghost use Rattle.box_exec.specs.Lists as lists;
ghost use Rattle.qgm_meaning.specs.Values as meaning;

use crate::bindings::{Bindings, column};
use crate::operand::{OperandCell, standing};
use crate::source::{Sub, rows_of, way_of};
use qgm_terms::{Arm, Gc, Gx, Link, Op, QuantId, Sign};
use row_bag::{RowRef, presence, scalar};
use row_index::{first_of, next_of};
use shared_types::OutOfMemory;
use sql_value::{
    Cell, CharacterString, CmpOp, Kind, Level, Text, Truth, add, and, compare, concat, decided,
    div, is_null, like, mul, neg, not, or, same, sub,
};
use std::alloc::Global;

/// A text as a cell.
#[inline(never)]
pub(crate) fn text(alloc: Global, characters: &Text) -> Result<Cell, OutOfMemory>
    ensures { IfOk result (λ cell. cell ≡ Cell.Text characters.now) }
{
    Ok(Cell::Text(CharacterString::from_chars(alloc, characters.as_slice())?))
}

/// An operation on two cells.
#[inline(never)]
pub(crate) fn operate(alloc: Global, op: Op, a: &Cell, b: &Cell) -> Result<Cell, OutOfMemory>
    ensures { IfOk result (λ cell. cell ≡ meaning.operate op a.now b.now) }
{
    match op {
        Op::Add => Ok(add(a, b)),
        Op::Sub => Ok(sub(a, b)),
        Op::Mul => Ok(mul(a, b)),
        Op::Div => Ok(div(a, b)),
        Op::Cat => concat(alloc, a, b),
    }
}

// What a comparison makes of the cells of its two operands.
#[inline(never)]
fn comparison(s: Sign, a: &Cell, b: &Cell) -> Truth
    ensures { result ≡ meaning.compared (sign s) a.now b.now }
{
    match s {
        Sign::Eq => compare(CmpOp::Eq, a, b),
        Sign::Ne => compare(CmpOp::Ne, a, b),
        Sign::Lt => compare(CmpOp::Lt, a, b),
        Sign::Le => compare(CmpOp::Le, a, b),
        Sign::Gt => compare(CmpOp::Gt, a, b),
        Sign::Ge => compare(CmpOp::Ge, a, b),
        Sign::Same => same(a, b),
        Sign::Like => like(a, b),
    }
}

// What a comparison makes of its two operands.
#[inline(never)]
fn compared(
    s: Sign,
    a: Result<OperandCell<'_>, OutOfMemory>,
    b: Result<OperandCell<'_>, OutOfMemory>,
) -> Result<Truth, OutOfMemory>
    ensures { IfOk result (λ truth. IsOkAnd a.entry (λ x. IsOkAnd b.entry (λ y. truth ≡ meaning.compared (sign s) (cell_held x) (cell_held y)))) }
{
    let a = a?;
    let b = b?;
    Ok(comparison(s, a.cell(), b.cell()))
}

// Whether a cell is null.
#[inline(never)]
fn null_test(a: Result<Cell, OutOfMemory>) -> Result<Truth, OutOfMemory>
    ensures { IfOk result (λ truth. IsOkAnd a (λ x. truth ≡ comparisons.is_null x)) }
{
    Ok(is_null(&a?))
}

// `-a`.
#[inline(never)]
fn negative(a: Result<Cell, OutOfMemory>) -> Result<Cell, OutOfMemory>
    ensures { IfOk result (λ cell. IsOkAnd a (λ x. cell ≡ arithmetic.neg x)) }
{
    Ok(neg(&a?))
}

// `NOT p`.
#[inline(never)]
fn negated(p: Result<Truth, OutOfMemory>) -> Result<Truth, OutOfMemory>
    ensures { IfOk result (λ truth. IsOkAnd p (λ q. truth ≡ truths.negated q)) }
{
    Ok(not(p?))
}

// Whether a truth is wholly so.
fn is_wholly(truth: Truth, holds: bool) -> bool
    ensures { result ≡ true → truth ≡ truths.truth_of holds }
{
    truth == decided(holds)
}

// The AND of two, or else the OR.
fn joined(holds: bool, a: Truth, b: Truth) -> Truth
    ensures { result ≡ idle.joined holds a b }
{
    if holds { and(a, b) } else { or(a, b) }
}

// NOT presence of a row OR a condition on it; or else presence AND the condition.
fn counted(
    holds: bool,
    level: Level,
    held: Result<Truth, OutOfMemory>,
) -> Result<Truth, OutOfMemory>
    ensures { IfOk result (λ truth. IsOkAnd held (λ p. truth ≡ idle.counted holds level p)) }
{
    let held = held?;
    if holds {
        Ok(or(not(presence(level)), held))
    } else {
        Ok(and(presence(level), held))
    }
}

/// The cell that an expression is.
#[cycle(value)]
pub fn value(alloc: Global, x: &Gx, subs: &[Sub<'_>], env: &Bindings) -> Result<Cell, OutOfMemory>
    ensures { IfOk result (λ cell. cell ≡ meaning.value (held_by subs.now) (term x.now) (env_of env.now)) }
{
    match x {
        Gx::Int(number) => Ok(Cell::Int(*number)),
        Gx::Text(characters) => text(alloc, characters),
        Gx::Col(q, k) => column(alloc, env, *q, *k),
        Gx::Scalar(q) => match rows_of(subs, *q) {
            Some(rows) => scalar(alloc, rows),
            None => Ok(Cell::Null),
        },
        Gx::Chain(a, list) => {
            let first = value(alloc, a, subs, env)?;
            chain(alloc, first, list, subs, env)
        }
        Gx::Neg(a) => negative(value(alloc, a, subs, env)),
        Gx::Case(list, last) => {
            let found = first_true(alloc, list, subs, env);
            or_last(alloc, found, last, subs, env)
        }
        // An aggregate is a cell of a group alone.
        Gx::NullInt | Gx::NullText | Gx::CountAll | Gx::Fold(_, _, _) => Ok(Cell::Null),
    }
}

// A first operand, and then operators and operands.
#[cycle(value)]
#[inline(never)]
fn chain(
    alloc: Global,
    first: Cell,
    list: &[Link],
    subs: &[Sub<'_>],
    env: &Bindings,
) -> Result<Cell, OutOfMemory>
    ensures { IfOk result (λ cell. cell ≡ lists.chained (held_by subs.now) first (links list.now) (env_of env.now)) }
{
    let mut total = first;
    for link in list {
        let next = value(alloc, &link.right, subs, env)?;
        total = operate(alloc, link.op, &total, &next)?;
    }
    Ok(total)
}

// A cell that was found, or that of the last expression.
#[cycle(value)]
#[inline(never)]
fn or_last(
    alloc: Global,
    found: Result<Option<Cell>, OutOfMemory>,
    last: &Gx,
    subs: &[Sub<'_>],
    env: &Bindings,
) -> Result<Cell, OutOfMemory>
    ensures { IfOk result (λ cell. IsOkAnd found (λ o. cell ≡ unwrap_or o (meaning.value (held_by subs.now) (term last.now) (env_of env.now)))) }
{
    match found? {
        Some(cell) => Ok(cell),
        None => value(alloc, last, subs, env),
    }
}

// The result of the first condition that is true, or the error that one of them comes to; none where
// all before are not true at all.
#[cycle(value)]
#[inline(never)]
fn first_true(
    alloc: Global,
    list: &[Arm],
    subs: &[Sub<'_>],
    env: &Bindings,
) -> Result<Option<Cell>, OutOfMemory>
    ensures { IfOk result (λ found. (last : Cell) → meaning.first_true (held_by subs.now) (armed (choices list.now)) last (env_of env.now) ≡ unwrap_or found last) }
{
    for arm in list {
        match hold(alloc, &arm.when, subs, env)?.t {
            Level::Yes => return Ok(Some(value(alloc, &arm.then, subs, env)?)),
            Level::No => {}
            Level::Cardinality => return Ok(Some(Cell::Err(Kind::Cardinality))),
            Level::Division => return Ok(Some(Cell::Err(Kind::Division))),
            Level::Overflow => return Ok(Some(Cell::Err(Kind::Overflow))),
        }
    }
    Ok(None)
}

// The cell of an operand: where it stands if it is a column's.
#[cycle(value)]
#[inline(never)]
fn operand<'a>(
    alloc: Global,
    x: &Gx,
    subs: &[Sub<'_>],
    env: &Bindings<'a>,
) -> Result<OperandCell<'a>, OutOfMemory>
    ensures { IfOk result (λ o. cell_held o ≡ meaning.value (held_by subs.now) (term x.now) (env_of env.now)) }
{
    match standing(x, env) {
        Some(cell) => Ok(OperandCell::Borrowed(cell)),
        None => Ok(OperandCell::Made(value(alloc, x, subs, env)?)),
    }
}

/// How far a condition is true and false.
#[cycle(value)]
pub fn hold(alloc: Global, p: &Gc, subs: &[Sub<'_>], env: &Bindings) -> Result<Truth, OutOfMemory>
    ensures { IfOk result (λ truth. truth ≡ meaning.truth (held_by subs.now) (cond p.now) (env_of env.now)) }
{
    match p {
        Gc::True => Ok(decided(true)),
        Gc::Compare(s, a, b) => {
            let left = operand(alloc, a, subs, env);
            compared(*s, left, operand(alloc, b, subs, env))
        }
        Gc::IsNull(a) => null_test(value(alloc, a, subs, env)),
        Gc::All(a, list) => {
            let first = hold(alloc, a, subs, env)?;
            all_of(alloc, first, list, subs, env)
        }
        Gc::Any(a, list) => {
            let first = hold(alloc, a, subs, env)?;
            any_of(alloc, first, list, subs, env)
        }
        Gc::Not(a) => negated(hold(alloc, a, subs, env)),
        Gc::Some(q, a) => quantified(alloc, false, *q, a, subs, env),
        Gc::Every(q, a) => quantified(alloc, true, *q, a, subs, env),
    }
}

// The AND of the first and the others.
#[cycle(value)]
#[inline(never)]
fn all_of(
    alloc: Global,
    first: Truth,
    list: &[Gc],
    subs: &[Sub<'_>],
    env: &Bindings,
) -> Result<Truth, OutOfMemory>
    ensures { IfOk result (λ truth. truth ≡ lists.all_of (held_by subs.now) first (conds list.now) (env_of env.now)) }
{
    let mut total = first;
    for p in list {
        total = and(total, hold(alloc, p, subs, env)?);
    }
    Ok(total)
}

// The OR of the first and the others.
#[cycle(value)]
#[inline(never)]
fn any_of(
    alloc: Global,
    first: Truth,
    list: &[Gc],
    subs: &[Sub<'_>],
    env: &Bindings,
) -> Result<Truth, OutOfMemory>
    ensures { IfOk result (λ truth. truth ≡ lists.any_of (held_by subs.now) first (conds list.now) (env_of env.now)) }
{
    let mut total = first;
    for p in list {
        total = or(total, hold(alloc, p, subs, env)?);
    }
    Ok(total)
}

// For a row of the quantifier: an OR that ends where it is true. Or for each: an AND that ends where it is
// false. Rows that an index tells to count for nothing are passed over.
#[cycle(value)]
#[inline(never)]
fn quantified(
    alloc: Global,
    holds: bool,
    q: QuantId,
    p: &Gc,
    subs: &[Sub<'_>],
    env: &Bindings,
) -> Result<Truth, OutOfMemory>
    ensures { IfOk result (λ truth. truth ≡ idle.quantified holds (λ cells. meaning.truth (held_by subs.now) (cond p.now) (meaning.bound q cells (env_of env.now))) (held_by subs.now q)) }
{
    let Some(rows) = rows_of(subs, q) else {
        return Ok(decided(holds));
    };
    let way = way_of(alloc, subs, holds, q, p, env)?;
    let mut truth = decided(holds);
    let mut c = first_of(&way);
    let mut i = c.place();
    while i < rows.len() {
        if is_wholly(truth, !holds) {
            return Ok(truth);
        }
        let counted = row_truth(alloc, holds, q, p, rows.at(i), subs, env)?;
        truth = joined(holds, truth, counted);
        c = next_of(&way, c);
        i = c.place();
    }
    Ok(truth)
}

// What a row counts in it.
#[cycle(value)]
#[inline(never)]
fn row_truth(
    alloc: Global,
    holds: bool,
    q: QuantId,
    p: &Gc,
    row: RowRef<'_>,
    subs: &[Sub<'_>],
    env: &Bindings,
) -> Result<Truth, OutOfMemory>
    ensures { IfOk result (λ truth. truth ≡ idle.row_truth holds (λ cells. meaning.truth (held_by subs.now) (cond p.now) (meaning.bound q cells (env_of env.now))) (lent row.entry)) }
{
    match row.level {
        Level::No => Ok(decided(holds)),
        Level::Cardinality | Level::Division | Level::Overflow | Level::Yes => {
            let inside = Bindings::Row(q, row.cells, &*env);
            counted(holds, row.level, hold(alloc, p, subs, &inside))
        }
    }
}
