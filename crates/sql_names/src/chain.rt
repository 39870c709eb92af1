// Chains of operators, which are one list however long they are.
ghost use Rattle.std.specs.Prelude.{◌≡◌, true, false, IfOk, OnOk};
ghost use Rattle.sql_meaning.specs.ResolvedShown as shown;
ghost use Rattle.sql_meaning.specs.ResolvedTrees as tree;
ghost use Rattle.sql_names.specs.Forms as forms;
ghost use Rattle.sql_names.specs.Resolved as spec;

use crate::boxes::{boxed, one, pair, push, two};
use shared_types::OutOfMemory;
use sql_ast::{AdditiveOp, DataType, MultiplicativeOp, Sign};
use sql_meaning::{Addend, Multiplier, Test, Value};
use sql_value::SqlType;
use sqlite_items::Items;
use std::alloc::Global;

// Whether a value is a chain of `+`, `-` or `||`.
fn sums(x: &Value) -> bool
    ensures { result ≡ forms.sums (shown.value x.now) }
{
    match x {
        Value::Sum(_, _) => true,
        Value::Number(_)
        | Value::Text(_)
        | Value::Null(_)
        | Value::Column(_, _)
        | Value::Product(_, _)
        | Value::Negative(_)
        | Value::Searched(_, _)
        | Value::Simple(_, _, _)
        | Value::Coalesce(_, _)
        | Value::NullIf(_, _)
        | Value::Scalar(_)
        | Value::CountAll
        | Value::Aggregate(_, _, _) => false,
    }
}

// Adds an operator and its right operand at the end.
#[tactic(auto, using(crate::proofs::Pushed::addends_pushed))]
fn push_addend(
    addends: &mut Items<Addend>,
    op: AdditiveOp,
    right: Box<Value>,
) -> Result<(), OutOfMemory>
    ensures { OnOk result (shown.addend_list addends.new ≡ spec.more_addends (shown.addend_list addends.old) op (shown.value right.value)) }
{
    let value = Box::into_inner(right);
    push(addends, Addend { op, value })
}

// One operator and its right operand.
fn one_addend(
    alloc: Global,
    op: AdditiveOp,
    right: Box<Value>,
) -> Result<Items<Addend>, OutOfMemory>
    ensures { IfOk result (λ addends. shown.addend_list addends ≡ tree.one_addend op (shown.value right.value) tree.no_addend) }
{
    let value = Box::into_inner(right);
    one(alloc, Addend { op, value })
}

// A chain with one more operand.
#[tactic(auto, using(sql_meaning::specs::ResolvedShown::lists))]
fn longer_sum(
    alloc: Global,
    left: Box<Value>,
    op: AdditiveOp,
    right: Box<Value>,
) -> Result<Box<Value>, OutOfMemory>
    requires { forms.sums (shown.value left.value) ≡ true }
    ensures { IfOk result (λ v. shown.value v.value ≡ spec.plus (shown.value left.value) op (shown.value right.value)) }
{
    let (first, mut addends) = Box::into_inner(left).into_sum();
    push_addend(&mut addends, op, right)?;
    boxed(alloc, Value::Sum(first, addends))
}

// A chain of two operands.
#[tactic(auto, using(sql_meaning::specs::ResolvedShown::lists, crate::proofs::Pushed::plus_first))]
fn first_sum(
    alloc: Global,
    left: Box<Value>,
    op: AdditiveOp,
    right: Box<Value>,
) -> Result<Box<Value>, OutOfMemory>
    requires { forms.sums (shown.value left.value) ≡ false }
    ensures { IfOk result (λ v. shown.value v.value ≡ spec.plus (shown.value left.value) op (shown.value right.value)) }
{
    let addends = one_addend(alloc, op, right)?;
    boxed(alloc, Value::Sum(left, addends))
}

/// `left + right`, `left - right` or `left || right`.
pub(crate) fn sum(
    alloc: Global,
    left: Result<Box<Value>, OutOfMemory>,
    op: AdditiveOp,
    right: Result<Box<Value>, OutOfMemory>,
) -> Result<Box<Value>, OutOfMemory>
    ensures { (a b : tree.Value) → IfOk left (λ v. shown.value v.value ≡ a) → IfOk right (λ v. shown.value v.value ≡ b) → IfOk result (λ v. shown.value v.value ≡ spec.plus a op b) }
{
    let (left, right) = pair(left, right)?;
    if sums(&left) {
        longer_sum(alloc, left, op, right)
    } else {
        first_sum(alloc, left, op, right)
    }
}

// Whether a value is a chain of `*` or `/`.
fn multiplies(x: &Value) -> bool
    ensures { result ≡ forms.multiplies (shown.value x.now) }
{
    match x {
        Value::Product(_, _) => true,
        Value::Number(_)
        | Value::Text(_)
        | Value::Null(_)
        | Value::Column(_, _)
        | Value::Sum(_, _)
        | Value::Negative(_)
        | Value::Searched(_, _)
        | Value::Simple(_, _, _)
        | Value::Coalesce(_, _)
        | Value::NullIf(_, _)
        | Value::Scalar(_)
        | Value::CountAll
        | Value::Aggregate(_, _, _) => false,
    }
}

// Adds an operator and its right operand at the end.
#[tactic(auto, using(crate::proofs::Pushed::multipliers_pushed))]
fn push_multiplier(
    multipliers: &mut Items<Multiplier>,
    op: MultiplicativeOp,
    right: Box<Value>,
) -> Result<(), OutOfMemory>
    ensures { OnOk result (shown.multiplier_list multipliers.new ≡ spec.more_multipliers (shown.multiplier_list multipliers.old) op (shown.value right.value)) }
{
    let value = Box::into_inner(right);
    push(multipliers, Multiplier { op, value })
}

// One operator and its right operand.
fn one_multiplier(
    alloc: Global,
    op: MultiplicativeOp,
    right: Box<Value>,
) -> Result<Items<Multiplier>, OutOfMemory>
    ensures { IfOk result (λ multipliers. shown.multiplier_list multipliers ≡ tree.one_multiplier op (shown.value right.value) tree.no_multiplier) }
{
    let value = Box::into_inner(right);
    one(alloc, Multiplier { op, value })
}

// A chain with one more operand.
#[tactic(auto, using(sql_meaning::specs::ResolvedShown::lists))]
fn longer_product(
    alloc: Global,
    left: Box<Value>,
    op: MultiplicativeOp,
    right: Box<Value>,
) -> Result<Box<Value>, OutOfMemory>
    requires { forms.multiplies (shown.value left.value) ≡ true }
    ensures { IfOk result (λ v. shown.value v.value ≡ spec.times (shown.value left.value) op (shown.value right.value)) }
{
    let (first, mut multipliers) = Box::into_inner(left).into_product();
    push_multiplier(&mut multipliers, op, right)?;
    boxed(alloc, Value::Product(first, multipliers))
}

// A chain of two operands.
#[tactic(auto, using(sql_meaning::specs::ResolvedShown::lists, crate::proofs::Pushed::times_first))]
fn first_product(
    alloc: Global,
    left: Box<Value>,
    op: MultiplicativeOp,
    right: Box<Value>,
) -> Result<Box<Value>, OutOfMemory>
    requires { forms.multiplies (shown.value left.value) ≡ false }
    ensures { IfOk result (λ v. shown.value v.value ≡ spec.times (shown.value left.value) op (shown.value right.value)) }
{
    let multipliers = one_multiplier(alloc, op, right)?;
    boxed(alloc, Value::Product(left, multipliers))
}

/// `left * right` or `left / right`.
pub(crate) fn product(
    alloc: Global,
    left: Result<Box<Value>, OutOfMemory>,
    op: MultiplicativeOp,
    right: Result<Box<Value>, OutOfMemory>,
) -> Result<Box<Value>, OutOfMemory>
    ensures { (a b : tree.Value) → IfOk left (λ v. shown.value v.value ≡ a) → IfOk right (λ v. shown.value v.value ≡ b) → IfOk result (λ v. shown.value v.value ≡ spec.times a op b) }
{
    let (left, right) = pair(left, right)?;
    if multiplies(&left) {
        longer_product(alloc, left, op, right)
    } else {
        first_product(alloc, left, op, right)
    }
}

// Adds a condition at the end.
#[tactic(auto, using(crate::proofs::Pushed::tests_pushed))]
fn push_test(tests: &mut Items<Test>, p: Box<Test>) -> Result<(), OutOfMemory>
    ensures { OnOk result (shown.test_list tests.new ≡ spec.more_tests (shown.test_list tests.old) (shown.test p.value)) }
{
    push(tests, Box::into_inner(p))
}

// Whether a condition is a chain of AND.
fn wants_all(p: &Test) -> bool
    ensures { result ≡ forms.wants_all (shown.test p.now) }
{
    match p {
        Test::All(_) => true,
        Test::Any(_)
        | Test::Not(_)
        | Test::Compare(_, _, _)
        | Test::Quantified(_, _, _, _)
        | Test::Between(_, _, _)
        | Test::Among(_, _)
        | Test::AmongRows(_, _)
        | Test::Like(_, _)
        | Test::IsNull(_)
        | Test::Exists(_) => false,
    }
}

// A chain with one more operand.
#[tactic(auto, using(sql_meaning::specs::ResolvedShown::lists))]
fn longer_both(mut left: Box<Test>, right: Box<Test>) -> Result<Box<Test>, OutOfMemory>
    requires { forms.wants_all (shown.test left.value) ≡ true }
    ensures { IfOk result (λ p. shown.test p.value ≡ spec.both (shown.test left.value) (shown.test right.value)) }
{
    let Test::All(tests) = &mut *left else {
        unreachable!()
    };
    push_test(tests, right)?;
    Ok(left)
}

// A chain of two operands.
#[tactic(auto, using(sql_meaning::specs::ResolvedShown::lists, crate::proofs::Pushed::both_first))]
fn first_both(alloc: Global, left: Box<Test>, right: Box<Test>) -> Result<Box<Test>, OutOfMemory>
    requires { forms.wants_all (shown.test left.value) ≡ false }
    ensures { IfOk result (λ p. shown.test p.value ≡ spec.both (shown.test left.value) (shown.test right.value)) }
{
    let tests = two(alloc, left, right)?;
    boxed(alloc, Test::All(tests))
}

/// `left AND right`.
pub(crate) fn both(
    alloc: Global,
    left: Result<Box<Test>, OutOfMemory>,
    right: Result<Box<Test>, OutOfMemory>,
) -> Result<Box<Test>, OutOfMemory>
    ensures { (a b : tree.Test) → IfOk left (λ v. shown.test v.value ≡ a) → IfOk right (λ v. shown.test v.value ≡ b) → IfOk result (λ v. shown.test v.value ≡ spec.both a b) }
{
    let (left, right) = pair(left, right)?;
    if wants_all(&left) {
        longer_both(left, right)
    } else {
        first_both(alloc, left, right)
    }
}

// Whether a condition is a chain of OR.
fn wants_any(p: &Test) -> bool
    ensures { result ≡ forms.wants_any (shown.test p.now) }
{
    match p {
        Test::Any(_) => true,
        Test::All(_)
        | Test::Not(_)
        | Test::Compare(_, _, _)
        | Test::Quantified(_, _, _, _)
        | Test::Between(_, _, _)
        | Test::Among(_, _)
        | Test::AmongRows(_, _)
        | Test::Like(_, _)
        | Test::IsNull(_)
        | Test::Exists(_) => false,
    }
}

// A chain with one more operand.
#[tactic(auto, using(sql_meaning::specs::ResolvedShown::lists))]
fn longer_either(mut left: Box<Test>, right: Box<Test>) -> Result<Box<Test>, OutOfMemory>
    requires { forms.wants_any (shown.test left.value) ≡ true }
    ensures { IfOk result (λ p. shown.test p.value ≡ spec.either (shown.test left.value) (shown.test right.value)) }
{
    let Test::Any(tests) = &mut *left else {
        unreachable!()
    };
    push_test(tests, right)?;
    Ok(left)
}

// A chain of two operands.
#[tactic(auto, using(sql_meaning::specs::ResolvedShown::lists, crate::proofs::Pushed::either_first))]
fn first_either(alloc: Global, left: Box<Test>, right: Box<Test>) -> Result<Box<Test>, OutOfMemory>
    requires { forms.wants_any (shown.test left.value) ≡ false }
    ensures { IfOk result (λ p. shown.test p.value ≡ spec.either (shown.test left.value) (shown.test right.value)) }
{
    let tests = two(alloc, left, right)?;
    boxed(alloc, Test::Any(tests))
}

/// `left OR right`.
pub(crate) fn either(
    alloc: Global,
    left: Result<Box<Test>, OutOfMemory>,
    right: Result<Box<Test>, OutOfMemory>,
) -> Result<Box<Test>, OutOfMemory>
    ensures { (a b : tree.Test) → IfOk left (λ v. shown.test v.value ≡ a) → IfOk right (λ v. shown.test v.value ≡ b) → IfOk result (λ v. shown.test v.value ≡ spec.either a b) }
{
    let (left, right) = pair(left, right)?;
    if wants_any(&left) {
        longer_either(left, right)
    } else {
        first_either(alloc, left, right)
    }
}

/// `+ x` or `- x`.
pub(crate) fn signed(
    alloc: Global,
    sign: Sign,
    x: Result<Box<Value>, OutOfMemory>,
) -> Result<Box<Value>, OutOfMemory>
    ensures { (a : tree.Value) → IfOk x (λ v. shown.value v.value ≡ a) → IfOk result (λ v. shown.value v.value ≡ spec.signed sign a) }
{
    match sign {
        Sign::Plus => x,
        Sign::Minus => boxed(alloc, Value::Negative(x?)),
    }
}

/// NOT, where it is written.
pub(crate) fn perhaps_not(
    alloc: Global,
    negative: bool,
    p: Result<Box<Test>, OutOfMemory>,
) -> Result<Box<Test>, OutOfMemory>
    ensures { (a : tree.Test) → IfOk p (λ v. shown.test v.value ≡ a) → IfOk result (λ v. shown.test v.value ≡ spec.perhaps_not negative a) }
{
    if negative {
        boxed(alloc, Test::Not(p?))
    } else {
        p
    }
}

/// The type that a CAST names.
pub(crate) fn type_of(to: &DataType) -> SqlType
    ensures { result ≡ spec.type_of to.now }
{
    match to {
        DataType::Integer | DataType::Int => SqlType::Integer,
        DataType::Varchar(_) => SqlType::Varchar,
    }
}
