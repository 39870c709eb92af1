// The aggregates of a block, in the order of the text.
ghost use Rattle.std.specs.Prelude.{◌≡◌, ◌++◌, ◌∷◌, [], OnOk, map};
ghost use Rattle.sql_meaning.specs.ResolvedShown as shown;
ghost use Rattle.qgm_translation.specs.Leaves as l;
ghost use Rattle.qgm_translation.specs.Folds.{folds_in};
ghost use Rattle.qgm_build_terms.specs.Folds.{leaf_of};

use crate::boxes::push;
use shared_types::OutOfMemory;
use sql_ast::SetFunction;
use sql_meaning::{Addend, Arm, Choice, Multiplier, Test, Value};

/// An aggregate of the text.
#[derive(Clone, Copy)]
pub enum Fold<'a> {
    CountAll,
    /// Of an argument, with DISTINCT where the bool is true.
    Of(SetFunction, bool, &'a Value),
}

// Adds an aggregate.
fn push_fold<'a>(out: &mut Vec<Fold<'a>>, x: Fold<'a>) -> Result<(), OutOfMemory>
    ensures { OnOk result (map leaf_of out.new.items ≡ map leaf_of out.old.items ++ leaf_of x.entry ∷ []) }
{
    push(out, x)
}

// Adds the aggregates of an expression.
#[cycle(folds)]
pub(crate) fn value_folds<'a>(x: &'a Value, out: &mut Vec<Fold<'a>>) -> Result<(), OutOfMemory>
    ensures { OnOk result (map leaf_of out.new.items ≡ map leaf_of out.old.items ++ folds_in (l.leaves [] (shown.value x.now))) }
{
    match x {
        Value::Number(_)
        | Value::Text(_)
        | Value::Null(_)
        | Value::Column(_, _)
        | Value::Scalar(_) => Ok(()),
        Value::Sum(a, list) => value_folds(a, out).and(addend_folds(list.as_slice(), out)),
        Value::Product(a, list) => {
            value_folds(a, out).and(multiplier_folds(list.as_slice(), out))
        }
        Value::Negative(a) => value_folds(a, out),
        Value::Searched(list, last) => arm_folds(list.as_slice(), out).and(value_folds(last, out)),
        Value::Simple(a, list, last) => {
            let read = value_folds(a, out).and(choice_folds(list.as_slice(), out));
            read.and(value_folds(last, out))
        }
        Value::Coalesce(a, list) => value_folds(a, out).and(list_folds(list.as_slice(), out)),
        Value::NullIf(a, b) => value_folds(a, out).and(value_folds(b, out)),
        Value::CountAll => push_fold(out, Fold::CountAll),
        Value::Aggregate(function, distinct, a) => push_fold(
            out,
            Fold::Of(*function, *distinct, a),
        ),
    }
}

// Adds the aggregates of the operands of a sum.
#[cycle(folds)]
fn addend_folds<'a>(list: &'a [Addend], out: &mut Vec<Fold<'a>>) -> Result<(), OutOfMemory>
    ensures { OnOk result (map leaf_of out.new.items ≡ map leaf_of out.old.items ++ folds_in (l.addend_leaves [] (shown.addend_list list.now))) }
{
    for x in list {
        value_folds(&x.value, out)?;
    }
    Ok(())
}

// Adds the aggregates of the operands of a product.
#[cycle(folds)]
fn multiplier_folds<'a>(list: &'a [Multiplier], out: &mut Vec<Fold<'a>>) -> Result<(), OutOfMemory>
    ensures { OnOk result (map leaf_of out.new.items ≡ map leaf_of out.old.items ++ folds_in (l.multiplier_leaves [] (shown.multiplier_list list.now))) }
{
    for x in list {
        value_folds(&x.value, out)?;
    }
    Ok(())
}

/// Adds the aggregates of a list, in their order.
#[cycle(folds)]
pub fn list_folds<'a>(list: &'a [Value], out: &mut Vec<Fold<'a>>) -> Result<(), OutOfMemory>
    ensures { OnOk result (map leaf_of out.new.items ≡ map leaf_of out.old.items ++ folds_in (l.list_leaves [] (shown.value_list list.now))) }
{
    for x in list {
        value_folds(x, out)?;
    }
    Ok(())
}

// Adds the aggregates of the arms of a CASE: of their conditions and results.
#[cycle(folds)]
fn arm_folds<'a>(list: &'a [Arm], out: &mut Vec<Fold<'a>>) -> Result<(), OutOfMemory>
    ensures { OnOk result (map leaf_of out.new.items ≡ map leaf_of out.old.items ++ folds_in (l.arm_leaves [] (shown.arm_list list.now))) }
{
    for x in list {
        test_folds(&x.when, out).and(value_folds(&x.then, out))?;
    }
    Ok(())
}

// Adds the aggregates of the arms of a CASE with an operand: of their values and results.
#[cycle(folds)]
fn choice_folds<'a>(list: &'a [Choice], out: &mut Vec<Fold<'a>>) -> Result<(), OutOfMemory>
    ensures { OnOk result (map leaf_of out.new.items ≡ map leaf_of out.old.items ++ folds_in (l.choice_leaves [] (shown.choice_list list.now))) }
{
    for x in list {
        value_folds(&x.when, out).and(value_folds(&x.then, out))?;
    }
    Ok(())
}

/// Adds the aggregates of a condition, in their order.
#[cycle(folds)]
pub fn test_folds<'a>(p: &'a Test, out: &mut Vec<Fold<'a>>) -> Result<(), OutOfMemory>
    ensures { OnOk result (map leaf_of out.new.items ≡ map leaf_of out.old.items ++ folds_in (l.test_leaves [] (shown.test p.now))) }
{
    match p {
        Test::All(list) | Test::Any(list) => tests_folds(list.as_slice(), out),
        Test::Not(p) => test_folds(p, out),
        Test::Compare(a, _, b) | Test::Like(a, b) => {
            value_folds(a, out).and(value_folds(b, out))
        }
        Test::Quantified(a, _, _, _) => value_folds(a, out),
        Test::AmongRows(a, _) => value_folds(a, out),
        Test::Between(a, b, c) => {
            let read = value_folds(a, out).and(value_folds(b, out));
            read.and(value_folds(c, out))
        }
        Test::Among(a, list) => value_folds(a, out).and(list_folds(list.as_slice(), out)),
        Test::IsNull(a) => value_folds(a, out),
        Test::Exists(_) => Ok(()),
    }
}

// Adds the aggregates of conditions, in their order.
#[cycle(folds)]
fn tests_folds<'a>(list: &'a [Test], out: &mut Vec<Fold<'a>>) -> Result<(), OutOfMemory>
    ensures { OnOk result (map leaf_of out.new.items ≡ map leaf_of out.old.items ++ folds_in (l.tests_leaves [] (shown.test_list list.now))) }
{
    for p in list {
        test_folds(p, out)?;
    }
    Ok(())
}
