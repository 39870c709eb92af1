// Which tables and views a query reads. Both sides of a choice are read, so that it makes one path.
ghost use Rattle.std.specs.Prelude.{◌≡◌};
ghost use Rattle.sql_meaning.specs.ResolvedShown as shown;
ghost use Rattle.qgm_translation.specs.Reads as spec;

use shared_types::Text;
use sql_meaning::{Addend, Arm, Choice, From, Multiplier, Query, Test, Value};

// Whether a subquery of an expression reads this table.
#[cycle(reads)]
fn value_reads(x: &Value, name: &Text) -> bool
    ensures { result ≡ spec.value_reads (shown.value x.now) name.now }
{
    match x {
        Value::Number(_)
        | Value::Text(_)
        | Value::Null(_)
        | Value::Column(_, _)
        | Value::CountAll
        | Value::Aggregate(_, _, _) => false,
        Value::Sum(a, list) => value_reads(a, name) | addends_read(list.as_slice(), name),
        Value::Product(a, list) => value_reads(a, name) | multipliers_read(list.as_slice(), name),
        Value::Negative(a) => value_reads(a, name),
        Value::Searched(list, last) => arms_read(list.as_slice(), name) | value_reads(last, name),
        Value::Simple(a, list, last) => {
            value_reads(a, name) | (choices_read(list.as_slice(), name) | value_reads(last, name))
        }
        Value::Coalesce(a, list) => value_reads(a, name) | values_read(list.as_slice(), name),
        Value::NullIf(a, b) => value_reads(a, name) | value_reads(b, name),
        Value::Scalar(query) => reads(query, name),
    }
}

// Whether a subquery of the operands of a sum reads this table.
#[cycle(reads)]
fn addends_read(list: &[Addend], name: &Text) -> bool
    ensures { result ≡ spec.addends_read (shown.addend_list list.now) name.now }
{
    for x in list {
        if value_reads(&x.value, name) {
            return true;
        }
    }
    false
}

// Whether a subquery of the operands of a product reads this table.
#[cycle(reads)]
fn multipliers_read(list: &[Multiplier], name: &Text) -> bool
    ensures { result ≡ spec.multipliers_read (shown.multiplier_list list.now) name.now }
{
    for x in list {
        if value_reads(&x.value, name) {
            return true;
        }
    }
    false
}

// Whether a subquery of a list of expressions reads this table.
#[cycle(reads)]
pub(crate) fn values_read(list: &[Value], name: &Text) -> bool
    ensures { result ≡ spec.values_read (shown.value_list list.now) name.now }
{
    for x in list {
        if value_reads(x, name) {
            return true;
        }
    }
    false
}

// Whether a subquery of the arms of a CASE, of their conditions and results, reads this table.
#[cycle(reads)]
fn arms_read(list: &[Arm], name: &Text) -> bool
    ensures { result ≡ spec.arms_read (shown.arm_list list.now) name.now }
{
    for arm in list {
        if test_reads(&arm.when, name) | value_reads(&arm.then, name) {
            return true;
        }
    }
    false
}

// Whether a subquery of the arms of a CASE with an operand, of their values and results, reads this table.
#[cycle(reads)]
fn choices_read(list: &[Choice], name: &Text) -> bool
    ensures { result ≡ spec.choices_read (shown.choice_list list.now) name.now }
{
    for choice in list {
        if value_reads(&choice.when, name) | value_reads(&choice.then, name) {
            return true;
        }
    }
    false
}

// Whether a subquery of a condition reads this table.
#[cycle(reads)]
pub(crate) fn test_reads(p: &Test, name: &Text) -> bool
    ensures { result ≡ spec.test_reads (shown.test p.now) name.now }
{
    match p {
        Test::All(list) | Test::Any(list) => tests_read(list.as_slice(), name),
        Test::Not(p) => test_reads(p, name),
        Test::Compare(a, _, b) | Test::Like(a, b) => value_reads(a, name) | value_reads(b, name),
        Test::Quantified(a, _, _, query) | Test::AmongRows(a, query) => {
            value_reads(a, name) | reads(query, name)
        }
        Test::Between(a, b, c) => {
            value_reads(a, name) | (value_reads(b, name) | value_reads(c, name))
        }
        Test::Among(a, list) => value_reads(a, name) | values_read(list.as_slice(), name),
        Test::IsNull(a) => value_reads(a, name),
        Test::Exists(query) => reads(query, name),
    }
}

// Whether a subquery of a list of conditions reads this table.
#[cycle(reads)]
fn tests_read(list: &[Test], name: &Text) -> bool
    ensures { result ≡ spec.tests_read (shown.test_list list.now) name.now }
{
    for p in list {
        if test_reads(p, name) {
            return true;
        }
    }
    false
}

// Whether a table of a FROM is this table or reads it.
#[cycle(reads)]
fn from_reads(x: &From, name: &Text) -> bool
    ensures { result ≡ spec.from_reads (shown.from x.now) name.now }
{
    match x {
        From::Named(own) => *own == *name,
        From::Derived(query) => reads(query, name),
        From::Crossed(a, b) => from_reads(a, name) | from_reads(b, name),
        From::Joined(a, b, p) | From::LeftJoined(a, b, _, p) => {
            from_reads(a, name) | (from_reads(b, name) | test_reads(p, name))
        }
    }
}

// Whether a table of this FROM is this table or reads it.
#[cycle(reads)]
fn froms_read(list: &[From], name: &Text) -> bool
    ensures { result ≡ spec.froms_read (shown.from_list list.now) name.now }
{
    for x in list {
        if from_reads(x, name) {
            return true;
        }
    }
    false
}

/// Whether this name stands in a FROM of a query or of a subquery of it.
#[cycle(reads)]
pub fn reads(query: &Query, name: &Text) -> bool
    ensures { result ≡ spec.query_reads (shown.query query.now) name.now }
{
    match query {
        Query::Block(_, list, tables, p) => {
            values_read(list.as_slice(), name)
                | (froms_read(tables.as_slice(), name) | test_reads(p, name))
        }
        Query::Grouped(_, list, tables, p, _, _, having) => {
            values_read(list.as_slice(), name)
                | (froms_read(tables.as_slice(), name)
                    | (test_reads(p, name) | test_reads(having, name)))
        }
        Query::Combine(a, _, _, _, b) | Query::Intersect(a, _, _, b) => {
            reads(a, name) | reads(b, name)
        }
    }
}
