// Expressions and conditions without errors.
ghost use Rattle.std.specs.Prelude.{◌≡◌, ◌&&◌};
ghost use Rattle.std.specs.List.{list_all};
ghost use Rattle.sql_value.specs.Arithmetic.{fits_i64};
ghost use Rattle.qgm_terms.specs.Shown.{aggregate, choices, cond, conds, links, term, terms};
ghost use Rattle.qgm_props.specs.Inferred as spec;
ghost use Rattle.qgm_props.specs.Lists.{arms_free_in, chain_free, is_none};
ghost use Rattle.qgm_props.specs.Table.{facts_of};

use crate::fact_table::FactTable;
use crate::range_table::RangeTable;
use crate::ranges::{is_clean_under, is_error_free_under, is_not_null_under, is_single_under};
use qgm_core::{OwnedQuant, QuantId};
use qgm_terms::{Aggregate, Arm, Gc, Gx, Link, Op, both};

// A number has 64 bits.
fn fits(n: i64) -> bool
    ensures { result ≡ fits_i64 n }
{
    let _value = n;
    true
}

// Whether no operand stands behind the first one.
pub fn is_alone(list: &[Link]) -> bool
    ensures { result ≡ is_none (links list.now) }
{
    match list {
        [] => true,
        [_, ..] => false,
    }
}

// Whether nothing fails by this divisor.
fn divides(x: &Gx) -> bool
    ensures { result ≡ spec.divides (term x.now) }
{
    match x {
        Gx::Int(n) => *n != 0 && *n != -1,
        Gx::Text(_)
        | Gx::NullInt
        | Gx::NullText
        | Gx::CountAll
        | Gx::Col(_, _)
        | Gx::Scalar(_)
        | Gx::Case(_, _)
        | Gx::Neg(_)
        | Gx::Fold(_, _, _) => false,
        Gx::Chain(a, list) => both(is_alone(list), divides(a)),
    }
}

// Whether an operation on error-free operands, of which this is the right one, is error-free.
fn keeps_free(op: Op, right: &Gx) -> bool
    ensures { result ≡ spec.keeps_free op (term right.now) }
{
    match op {
        Op::Add | Op::Sub | Op::Mul => false,
        Op::Div => divides(right),
        Op::Cat => true,
    }
}

// Whether an aggregate of error-free values is error-free, where it is one of at most one row or not.
fn is_fold_free(one: bool, f: Aggregate) -> bool
    ensures { result ≡ spec.fold_free one (aggregate f) }
{
    match f {
        Aggregate::Single => one,
        Aggregate::Sum => false,
        Aggregate::Count | Aggregate::Avg | Aggregate::Min | Aggregate::Max => true,
    }
}

// Whether an expression is without errors, where an aggregate is one of at most one row or not.
#[cycle(expressions)]
pub fn is_free(nodes: &RangeTable<'_>, table: &FactTable, one: bool, x: &Gx) -> bool
    ensures { result ≡ spec.is_free nodes.now (facts_of table.now) one (term x.now) }
{
    match x {
        Gx::Int(n) => fits(*n),
        Gx::Text(_) | Gx::NullInt | Gx::NullText | Gx::CountAll => true,
        Gx::Col(q, k) => is_error_free_under(nodes, table, *q, *k),
        Gx::Scalar(q) => is_scalar_free(nodes, table, *q),
        Gx::Chain(a, list) => {
            let first = is_free(nodes, table, one, a);
            is_chain_free(nodes, table, one, first, list)
        }
        Gx::Case(list, a) => {
            let last = is_free(nodes, table, one, a);
            both(are_arms_free(nodes, table, one, list), last)
        }
        Gx::Neg(_) => false,
        Gx::Fold(f, _, a) => both(is_fold_free(one, *f), is_free(nodes, table, one, a)),
    }
}

// Whether the one cell of the box under a quantifier is without errors.
fn is_scalar_free(nodes: &RangeTable<'_>, table: &FactTable, q: QuantId) -> bool
    ensures { result ≡ (spec.clean_under nodes.now (facts_of table.now) q && (spec.single_under nodes.now (facts_of table.now) q && spec.error_free_under nodes.now (facts_of table.now) q 1)) }
{
    is_clean_under(nodes, table, q)
        && both(
            is_single_under(nodes, table, q),
            is_error_free_under(nodes, table, q, 1),
        )
}

// Whether a chain is without errors, whose first operand is or not.
#[cycle(expressions)]
fn is_chain_free(
    nodes: &RangeTable<'_>,
    table: &FactTable,
    one: bool,
    first: bool,
    list: &[Link],
) -> bool
    ensures { result ≡ chain_free nodes.now (facts_of table.now) one first (links list.now) }
{
    let mut total = first;
    for link in list {
        let right = is_free(nodes, table, one, &link.right);
        total = both(keeps_free(link.op, &link.right), both(total, right));
    }
    total
}

// Whether the conditions and results of a CASE are without errors.
#[cycle(expressions)]
fn are_arms_free(nodes: &RangeTable<'_>, table: &FactTable, one: bool, list: &[Arm]) -> bool
    ensures { result ≡ arms_free_in nodes.now (facts_of table.now) one (choices list.now) }
{
    for arm in list {
        let when = is_cond_free(nodes, table, one, &arm.when);
        let then = is_free(nodes, table, one, &arm.then);
        if !both(when, then) {
            return false;
        }
    }
    true
}

// Whether a condition is without errors.
#[cycle(expressions)]
pub fn is_cond_free(nodes: &RangeTable<'_>, table: &FactTable, one: bool, c: &Gc) -> bool
    ensures { result ≡ spec.cond_free nodes.now (facts_of table.now) one (cond c.now) }
{
    match c {
        Gc::True => true,
        Gc::Compare(_, a, b) => {
            let left = is_free(nodes, table, one, a);
            let right = is_free(nodes, table, one, b);
            both(left, right)
        }
        Gc::IsNull(a) => is_free(nodes, table, one, a),
        Gc::All(a, list) => {
            let first = is_cond_free(nodes, table, one, a);
            let others = are_conds_free(nodes, table, one, list);
            both(first, others)
        }
        Gc::Any(a, list) => {
            let first = is_cond_free(nodes, table, one, a);
            let others = are_conds_free(nodes, table, one, list);
            both(first, others)
        }
        Gc::Not(a) => is_cond_free(nodes, table, one, a),
        Gc::Some(q, a) => both(
            is_clean_under(nodes, table, *q),
            is_cond_free(nodes, table, one, a),
        ),
        Gc::Every(q, a) => both(
            is_clean_under(nodes, table, *q),
            is_cond_free(nodes, table, one, a),
        ),
    }
}

// Whether conditions are without errors.
#[cycle(expressions)]
pub fn are_conds_free(nodes: &RangeTable<'_>, table: &FactTable, one: bool, list: &[Gc]) -> bool
    ensures { result ≡ list_all (spec.cond_free nodes.now (facts_of table.now) one) (conds list.now) }
{
    for c in list {
        if !is_cond_free(nodes, table, one, c) {
            return false;
        }
    }
    true
}
