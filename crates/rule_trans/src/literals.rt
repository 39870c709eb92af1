// The column and the literal that a condition equates.
ghost use Rattle.std.specs.Prelude.{◌≡◌, IfOk, Some, map, option_map};
ghost use Rattle.qgm_terms.specs.Shown.{cond, conds, term};
ghost use Rattle.rule_trans.specs.Equalities as equalities;
ghost use Rattle.rule_trans.specs.Literals as spec;

use crate::equalities::{column_of, is_alone, is_same, sides};
use qgm_core::{Column, Gc, Gx};
use shared_types::{OutOfMemory, Text};
use std::alloc::Global;

/// An integer or a text.
#[derive(Clone, Copy)]
pub enum Literal<'a> {
    Int(i64),
    Text(&'a Text),
}

/// A column, and the literal that it equals.
#[derive(Clone, Copy)]
pub struct FixedColumn<'a> {
    pub column: Column,
    pub literal: Literal<'a>,
}

// The literal that an expression is.
fn literal_of(x: &Gx) -> Option<Literal<'_>>
    ensures { option_map spec.shown result ≡ spec.literal_of (term x.now) }
{
    match x {
        Gx::Int(n) => Some(Literal::Int(*n)),
        Gx::Text(s) => Some(Literal::Text(s)),
        Gx::Chain(a, list) => { if is_alone(list) { literal_of(a) } else { None } }
        Gx::NullInt
        | Gx::NullText
        | Gx::Col(_, _)
        | Gx::CountAll
        | Gx::Scalar(_)
        | Gx::Case(_, _)
        | Gx::Neg(_)
        | Gx::Fold(_, _, _) => None,
    }
}

// A column and a literal, where the expressions are that.
fn fixed_as<'a>(x: &'a Gx, y: &'a Gx) -> Option<FixedColumn<'a>>
    ensures { option_map spec.shown_fixed result ≡ spec.fixed_as (equalities.column_of (term x.now)) (spec.literal_of (term y.now)) }
{
    let column = column_of(x)?;
    let literal = literal_of(y)?;
    Some(FixedColumn { column, literal })
}

/// The column and the literal of an equality, in either order.
pub fn fixed(c: &Gc) -> Option<FixedColumn<'_>>
    ensures { option_map spec.shown_fixed result ≡ spec.fixed (cond c.now) }
{
    let (x, y) = sides(c)?;
    match fixed_as(x, y) {
        Some(f) => Some(f),
        None => fixed_as(y, x),
    }
}

// Whether a condition equates a column and a literal.
fn is_fixed(c: &Gc) -> bool
    ensures { result ≡ spec.is_some (spec.fixed (cond c.now)) }
{
    fixed(c).is_some()
}

/// Whether one of these conditions equates a column and a literal.
pub fn has_fixed(list: &[Gc]) -> bool
    ensures { result ≡ spec.has_fixed (conds list.now) }
{
    for c in list {
        if is_fixed(c) {
            return true;
        }
    }
    false
}

fn is_same_literal(x: Literal<'_>, y: Literal<'_>) -> bool
    ensures { result ≡ spec.same_literal (spec.shown x.entry) (spec.shown y.entry) }
{
    match (x, y) {
        (Literal::Int(m), Literal::Int(n)) => m == n,
        (Literal::Text(s), Literal::Text(t)) => s == t,
        (Literal::Int(_), Literal::Text(_)) | (Literal::Text(_), Literal::Int(_)) => false,
    }
}

/// A conjunct that equates a column and a literal, by its place from 1.
#[derive(Clone, Copy)]
pub struct FixedConjunct<'a> {
    pub place: usize,
    pub fixed: FixedColumn<'a>,
}

/// The conjuncts that equate a column and a literal. It fails only for want of memory.
pub fn fixed_conjuncts(alloc: Global, list: &[Gc]) -> Result<Vec<FixedConjunct<'_>>, OutOfMemory>
    ensures { IfOk result (λ all. map spec.shown_conjunct all.items ≡ spec.numbered 1 (conds list.now)) }
{
    let mut all = Vec::new(alloc);
    for i in 0..list.len() {
        let c = &list[i];
        if let Some(fixed) = fixed(c) {
            all.push(FixedConjunct {
                place: i + 1,
                fixed,
            })?;
        }
    }
    Ok(all)
}

// Whether it is the equality of a column and a literal.
fn is_of(a: Column, x: Literal<'_>, f: FixedColumn<'_>) -> bool
    ensures { result ≡ spec.is_of a (spec.shown x.entry) (Some (spec.shown_fixed f.entry)) }
{
    is_same(a, f.column) && is_same_literal(x, f.literal)
}

/// Whether one of these conjuncts equates a column and a literal.
pub fn is_there(a: Column, x: Literal<'_>, all: &[FixedConjunct<'_>]) -> bool
    ensures { result ≡ spec.has_literal a (spec.shown x.entry) (map spec.shown_conjunct all.now) }
{
    for f in all {
        if is_of(a, x, f.fixed) {
            return true;
        }
    }
    false
}

/// The expression of a literal.
pub fn expression(alloc: Global, x: Literal<'_>) -> Result<Gx, OutOfMemory>
    ensures { IfOk result (λ y. term y ≡ spec.term_of (spec.shown x.entry)) }
{
    match x {
        Literal::Int(n) => Ok(Gx::Int(n)),
        Literal::Text(s) => Ok(Gx::Text(s.copy(alloc)?)),
    }
}
