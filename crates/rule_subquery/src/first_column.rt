// Expressions and conditions where a quantifier's scalar is its first column.
ghost use Rattle.std.specs.Prelude.{◌≡◌, IfOk, map};
ghost use Rattle.qgm_terms.specs.Shown.{choices, cond, conds, links, term};
ghost use Rattle.qgm_meaning.specs.Searches.{as_column, as_column_cond};
ghost use Rattle.rule_subquery.specs.FirstColumn.{column_choices, column_links};

use qgm_terms::{Arm, Conds, Gc, Gx, Head, Link, QuantId, ROOM, copy, copy_cond};
use shared_types::OutOfMemory;
use std::alloc::Global;

// The scalar of the quantifier becomes its first column. It takes no memory.
#[cycle(put_column)]
fn put_column(x: &mut Gx, q: QuantId)
    ensures { term x.new ≡ as_column q (term x.old) }
{
    match x {
        Gx::Int(_) | Gx::Text(_) | Gx::NullInt | Gx::NullText | Gx::CountAll | Gx::Col(_, _) => {}
        Gx::Scalar(r) => {
            if *r == q {
                *x = Gx::Col(q, 1);
            }
        }
        Gx::Chain(a, list) => {
            put_column(a, q);
            put_column_of_links(list, q);
        }
        Gx::Case(list, a) => {
            put_column_of_arms(list, q);
            put_column(a, q);
        }
        Gx::Neg(a) => put_column(a, q),
        Gx::Fold(_, _, a) => put_column(a, q),
    }
}

// The same in the operands behind a first one.
#[cycle(put_column)]
fn put_column_of_links(list: &mut [Link], q: QuantId)
    ensures { links list.new ≡ column_links q (links list.old) }
{
    for i in 0..list.len() {
        let link = &mut list[i];
        put_column(&mut link.right, q);
    }
}

// The same in the arms of a CASE.
#[cycle(put_column)]
fn put_column_of_arms(list: &mut [Arm], q: QuantId)
    ensures { choices list.new ≡ column_choices q (choices list.old) }
{
    for i in 0..list.len() {
        let arm = &mut list[i];
        put_column_of_cond(&mut arm.when, q);
        put_column(&mut arm.then, q);
    }
}

// The same in a condition.
#[cycle(put_column)]
fn put_column_of_cond(c: &mut Gc, q: QuantId)
    ensures { cond c.new ≡ as_column_cond q (cond c.old) }
{
    match c {
        Gc::True => {}
        Gc::Compare(_, a, b) => {
            put_column(a, q);
            put_column(b, q);
        }
        Gc::IsNull(a) => put_column(a, q),
        Gc::All(a, list) => {
            put_column_of_cond(a, q);
            put_column_of_conds(list, q);
        }
        Gc::Any(a, list) => {
            put_column_of_cond(a, q);
            put_column_of_conds(list, q);
        }
        Gc::Not(a) => put_column_of_cond(a, q),
        Gc::Some(_, a) => put_column_of_cond(a, q),
        Gc::Every(_, a) => put_column_of_cond(a, q),
    }
}

// The same in conditions.
#[cycle(put_column)]
fn put_column_of_conds(list: &mut [Gc], q: QuantId)
    ensures { conds list.new ≡ map (as_column_cond q) (conds list.old) }
{
    for i in 0..list.len() {
        put_column_of_cond(&mut list[i], q);
    }
}

/// A copy of a head where the quantifier's scalar is its first column.
pub fn column_head(alloc: Global, head: &Head, q: QuantId) -> Result<Head, OutOfMemory>
    ensures { IfOk result (λ h. h ≡ map (as_column q) head.now) }
{
    let mut all = Head::new(alloc);
    for x in head.as_slice() {
        let mut y = copy(alloc, x, ROOM)?;
        put_column(&mut y, q);
        all.push(y)?;
    }
    Ok(all)
}

/// The same of conditions, with as much room for more.
pub fn column_conds(alloc: Global, conds: &Conds, q: QuantId) -> Result<Conds, OutOfMemory>
    ensures { IfOk result (λ a. a ≡ record conds.now { items = map (as_column_cond q) conds.now.items }) }
{
    let mut all = Conds::new(alloc);
    for c in conds.as_slice() {
        let mut p = copy_cond(alloc, c, ROOM)?;
        put_column_of_cond(&mut p, q);
        all.add(p)?;
    }
    all.reserve(conds.spare())?;
    Ok(all)
}
