// Expressions and conditions where a quantifier loses a column.
ghost use Rattle.std.specs.Prelude.{◌≡◌, map};
ghost use Rattle.qgm_terms.specs.Depth.{arm_depths, cond_depths, depth, depth_cond, depths, link_depths};
ghost use Rattle.qgm_terms.specs.Shift.{shifted, shifted_choices, shifted_cond, shifted_links};
ghost use Rattle.qgm_terms.specs.Shown.{choices, cond, conds, links, term, terms};

use crate::named::QuantId;
use crate::tree::{Arm, Gc, Gx, Link};

/// Names of later columns of the quantifier go down by one. It takes no memory.
#[cycle(shift)]
pub fn shift(x: &mut Gx, q: QuantId, k: usize)
    ensures tree { term x.new ≡ shifted q k (term x.old) }
    ensures depth { depth x.new ≡ depth x.old }
{
    match x {
        Gx::Int(_) | Gx::Text(_) | Gx::NullInt | Gx::NullText | Gx::CountAll | Gx::Scalar(_) => {}
        Gx::Col(r, place) => {
            if *r == q && k < *place {
                *place -= 1;
            }
        }
        Gx::Chain(a, list) => {
            shift(a, q, k);
            shift_links(list, q, k);
        }
        Gx::Case(list, a) => {
            shift_arms(list, q, k);
            shift(a, q, k);
        }
        Gx::Neg(a) => shift(a, q, k),
        Gx::Fold(_, _, a) => shift(a, q, k),
    }
}

#[cycle(shift)]
fn shift_links(list: &mut [Link], q: QuantId, k: usize)
    ensures trees { links list.new ≡ shifted_links q k (links list.old) }
    ensures depths { link_depths list.new ≡ link_depths list.old }
{
    for i in 0..list.len() {
        let link = &mut list[i];
        shift(&mut link.right, q, k);
    }
}

#[cycle(shift)]
fn shift_arms(list: &mut [Arm], q: QuantId, k: usize)
    ensures trees { choices list.new ≡ shifted_choices q k (choices list.old) }
    ensures depths { arm_depths list.new ≡ arm_depths list.old }
{
    for i in 0..list.len() {
        let arm = &mut list[i];
        shift_cond(&mut arm.when, q, k);
        shift(&mut arm.then, q, k);
    }
}

/// The same in a condition.
#[cycle(shift)]
pub fn shift_cond(c: &mut Gc, q: QuantId, k: usize)
    ensures tree { cond c.new ≡ shifted_cond q k (cond c.old) }
    ensures depth { depth_cond c.new ≡ depth_cond c.old }
{
    match c {
        Gc::True => {}
        Gc::Compare(_, a, b) => {
            shift(a, q, k);
            shift(b, q, k);
        }
        Gc::IsNull(a) => shift(a, q, k),
        Gc::All(a, list) => {
            shift_cond(a, q, k);
            shift_conds(list, q, k);
        }
        Gc::Any(a, list) => {
            shift_cond(a, q, k);
            shift_conds(list, q, k);
        }
        Gc::Not(a) => shift_cond(a, q, k),
        Gc::Some(_, a) => shift_cond(a, q, k),
        Gc::Every(_, a) => shift_cond(a, q, k),
    }
}

/// The same in conditions.
#[cycle(shift)]
pub fn shift_conds(list: &mut [Gc], q: QuantId, k: usize)
    ensures trees { conds list.new ≡ map (shifted_cond q k) (conds list.old) }
    ensures depths { cond_depths list.new ≡ cond_depths list.old }
{
    for i in 0..list.len() {
        shift_cond(&mut list[i], q, k);
    }
}

/// The same in the cells of a head.
pub fn shift_cells(list: &mut [Gx], q: QuantId, k: usize)
    ensures trees { terms list.new ≡ map (shifted q k) (terms list.old) }
    ensures depths { depths list.new ≡ depths list.old }
{
    for i in 0..list.len() {
        shift(&mut list[i], q, k);
    }
}
