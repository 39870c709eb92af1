// How many nodes expressions and conditions have. A count ends at the most that is asked for.
ghost use Rattle.std.specs.Prelude.{◌≡◌, ◌+◌, ◌<◌, min};
ghost use Rattle.qgm_term_size.specs.Size as spec;
ghost use Rattle.qgm_terms.specs.Shown.{choices, cond, conds, links, term};

use qgm_terms::{Arm, Gc, Gx, Link};

// One node more.
fn one_more(total: usize, most: usize) -> usize
    ensures { result ≡ min (total + 1) most }
{
    if total < most { total + 1 } else { most }
}

// With the nodes of an expression.
#[cycle(size)]
#[tactic(auto, using(qgm_terms::proofs::Lists::lists))]
fn add(x: &Gx, total: usize, most: usize) -> usize
    ensures { result ≡ min (total + spec.cell_size (term x.now)) most }
{
    if most <= total {
        return most;
    }
    match x {
        Gx::Int(_)
        | Gx::Text(_)
        | Gx::NullInt
        | Gx::NullText
        | Gx::Col(_, _)
        | Gx::Scalar(_)
        | Gx::CountAll => one_more(total, most),
        Gx::Chain(a, list) => add_links(list, add(a, total, most), most),
        Gx::Case(list, a) => add(a, add_arms(list, one_more(total, most), most), most),
        Gx::Neg(a) | Gx::Fold(_, _, a) => add(a, one_more(total, most), most),
    }
}

// With those of the operands behind a first one, and of their operators.
#[cycle(size)]
fn add_links(list: &[Link], total: usize, most: usize) -> usize
    ensures { result ≡ min (total + spec.links_size (links list.now)) most }
{
    let mut sum = total.min(most);
    for link in list {
        sum = add(&link.right, one_more(sum, most), most);
    }
    sum
}

// With those of the arms of a CASE.
#[cycle(size)]
fn add_arms(list: &[Arm], total: usize, most: usize) -> usize
    ensures { result ≡ min (total + spec.choices_size (choices list.now)) most }
{
    let mut sum = total.min(most);
    for arm in list {
        sum = add(&arm.then, add_cond(&arm.when, sum, most), most);
    }
    sum
}

// With the nodes of a condition.
#[cycle(size)]
#[tactic(auto, using(qgm_terms::proofs::Lists::lists))]
fn add_cond(c: &Gc, total: usize, most: usize) -> usize
    ensures { result ≡ min (total + spec.cond_size (cond c.now)) most }
{
    if most <= total {
        return most;
    }
    match c {
        Gc::True => one_more(total, most),
        Gc::Compare(_, a, b) => add(b, add(a, one_more(total, most), most), most),
        Gc::IsNull(a) => add(a, one_more(total, most), most),
        Gc::All(a, list) => add_conds(list, add_cond(a, total, most), most),
        Gc::Any(a, list) => add_conds(list, add_cond(a, total, most), most),
        Gc::Not(a) => add_cond(a, one_more(total, most), most),
        Gc::Some(_, a) | Gc::Every(_, a) => add_cond(a, one_more(total, most), most),
    }
}

// With those of the conditions behind a first one, and of what connects them.
#[cycle(size)]
fn add_conds(list: &[Gc], total: usize, most: usize) -> usize
    ensures { result ≡ min (total + spec.conds_size (conds list.now)) most }
{
    let mut sum = total.min(most);
    for c in list {
        sum = add_cond(c, one_more(sum, most), most);
    }
    sum
}

/// How many nodes an expression has, and `most` where it has more.
pub fn cell_size(x: &Gx, most: usize) -> usize
    ensures { result ≡ min (spec.cell_size (term x.now)) most }
{
    add(x, 0, most)
}

/// How many nodes a condition has, and `most` where it has more.
pub fn cond_size(c: &Gc, most: usize) -> usize
    ensures { result ≡ min (spec.cond_size (cond c.now)) most }
{
    add_cond(c, 0, most)
}
