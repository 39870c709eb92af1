// How many levels expressions and conditions have. A count ends at the most that is asked for.
ghost use Rattle.std.specs.Prelude.{◌≡◌, ◌+◌, ◌≤◌, min};
ghost use Rattle.qgm_term_size.specs.Levels as spec;
ghost use Rattle.qgm_terms.specs.Shown.{choices, cond, conds, links, term, terms};

use qgm_terms::{Arm, Gc, Gx, Link, both, either};

// One level more.
fn above(levels: usize, most: usize) -> usize
    ensures { result ≡ min (1 + levels) most }
{
    if levels < most { levels + 1 } else { most }
}

// Those of the first of some operands: one more, but those of the same list are no level more.
fn under(is_same: bool, levels: usize, most: usize) -> usize
    requires { levels ≤ most }
    ensures { result ≡ min (spec.under is_same levels) most }
{
    if is_same { levels } else { above(levels, most) }
}

// Whether no operand stands behind the first one.
fn is_no_link(list: &[Link]) -> bool
    ensures { result ≡ spec.is_empty (links list.now) }
{
    match list {
        [] => true,
        [_, ..] => false,
    }
}

// Whether no condition stands behind the first one.
fn is_no_cond(list: &[Gc]) -> bool
    ensures { result ≡ spec.is_empty (conds list.now) }
{
    match list {
        [] => true,
        [_, ..] => false,
    }
}

// Whether an expression is a chain.
fn is_chain(x: &Gx) -> bool
    ensures { result ≡ spec.is_chain (term x.now) }
{
    match x {
        Gx::Chain(a, list) => either(!is_no_link(list), is_chain(a)),
        Gx::Int(_)
        | Gx::Text(_)
        | Gx::NullInt
        | Gx::NullText
        | Gx::Col(_, _)
        | Gx::Scalar(_)
        | Gx::Neg(_)
        | Gx::Case(_, _)
        | Gx::CountAll
        | Gx::Fold(_, _, _) => false,
    }
}

// Whether a condition is an AND.
fn is_and(c: &Gc) -> bool
    ensures { result ≡ spec.is_and (cond c.now) }
{
    match c {
        Gc::All(a, list) => either(!is_no_cond(list), is_and(a)),
        Gc::Any(a, list) => both(is_no_cond(list), is_and(a)),
        Gc::True
        | Gc::Compare(_, _, _)
        | Gc::IsNull(_)
        | Gc::Not(_)
        | Gc::Some(_, _)
        | Gc::Every(_, _) => false,
    }
}

// Whether a condition is an OR.
fn is_or(c: &Gc) -> bool
    ensures { result ≡ spec.is_or (cond c.now) }
{
    match c {
        Gc::Any(a, list) => either(!is_no_cond(list), is_or(a)),
        Gc::All(a, list) => both(is_no_cond(list), is_or(a)),
        Gc::True
        | Gc::Compare(_, _, _)
        | Gc::IsNull(_)
        | Gc::Not(_)
        | Gc::Some(_, _)
        | Gc::Every(_, _) => false,
    }
}

/// How many levels an expression has, and `most` where it has more.
#[cycle(levels)]
#[tactic(auto, using(qgm_terms::proofs::Lists::lists))]
pub fn cell_levels(x: &Gx, most: usize) -> usize
    ensures { result ≡ min (spec.cell_levels (term x.now)) most }
{
    match x {
        Gx::Int(_)
        | Gx::Text(_)
        | Gx::NullInt
        | Gx::NullText
        | Gx::Col(_, _)
        | Gx::Scalar(_)
        | Gx::CountAll => above(0, most),
        Gx::Chain(a, list) => {
            let is_same = either(is_no_link(list), is_chain(a));
            under(is_same, cell_levels(a, most), most).max(links_levels(list, most))
        }
        Gx::Case(list, a) => above(arms_levels(list, most).max(cell_levels(a, most)), most),
        Gx::Neg(a) | Gx::Fold(_, _, a) => above(cell_levels(a, most), most),
    }
}

// Those of the operands behind a first one.
#[cycle(levels)]
fn links_levels(list: &[Link], most: usize) -> usize
    ensures { result ≡ min (spec.links_levels (links list.now)) most }
{
    let mut levels = 0;
    for link in list {
        levels = above(cell_levels(&link.right, most), most).max(levels);
    }
    levels
}

// Those of the arms of a CASE.
#[cycle(levels)]
fn arms_levels(list: &[Arm], most: usize) -> usize
    ensures { result ≡ min (spec.choices_levels (choices list.now)) most }
{
    let mut levels = 0;
    for arm in list {
        levels = cond_levels(&arm.when, most).max(levels);
        levels = cell_levels(&arm.then, most).max(levels);
    }
    levels
}

/// How many levels a condition has, and `most` where it has more.
#[cycle(levels)]
#[tactic(auto, using(qgm_terms::proofs::Lists::lists))]
pub fn cond_levels(c: &Gc, most: usize) -> usize
    ensures { result ≡ min (spec.cond_levels (cond c.now)) most }
{
    match c {
        Gc::True => above(0, most),
        Gc::Compare(_, a, b) => above(cell_levels(a, most).max(cell_levels(b, most)), most),
        Gc::IsNull(a) => above(cell_levels(a, most), most),
        Gc::All(a, list) => {
            let is_same = either(is_no_cond(list), is_and(a));
            under(is_same, cond_levels(a, most), most).max(conds_levels(list, most))
        }
        Gc::Any(a, list) => {
            let is_same = either(is_no_cond(list), is_or(a));
            under(is_same, cond_levels(a, most), most).max(conds_levels(list, most))
        }
        Gc::Not(a) => above(cond_levels(a, most), most),
        Gc::Some(_, a) | Gc::Every(_, a) => above(cond_levels(a, most), most),
    }
}

// Those of the conditions behind a first one.
#[cycle(levels)]
fn conds_levels(list: &[Gc], most: usize) -> usize
    ensures { result ≡ min (spec.conds_levels (conds list.now)) most }
{
    let mut levels = 0;
    for c in list {
        levels = above(cond_levels(c, most), most).max(levels);
    }
    levels
}

/// How many levels the deepest of some cells has, and `most` where it has more.
pub fn deepest(list: &[Gx], most: usize) -> usize
    ensures { result ≡ min (spec.deepest (terms list.now)) most }
{
    let mut levels = 0;
    for x in list {
        levels = cell_levels(x, most).max(levels);
    }
    levels
}
