// How many levels of brackets and CASE within one another expressions and conditions have.
ghost use Rattle.std.specs.Prelude.{◌≤◌, ◌↔◌, IsTrue};
ghost use Rattle.qgm_terms.specs.Depth.{arm_depths, cond_depths, depth, depth_cond, link_depths, most};

use crate::connectives::both;
use crate::tree::{Arm, Gc, Gx, Link};

/// Whether an expression has at most so many levels. It goes no deeper itself.
#[cycle(fits)]
pub fn fits(x: &Gx, room: usize) -> bool
    ensures { IsTrue result ↔ (depth x.now ≤ room) }
{
    if room == 0 {
        return false;
    }
    match x {
        Gx::Int(_)
        | Gx::Text(_)
        | Gx::NullInt
        | Gx::NullText
        | Gx::Col(_, _)
        | Gx::Scalar(_)
        | Gx::CountAll => true,
        Gx::Chain(a, list) => both(fits(a, room - 1), fits_links(list, room - 1)),
        Gx::Case(list, a) => both(fits_arms(list, room - 1), fits(a, room - 1)),
        Gx::Neg(a) | Gx::Fold(_, _, a) => fits(a, room - 1),
    }
}

// Whether the operands behind a first one do.
#[cycle(fits)]
fn fits_links(list: &[Link], room: usize) -> bool
    ensures { IsTrue result ↔ (most (link_depths list.now) ≤ room) }
{
    for link in list {
        if !fits(&link.right, room) {
            return false;
        }
    }
    true
}

// Whether the arms of a CASE do.
#[cycle(fits)]
fn fits_arms(list: &[Arm], room: usize) -> bool
    ensures { IsTrue result ↔ (most (arm_depths list.now) ≤ room) }
{
    for arm in list {
        if !both(fits_cond(&arm.when, room), fits(&arm.then, room)) {
            return false;
        }
    }
    true
}

/// Whether a condition has at most so many levels. It goes no deeper itself.
#[cycle(fits)]
pub fn fits_cond(c: &Gc, room: usize) -> bool
    ensures { IsTrue result ↔ (depth_cond c.now ≤ room) }
{
    if room == 0 {
        return false;
    }
    match c {
        Gc::True => true,
        Gc::Compare(_, a, b) => both(fits(a, room - 1), fits(b, room - 1)),
        Gc::IsNull(a) => fits(a, room - 1),
        Gc::All(a, list) => both(fits_cond(a, room - 1), fits_conds(list, room - 1)),
        Gc::Any(a, list) => both(fits_cond(a, room - 1), fits_conds(list, room - 1)),
        Gc::Not(a) => fits_cond(a, room - 1),
        Gc::Some(_, a) | Gc::Every(_, a) => fits_cond(a, room - 1),
    }
}

// Whether the conditions behind a first one do.
#[cycle(fits)]
fn fits_conds(list: &[Gc], room: usize) -> bool
    ensures { IsTrue result ↔ (most (cond_depths list.now) ≤ room) }
{
    for c in list {
        if !fits_cond(c, room) {
            return false;
        }
    }
    true
}
