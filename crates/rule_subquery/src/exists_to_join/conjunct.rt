// The conjunct of an E quantifier.
ghost use Rattle.std.specs.Prelude.{◌≡◌, ◌++◌, IfOk, OnOk, option_map};
ghost use Rattle.qgm_terms.specs.Shown.{cond, conds};
ghost use Rattle.rule_subquery.specs.ExistsToJoin as condition;
ghost use Rattle.rule_subquery.specs.ExistsToJoinSteps as spec;

use crate::conjuncts::add_conjuncts;
use qgm_term_search::{stands_in_cond, stands_in_conds};
use qgm_terms::{Conds, Gc, QuantId, ROOM, Sought, copy_cond};
use shared_types::OutOfMemory;
use std::alloc::Global;

/// c, where the condition is `some q c`.
#[cycle(inner_of)]
pub fn inner_of(x: &Gc, q: QuantId) -> Option<&Gc>
    ensures { option_map (λ c. cond c.now) result ≡ spec.inner_of q (cond x.now) }
{
    match x {
        Gc::Some(r, c) => inner_if(*r == q, c),
        Gc::All(a, list) => {
            if list.is_empty() {
                inner_of(a, q)
            } else {
                None
            }
        }
        Gc::Any(a, list) => {
            if list.is_empty() {
                inner_of(a, q)
            } else {
                None
            }
        }
        Gc::True | Gc::Compare(_, _, _) | Gc::IsNull(_) | Gc::Not(_) | Gc::Every(_, _) => None,
    }
}

// c, where it is wanted.
fn inner_if(wanted: bool, c: &Gc) -> Option<&Gc>
    ensures { option_map (λ c. cond c.now) result ≡ spec.some_if wanted (cond c.now) }
{
    if wanted { Some(c) } else { None }
}

// Whether the conjunct is a some of q, within which q is no node.
fn is_whole(x: &Gc, q: QuantId) -> bool
    ensures { result ≡ condition.is_whole q (cond x.now) }
{
    match inner_of(x, q) {
        Some(c) => !stands_in_cond(c, Sought::NodeOf(q)),
        None => false,
    }
}

/// Whether one of these conjuncts is, and q is no node of the others.
pub fn one_whole(list: &[Gc], q: QuantId) -> bool
    ensures { result ≡ condition.one_whole q (conds list.now) }
{
    for i in 0..list.len() {
        if stands_in_cond(&list[i], Sought::NodeOf(q)) {
            return is_whole(&list[i], q) && !stands_in_conds(&list[i + 1..], Sought::NodeOf(q));
        }
    }
    false
}

// Adds a conjunct, or the conjuncts of c where it is `some q c`.
fn add_parts(alloc: Global, x: &Gc, q: QuantId, out: &mut Conds) -> Result<(), OutOfMemory>
    ensures items { OnOk result (out.new.items ≡ out.old.items ++ spec.parts_of (spec.inner_of q (cond x.now)) (cond x.now)) }
    ensures spare { OnOk result (out.new.spare ≡ out.old.spare) }
{
    match inner_of(x, q) {
        Some(c) => add_conjuncts(alloc, c, out),
        None => out.add(copy_cond(alloc, x, ROOM)?),
    }
}

/// The conjuncts of c in the place of each conjunct `some q c`, with as much room for more.
pub fn joined_conds(alloc: Global, conds: &Conds, q: QuantId) -> Result<Conds, OutOfMemory>
    ensures { IfOk result (λ a. a ≡ record conds.now { items = spec.joined_conds q conds.now.items }) }
{
    let mut all = Conds::new(alloc);
    for x in conds.as_slice() {
        add_parts(alloc, x, q, &mut all)?;
    }
    all.reserve(conds.spare())?;
    Ok(all)
}
