// Keys by which rows count for nothing in some and every: those of which the condition of some is false
// wholly, or that of every true wholly.
ghost use Rattle.std.specs.Prelude.{◌≡◌, All, IfOk, IfSome, IsOkAnd};
ghost use Rattle.box_exec.specs.Equalities.{AreEither};
ghost use Rattle.box_exec.specs.Idle as spec;
ghost use Rattle.qgm_terms.specs.Shown.{cond, conds, sign};
ghost use Rattle.qgm_terms.specs.Terms.{Cond, Term, compare};

use crate::bindings::Bindings;
use crate::evaluation::value;
use crate::key::{Equality, Key, sided};
use crate::simple::is_simple;
use qgm_core::{Gc, Gx, QuantId};
use qgm_terms::Sign;
use row_bag::Bag;
use shared_types::OutOfMemory;
use sql_value::Cell;
use std::alloc::Global;

// Whether the first cell of an expression in rows of a quantifier that is a value is a text.
fn are_texts(alloc: Global, own: &Gx, q: QuantId, rows: &Bag) -> Result<bool, OutOfMemory> {
    let alone = Bindings::Empty;
    for i in 0..rows.len() {
        let env = Bindings::Row(q, rows.at(i).cells, &alone);
        match value(alloc, own, &[], &env)? {
            Cell::Int(_) => return Ok(false),
            Cell::Text(_) => return Ok(true),
            Cell::Null | Cell::Err(_) => {}
        }
    }
    Ok(false)
}

// How a comparison tells that a row counts for nothing, if it does.
fn telling(s: Sign, holds: bool, texts: bool) -> Option<Equality>
    ensures { IfSome result (λ by. spec.Tells holds (sign s) by) }
{
    match s {
        Sign::Same => { if holds { None } else { Some(Equality::Same) } }
        Sign::Eq => { if holds { None } else { Some(of_type(texts)) } }
        Sign::Ne => { if holds { Some(of_type(texts)) } else { None } }
        Sign::Lt | Sign::Le | Sign::Gt | Sign::Ge | Sign::Like => None,
    }
}

// The equality of texts, or of numbers.
fn of_type(texts: bool) -> Equality
    ensures { result ≡ spec.of_type texts }
{
    if texts {
        Equality::Texts
    } else {
        Equality::Numbers
    }
}

// The keys of a comparison, if it tells that rows count for nothing, and the other side is of columns,
// constants and operators.
fn idle_key<'a>(
    alloc: Global,
    s: Sign,
    key: Key<'a>,
    holds: bool,
    q: QuantId,
    rows: &Bag,
) -> Result<Vec<Key<'a>>, OutOfMemory>
    ensures { IfOk result (λ made. (a b : Term) → AreEither q a b key.entry → All (λ k. spec.Idles holds q (compare (sign s) a b) k) made.items) }
{
    let mut made = Vec::new(alloc);
    if !is_simple(alloc, key.other)? {
        return Ok(made);
    }
    let texts = are_texts(alloc, key.own, q, rows)?;
    if let Some(by) = telling(s, holds, texts) {
        made.push(Key {
            own: key.own,
            other: key.other,
            by,
        })?;
    }
    Ok(made)
}

// Those of two expressions that are compared.
fn idle_sides<'a>(
    alloc: Global,
    s: Sign,
    found: Result<Option<Key<'a>>, OutOfMemory>,
    holds: bool,
    q: QuantId,
    rows: &Bag,
) -> Result<Vec<Key<'a>>, OutOfMemory>
    ensures { IfOk result (λ made. IsOkAnd found.entry (λ o. (a b : Term) → IfSome o (λ k. AreEither q a b k) → All (λ k. spec.Idles holds q (compare (sign s) a b) k) made.items)) }
{
    match found? {
        Some(key) => idle_key(alloc, s, key, holds, q, rows),
        None => Ok(Vec::new(alloc)),
    }
}

/// Keys by which rows of a quantifier count for nothing: where the condition is false wholly, or where it
/// is true wholly. It fails only for want of memory.
#[cycle(idle_keys)]
pub(crate) fn idle_keys<'a>(
    alloc: Global,
    c: &'a Gc,
    holds: bool,
    q: QuantId,
    rows: &Bag,
) -> Result<Vec<Key<'a>>, OutOfMemory>
    ensures { IfOk result (λ made. All (λ k. spec.Idles holds q (cond c.now) k) made.items) }
{
    match c {
        Gc::Compare(s, a, b) => {
            let found = sided(alloc, a, b, q, Equality::Same);
            idle_sides(alloc, *s, found, holds, q, rows)
        }
        Gc::Not(a) => idle_keys(alloc, a, !holds, q, rows),
        Gc::All(a, list) if !holds => {
            let made = idle_keys(alloc, a, holds, q, rows)?;
            idle_parts(alloc, made, list, holds, q, rows)
        }
        Gc::Any(a, list) if holds => {
            let made = idle_keys(alloc, a, holds, q, rows)?;
            idle_parts(alloc, made, list, holds, q, rows)
        }
        Gc::All(_, _)
        | Gc::Any(_, _)
        | Gc::True
        | Gc::IsNull(_)
        | Gc::Some(_, _)
        | Gc::Every(_, _) => Ok(Vec::new(alloc)),
    }
}

// These, and those of parts of an AND, or of an OR.
#[cycle(idle_keys)]
fn idle_parts<'a>(
    alloc: Global,
    made: Vec<Key<'a>>,
    list: &'a [Gc],
    holds: bool,
    q: QuantId,
    rows: &Bag,
) -> Result<Vec<Key<'a>>, OutOfMemory>
    ensures { (c : Cond) → All (λ k. spec.Idles holds q (spec.parted holds c (conds list.now)) k) made.entry.items → IfOk result (λ r. All (λ k. spec.Idles holds q (spec.parted holds c (conds list.now)) k) r.items) }
{
    let mut made = made;
    for p in list {
        let more = idle_keys(alloc, p, holds, q, rows)?;
        made.extend_from_slice(&more)?;
    }
    Ok(made)
}
