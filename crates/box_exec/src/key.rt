// Equalities by which rows of a quantifier are found.
ghost use Rattle.std.specs.Prelude.{◌≡◌, ◌==◌, ◌++◌, ℕ, IfOk, IfSome, true};
ghost use Rattle.std.specs.List.{list_all};
ghost use Rattle.box_exec.specs.Asked.{either_way, shown_if};
ghost use Rattle.box_exec.specs.Equalities as spec;
ghost use Rattle.box_exec.specs.Taken as taken;
ghost use Rattle.qgm_meaning.specs.Values.{compared};
ghost use Rattle.qgm_terms.specs.Shown.{cond, sign, term};
ghost use Rattle.qgm_terms.specs.Terms.{Term, compare};
ghost use Rattle.sql_value.specs.declared.cell.Cell.{Cell};

use qgm_core::{Gc, Gx, QuantId};
use qgm_term_search::{add_columns, is_node_free, stands_in};
use qgm_terms::{Column, Sign, Sought};
use shared_types::OutOfMemory;
use sql_value::Cell;
use std::alloc::Global;

/// How two cells are equated: null-safe, or by `=`. Where what isn't equal must be false, and not only
/// not true, `=` tells of numbers alone, or of texts alone.
#[derive(Clone, Copy, PartialEq, Eq)]
pub(crate) enum Equality {
    Same,
    Equal,
    Numbers,
    Texts,
}

/// An expression that reads a quantifier and no other, and one that doesn't read it, which are to be
/// equal.
#[derive(Clone, Copy)]
pub(crate) struct Key<'a> {
    pub own: &'a Gx,
    pub other: &'a Gx,
    pub by: Equality,
}

/// Whether a cell can be told from others by an equality: none that is an error can.
pub(crate) fn is_plain(by: Equality, cell: &Cell) -> bool
    ensures { result ≡ spec.is_plain by cell.now }
{
    match cell {
        Cell::Int(_) => by != Equality::Texts,
        Cell::Text(_) => by != Equality::Numbers,
        Cell::Null => by == Equality::Same || by == Equality::Equal,
        Cell::Err(_) => false,
    }
}

/// Whether an equality is true of no cell and this one.
pub(crate) fn is_nowhere(by: Equality, cell: &Cell) -> bool
    ensures { result ≡ spec.is_nowhere by cell.now }
{
    match cell {
        Cell::Null => by == Equality::Equal,
        Cell::Int(_) | Cell::Text(_) | Cell::Err(_) => false,
    }
}

// Whether all columns are of a quantifier.
fn are_of(columns: &[Column], q: QuantId) -> bool
    ensures { result ≡ list_all (λ k. k.quant == q) columns.now }
{
    columns.iter().all(|k| k.quant == q)
}

// Whether an expression names no E, A or S quantifier, and reads a quantifier and no other.
fn is_own(alloc: Global, x: &Gx, q: QuantId) -> Result<bool, OutOfMemory>
    ensures own { IfOk result (λ b. b ≡ true → spec.IsOwn q (term x.now)) }
    ensures exact { IfOk result (λ b. b ≡ taken.is_own q (term x.now)) }
{
    if !is_node_free(x) || !stands_in(x, Sought::Row(q)) {
        return Ok(false);
    }
    let mut columns = Vec::new(alloc);
    add_columns(x, &mut columns)?;
    Ok(are_of(&columns, q))
}

// Whether an expression names no E, A or S quantifier, and doesn't read a quantifier.
fn is_other(x: &Gx, q: QuantId) -> bool
    ensures other { result ≡ true → spec.IsOther q (term x.now) }
    ensures exact { result ≡ taken.is_other q (term x.now) }
{
    is_node_free(x) && !stands_in(x, Sought::Row(q))
}

// Two expressions as a key, if they are so.
fn key_of<'a>(
    alloc: Global,
    own: &'a Gx,
    other: &'a Gx,
    q: QuantId,
    by: Equality,
) -> Result<Option<Key<'a>>, OutOfMemory>
    ensures sides { IfOk result (λ o. IfSome o (λ k. (k.by ≡ by) × spec.AreSides q (term own.now) (term other.now) k)) }
    ensures exact { IfOk result (λ o. shown_if o ≡ taken.one_way q by (term own.now) (term other.now)) }
{
    if is_other(other, q) && is_own(alloc, own, q)? {
        return Ok(Some(Key { own, other, by }));
    }
    Ok(None)
}

/// Two expressions as a key, if they are so in this order or the other one. It fails only for want of
/// memory.
pub(crate) fn sided<'a>(
    alloc: Global,
    a: &'a Gx,
    b: &'a Gx,
    q: QuantId,
    by: Equality,
) -> Result<Option<Key<'a>>, OutOfMemory>
    ensures sides { IfOk result (λ o. IfSome o (λ k. (k.by ≡ by) × spec.AreEither q (term a.now) (term b.now) k)) }
    ensures exact { IfOk result (λ o. shown_if o ≡ taken.one_way q by (term a.now) (term b.now) ++ taken.one_way q by (term b.now) (term a.now)) }
{
    match key_of(alloc, a, b, q, by)? {
        Some(key) => Ok(Some(key)),
        None => key_of(alloc, b, a, q, by),
    }
}

// The equality of a comparison, if it is one.
fn equating(s: Sign) -> Option<Equality>
    ensures equated { IfSome result (λ by. (x y : Cell) → compared (sign s) x y ≡ spec.equated by x y) }
    ensures exact { (q : ℕ) (a b : Term) → taken.matched_by q (sign s) a b ≡ either_way q result a b }
{
    match s {
        Sign::Eq => Some(Equality::Equal),
        Sign::Same => Some(Equality::Same),
        Sign::Ne | Sign::Lt | Sign::Le | Sign::Gt | Sign::Ge | Sign::Like => None,
    }
}

// What a comparison asks of a row of a quantifier, if it is an equality of a key.
fn compared_key<'a>(
    alloc: Global,
    s: Sign,
    a: &'a Gx,
    b: &'a Gx,
    q: QuantId,
) -> Result<Option<Key<'a>>, OutOfMemory>
    ensures key { IfOk result (λ o. IfSome o (λ k. spec.IsKey q (compare (sign s) (term a.now) (term b.now)) k)) }
    ensures exact { IfOk result (λ o. shown_if o ≡ taken.matched_by q (sign s) (term a.now) (term b.now)) }
{
    match equating(s) {
        Some(by) => sided(alloc, a, b, q, by),
        None => Ok(None),
    }
}

/// What an equality asks of a row of a quantifier, if a condition is one. It fails only for want of
/// memory.
pub(crate) fn key_in<'a>(
    alloc: Global,
    c: &'a Gc,
    q: QuantId,
) -> Result<Option<Key<'a>>, OutOfMemory>
    ensures key { IfOk result (λ o. IfSome o (λ k. spec.IsKey q (cond c.now) k)) }
    ensures exact { IfOk result (λ o. shown_if o ≡ taken.matched q (cond c.now)) }
{
    match c {
        Gc::Compare(s, a, b) => compared_key(alloc, *s, a, b, q),
        Gc::All(a, list) => {
            if list.is_empty() {
                key_in(alloc, a, q)
            } else {
                Ok(None)
            }
        }
        Gc::Any(a, list) => {
            if list.is_empty() {
                key_in(alloc, a, q)
            } else {
                Ok(None)
            }
        }
        Gc::True | Gc::IsNull(_) | Gc::Not(_) | Gc::Some(_, _) | Gc::Every(_, _) => Ok(None),
    }
}
