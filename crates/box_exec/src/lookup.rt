// Rows of a quantifier, found by the hashes of the cells that equalities ask for.
ghost use Rattle.std.specs.Prelude.{◌≡◌, All, Bool, IfOk, IfSome, List, None, ℕ, length};
ghost use Rattle.box_exec.specs.Asked as asked;
ghost use Rattle.box_exec.specs.Bound.{env_of};
ghost use Rattle.box_exec.specs.Forms.{cell_held};
ghost use Rattle.box_exec.specs.Equalities.{other_of};
ghost use Rattle.box_exec.specs.Lookup as spec;
ghost use Rattle.box_exec.specs.Taken as taken;
ghost use Rattle.qgm_meaning.specs.Values.{Environment};
ghost use Rattle.qgm_terms.specs.Shown.{term};
ghost use Rattle.row_bag.specs.declared.row.Row.{Row};
ghost use Rattle.row_index.specs.Ways.{Indexes};
ghost use Rattle.sql_value.specs.Cells.{cell_compare};
ghost use Rattle.sql_value.specs.declared.cell.Cell.{Cell};
ghost use Rattle.std.specs.Ordering.{is_eq};

use crate::bindings::Bindings;
use crate::evaluation::value;
use crate::key::{Key, is_nowhere, is_plain};
use crate::operand::{OperandCell, standing};
use qgm_core::{Gx, QuantId};
use row_bag::Bag;
use row_index::{RowIndex, Way, feed, index_of};
use shared_types::OutOfMemory;
use sql_value::{Cell, cell_order};
use std::alloc::Global;
use std::hash::{FoldHasher, Hasher};

/// Keys of a quantifier, and an index of its rows by them.
#[derive(Drop)]
pub(crate) struct Hashed<'a> {
    pub keys: Vec<Key<'a>>,
    pub index: RowIndex,
}

/// Keys of a quantifier, and an index of its rows by them, if it is made.
#[derive(Drop)]
pub(crate) struct Keyed<'a> {
    pub keys: Vec<Key<'a>>,
    pub index: Option<RowIndex>,
}

// The cell of an expression that names no E, A or S quantifier.
fn cell_of<'a>(alloc: Global, x: &Gx, env: &Bindings<'a>) -> Result<OperandCell<'a>, OutOfMemory>
    ensures { IfOk result (λ o. cell_held o ≡ other_of (term x.now) (env_of env.now)) }
{
    match standing(x, env) {
        Some(cell) => Ok(OperandCell::Borrowed(cell)),
        None => Ok(OperandCell::Made(value(alloc, x, &[], env)?)),
    }
}

// Whether two cells are the same data.
fn is_equal(a: &Cell, b: &Cell) -> bool
    ensures { result ≡ is_eq (cell_compare a.now b.now) }
{
    cell_order(a, b).is_eq()
}

// The hash of a row by keys; none where one of its cells is not plain.
#[tactic(auto, unfolding(row_bag::specs::Hashes::hash_of))]
fn row_hash(
    alloc: Global,
    keys: &[Key<'_>],
    q: QuantId,
    cells: &[Cell],
) -> Result<Option<u64>, OutOfMemory>
    ensures { IfOk result (λ o. o ≡ spec.row_hash q keys.now cells.now) }
{
    let alone = Bindings::Empty;
    let env = Bindings::Row(q, cells, &alone);
    let mut hasher = FoldHasher::default();
    for key in keys {
        let own = cell_of(alloc, key.own, &env)?;
        let cell = own.cell();
        if !is_plain(key.by, cell) {
            return Ok(None);
        }
        feed(cell, &mut hasher);
    }
    Ok(Some(hasher.finish()))
}

// The hashes of rows by keys.
fn row_hashes(
    alloc: Global,
    keys: &[Key<'_>],
    q: QuantId,
    rows: &Bag,
) -> Result<Vec<Option<u64>>, OutOfMemory>
    ensures { IfOk result (λ made. made.items ≡ spec.row_hashes q keys.now rows.now) }
{
    let mut made = Vec::with_capacity(alloc, rows.len())?;
    for i in 0..rows.len() {
        made.push(row_hash(alloc, keys, q, rows.at(i).cells)?)?;
    }
    Ok(made)
}

/// The index of rows by the keys of their quantifier: none where it has no key. It fails only for want
/// of memory.
pub(crate) fn hashed_by<'a>(
    alloc: Global,
    keys: Vec<Key<'a>>,
    q: QuantId,
    rows: &Bag,
) -> Result<Option<Hashed<'a>>, OutOfMemory>
    ensures { (test : Environment → Bool) → All (λ k. spec.RejectsBy test q k) keys.entry.items → IfOk result (λ o. IfSome o (λ h. spec.Hashes test q rows.now h)) }
{
    if keys.is_empty() {
        return Ok(None);
    }
    let hashes = row_hashes(alloc, &keys, q, rows)?;
    let index = index_of(alloc, &hashes)?;
    Ok(Some(Hashed { keys, index }))
}

// The index of rows by keys, if it is asked for.
fn index_if(
    wanted: bool,
    alloc: Global,
    keys: &[Key<'_>],
    q: QuantId,
    rows: &Bag,
) -> Result<Option<RowIndex>, OutOfMemory>
    ensures { IfOk result (λ o. IfSome o (λ ix. Indexes (spec.row_hashes q keys.now rows.now) ix)) }
{
    if !wanted {
        return Ok(None);
    }
    let hashes = row_hashes(alloc, keys, q, rows)?;
    Ok(Some(index_of(alloc, &hashes)?))
}

/// The keys of a quantifier, if it has any, and the index of its rows by them, if it is asked for. It fails
/// only for want of memory.
pub(crate) fn keyed_by<'a>(
    indexed: bool,
    alloc: Global,
    keys: Vec<Key<'a>>,
    q: QuantId,
    rows: &Bag,
) -> Result<Option<Keyed<'a>>, OutOfMemory>
    ensures fits { (test : Environment → Bool) → All (λ k. spec.RejectsBy test q k) keys.entry.items → IfOk result (λ o. IfSome o (λ k. spec.FitsKeys test q rows.now k)) }
    ensures made { IfOk result (λ o. asked.keys_made o ≡ asked.shown_keys keys.entry.items) }
{
    if keys.is_empty() {
        return Ok(None);
    }
    let index = index_if(indexed, alloc, &keys, q, rows)?;
    Ok(Some(Keyed { keys, index }))
}

/// What the other sides of keys come to where quantifiers are bound: the hash of the rows that can be
/// equal; a cell that tells nothing, as an error does; or one that no row's cell equals, as null by `=`.
pub(crate) enum Aim {
    Hash(u64),
    Anywhere,
    Nowhere,
}

// What the other sides of keys come to.
#[tactic(auto, unfolding(row_bag::specs::Hashes::hash_of))]
fn aim_of(alloc: Global, keys: &[Key<'_>], env: &Bindings) -> Result<Aim, OutOfMemory>
    ensures { IfOk result (λ aim. spec.Aims keys.now (env_of env.now) aim) }
{
    let mut hasher = FoldHasher::default();
    let mut plain = true;
    for key in keys {
        let other = cell_of(alloc, key.other, env)?;
        let cell = other.cell();
        if is_nowhere(key.by, cell) {
            return Ok(Aim::Nowhere);
        }
        plain = plain && is_plain(key.by, cell);
        feed(cell, &mut hasher);
    }
    if plain {
        Ok(Aim::Hash(hasher.finish()))
    } else {
        Ok(Aim::Anywhere)
    }
}

/// The way through so many rows, past none.
pub(crate) fn all_rows<'a>(end: usize) -> Way<'a>
    ensures end { result.end ≡ end }
    ensures all { result.index ≡ None }
{
    Way {
        end,
        index: None,
        hash: None,
    }
}

// The way through so many rows by their index.
fn way_by<'a>(
    alloc: Global,
    keys: &[Key<'_>],
    index: &'a RowIndex,
    end: usize,
    env: &Bindings,
) -> Result<Way<'a>, OutOfMemory>
    ensures { IfOk result (λ way. (test : Environment → Bool) (q : ℕ) (rows : List (Row (List Cell))) → end ≡ length rows → All (λ k. spec.RejectsBy test q k) keys.now → Indexes (spec.row_hashes q keys.now rows) index.now → spec.Leads test q rows (env_of env.now) way) }
{
    match aim_of(alloc, keys, env)? {
        Aim::Hash(hash) => Ok(Way {
            end,
            index: Some(index),
            hash: Some(hash),
        }),
        Aim::Anywhere => Ok(all_rows(end)),
        Aim::Nowhere => Ok(Way {
            end,
            index: Some(index),
            hash: None,
        }),
    }
}

/// The way through so many rows by their index, if there is one. It fails only for want of memory.
pub(crate) fn way_through<'a>(
    alloc: Global,
    hashed: Option<&'a Hashed<'_>>,
    end: usize,
    env: &Bindings,
) -> Result<Way<'a>, OutOfMemory>
    ensures { IfOk result (λ way. (test : Environment → Bool) (q : ℕ) (rows : List (Row (List Cell))) → end ≡ length rows → IfSome hashed.entry (λ h. spec.Hashes test q rows h.now) → spec.Leads test q rows (env_of env.now) way) }
{
    match hashed {
        Some(h) => way_by(alloc, &h.keys, &h.index, end, env),
        None => Ok(all_rows(end)),
    }
}

/// The way through so many rows by the index of their keys: past none where none is made. It fails only for
/// want of memory.
pub(crate) fn keyed_way<'a>(
    alloc: Global,
    k: &'a Keyed<'_>,
    end: usize,
    env: &Bindings,
) -> Result<Way<'a>, OutOfMemory>
    ensures { IfOk result (λ way. (test : Environment → Bool) (q : ℕ) (rows : List (Row (List Cell))) → end ≡ length rows → spec.FitsKeys test q rows k.now → spec.Leads test q rows (env_of env.now) way) }
{
    match &k.index {
        Some(index) => way_by(alloc, &k.keys, index, end, env),
        None => Ok(all_rows(end)),
    }
}

// Whether a key lets a row pass: one with an error in its own cell; else, where the other cell isn't null
// beside `=`, each if that is an error, and one whose own cell is the other one.
fn passes(
    alloc: Global,
    key: &Key<'_>,
    q: QuantId,
    cells: &[Cell],
    env: &Bindings,
) -> Result<bool, OutOfMemory>
    ensures { IfOk result (λ b. b ≡ taken.passes q (env_of env.now) cells.now (asked.shown_key key.now)) }
{
    let alone = Bindings::Empty;
    let inside = Bindings::Row(q, cells, &alone);
    let own = cell_of(alloc, key.own, &inside)?;
    if !is_plain(key.by, own.cell()) {
        return Ok(true);
    }
    let other = cell_of(alloc, key.other, env)?;
    if is_nowhere(key.by, other.cell()) {
        return Ok(false);
    }
    Ok(!is_plain(key.by, other.cell()) || is_equal(own.cell(), other.cell()))
}

/// Whether a look-up by keys takes a row: one that all keys let pass. It fails only for want of memory.
pub(crate) fn takes(
    alloc: Global,
    keys: &[Key<'_>],
    q: QuantId,
    cells: &[Cell],
    env: &Bindings,
) -> Result<bool, OutOfMemory>
    ensures { IfOk result (λ b. b ≡ taken.takes (asked.shown_keys keys.now) q (env_of env.now) cells.now) }
{
    for key in keys {
        if !passes(alloc, key, q, cells, env)? {
            return Ok(false);
        }
    }
    Ok(true)
}
