// Tuples found by hash.
ghost use Rattle.std.specs.Prelude.{◌≡◌, ◌++◌, ◌∷◌, [], ◌<◌, ◌%◌, ◌↔◌, None, Some, IfOk, IfSome, IsTrue, List, OnOk, length, map, slice_get};
ghost use Rattle.row_bag.specs.Hashes as spec;
ghost use Rattle.row_bag.specs.Matched.{often};
ghost use Rattle.sql_value.specs.declared.cell.Cell.{Cell};

use crate::bag::Bag;
use crate::row::same_cells;
use shared_types::OutOfMemory;
use sql_value::Cell;
use std::alloc::Global;
use std::hash::{FoldHasher, Hash, Hasher};
use std::marker::Model;

/// What has tuples of cells, at places.
pub(crate) trait HasTuples {
    /// The tuples.
    ghost tuples: { Self → List (List Cell) };

    /// The tuple at a place.
    fn tuple(&self, place: usize) -> &[Cell]
        requires { place < length (tuples self.now) }
        ensures { slice_get (tuples self.now) place ≡ Some result.now };
}

impl HasTuples for Bag {
    ghost tuples = { spec.tuples_of };

    fn tuple(&self, place: usize) -> &[Cell] {
        self.at(place).cells
    }
}

// Feeds a cell to a hasher.
#[tactic(auto, unfolding(crate::specs::Hashes::fed_with))]
fn feed(cell: &Cell, hasher: &mut FoldHasher)
    ensures { hasher.new ≡ spec.fed_with hasher.old cell.now }
{
    match cell {
        Cell::Int(number) => number.hash(hasher),
        Cell::Text(text) => text.hash(hasher),
        Cell::Null => hasher.write_u8(0),
        Cell::Err(_) => hasher.write_u8(1),
    }
}

/// The hash of cells.
#[tactic(auto, unfolding(crate::specs::Hashes::hash_of))]
pub(crate) fn hash_of(cells: &[Cell]) -> u64
    ensures { result ≡ spec.hash_of cells.now }
{
    let mut hasher = FoldHasher::default();
    for cell in cells {
        feed(cell, &mut hasher);
    }
    hasher.finish()
}

// The chain of a hash, of so many chains.
fn chain_of(hash: u64, chains: usize) -> usize
    requires { 0 < chains }
    ensures within { result < chains }
    ensures chain { result ≡ hash % chains }
{
    (hash % chains as u64) as usize
}

/// A hash, and the place of the one before it in its chain, counted from 1; 0 where it is the first.
#[derive(Clone, Copy)]
struct Link {
    hash: u64,
    before: usize,
}

// The tuple at a place is these cells.
fn is_it<T: HasTuples>(links: &[Link], items: &T, at: usize, hash: u64, cells: &[Cell]) -> bool
    requires within { at < length links.now }
    requires hashes { map (λ l. l.hash) links.now ≡ spec.hashes_of (T.tuples items.now) }
    requires hash { hash ≡ spec.hash_of cells.now }
    ensures { IsTrue result ↔ (slice_get (T.tuples items.now) at ≡ Some cells.now) }
{
    links[at].hash == hash && same_cells(items.tuple(at), cells)
}

// A place of these cells among tuples, along the chain of their hash.
fn find_in<T: HasTuples>(
    heads: &[usize],
    links: &[Link],
    items: &T,
    hash: u64,
    cells: &[Cell],
) -> Option<usize>
    requires chained { spec.AreChained heads.now (map (λ l. l.before) links.now) (map (λ l. l.hash) links.now) }
    requires hashes { map (λ l. l.hash) links.now ≡ spec.hashes_of (T.tuples items.now) }
    requires hash { hash ≡ spec.hash_of cells.now }
    ensures found { IfSome result (λ k. slice_get (T.tuples items.now) k ≡ Some cells.now) }
    ensures none { result ≡ None → often cells.now (T.tuples items.now) ≡ 0 }
{
    let mut place = heads[chain_of(hash, heads.len())];
    while place > 0 {
        if is_it(links, items, place - 1, hash, cells) {
            return Some(place - 1);
        }
        place = links[place - 1].before;
    }
    None
}

// Adds a hash at the end.
fn add(heads: &mut Vec<usize>, links: &mut Vec<Link>, hash: u64) -> Result<(), OutOfMemory>
    requires { spec.AreChained heads.old.items (map (λ l. l.before) links.old.items) (map (λ l. l.hash) links.old.items) }
    ensures ok { OnOk result (map (λ l. l.hash) links.new.items ≡ map (λ l. l.hash) links.old.items ++ hash ∷ []) }
    ensures chained { spec.AreChained heads.new.items (map (λ l. l.before) links.new.items) (map (λ l. l.hash) links.new.items) }
{
    let chain = chain_of(hash, heads.len());
    let before = heads[chain];
    links.push(Link { hash, before })?;
    heads[chain] = links.len();
    Ok(())
}

/// The hashes of tuples that stand elsewhere, in their order, by which a tuple is found among them.
/// Contracts see it as the list of the hashes.
#[derive(Drop)]
pub(crate) struct TupleIndex {
    // The place of the last hash of each chain, counted from 1; 0 of none.
    heads: Vec<usize>,
    links: Vec<Link>,
}

impl Model for TupleIndex {
    ghost use Rattle.std.specs.Prelude.{ℕ, List, map};
    ghost use Rattle.row_bag.specs.Hashes.{AreChained};

    ghost Value = { List ℕ };

    ghost view = { λ t. map (λ l. l.hash) t.links.items };

    ghost invariant = { λ t. AreChained t.heads.items (map (λ l. l.before) t.links.items) (map (λ l. l.hash) t.links.items) };
}

impl TupleIndex {
    /// Of no tuple, with chains for so many tuples.
    pub(crate) fn with_chains(alloc: Global, tuples: usize) -> Result<TupleIndex, OutOfMemory>
        ensures { IfOk result (λ index. index ≡ []) }
    {
        let heads = vec![in alloc; 0; tuples.max(1)]?;
        Ok(TupleIndex {
            heads,
            links: Vec::new(alloc),
        })
    }

    /// Adds a hash at the end.
    pub(crate) fn push(&mut self, hash: u64) -> Result<(), OutOfMemory>
        ensures { OnOk result (self.new ≡ self.old ++ hash ∷ []) }
    {
        add(&mut self.heads, &mut self.links, hash)
    }

    /// A place of these cells, of this hash, among the tuples; none exactly where they don't stand
    /// among them.
    pub(crate) fn find<T: HasTuples>(&self, items: &T, hash: u64, cells: &[Cell]) -> Option<usize>
        requires hashes { self.now ≡ spec.hashes_of (T.tuples items.now) }
        requires hash { hash ≡ spec.hash_of cells.now }
        ensures found { IfSome result (λ k. slice_get (T.tuples items.now) k ≡ Some cells.now) }
        ensures none { result ≡ None → often cells.now (T.tuples items.now) ≡ 0 }
    {
        find_in(&self.heads, &self.links, items, hash, cells)
    }
}
