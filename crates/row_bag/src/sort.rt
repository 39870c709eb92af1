// The rows of a bag in the order of keys: their places are sorted, by ranks of the first key, and where
// these tie by the whole order.
ghost use Rattle.std.specs.Prelude.{[], OnOk, ◌≡◌, ◌<◌, ◌^◌, ◌≤ℤ◌, ℕ, All, IfOk, drop, get_or, length, negsuc};
ghost use Rattle.std.specs.List.Sorted.{IsPermutation, IsSortedBy};
ghost use Rattle.row_bag.specs.Order.{row_less};
ghost use Rattle.row_bag.specs.Places.{row_at, rows_at};
ghost use Rattle.row_bag.specs.Ranks as spec;
ghost use Rattle.row_bag.specs.RowRefs.{lent};
ghost use Rattle.row_bag.specs.Sorted.{sorted_rows};
ghost use Rattle.row_bag.specs.declared.sort.Ranked.{Ranked};

use crate::ordered::OrderedBag;
use crate::row::{RowRef, cell_of, order_by};
use shared_types::OutOfMemory;
use sql_value::{Cell, CharacterString, Level, OrderKey, OrderKeys};
use std::alloc::Global;
use std::cmp::Ordering;

/// Numbers from minus this to this have ranks of their own.
const MOST: i64 = 4_611_686_018_427_387_904;

// The digit of the character at a place; 0 past the end.
fn digit_at(text: &CharacterString, place: usize) -> u64
    ensures { result ≡ spec.first (drop place text.now) }
{
    if place < text.len() {
        u64::from((text.at(place) as u32).min(128)) + 1
    } else {
        0
    }
}

// The place of what follows the character at a place, if that is ASCII, and else the end.
fn place_behind(text: &CharacterString, place: usize) -> usize
    ensures { drop result text.now ≡ spec.behind (drop place text.now) }
{
    if place < text.len() && text.at(place).is_ascii() {
        place + 1
    } else {
        text.len()
    }
}

// The first eight digits of a text, as one number.
fn leading(text: &CharacterString) -> u64
    ensures digits { result ≡ spec.leading 8 text.now }
    ensures low { result < 2 ^ 57 }
{
    let mut place = 0;
    let mut number = 0;
    for _i in 0..8_u32 {
        number = number * 130 + digit_at(text, place);
        place = place_behind(text, place);
    }
    number
}

// The rank of a cell.
fn rank(cell: &Cell) -> i64
    ensures rank { result ≡ spec.rank cell.now }
    ensures low { negsuc (2 ^ 62) ≤ℤ result }
{
    match cell {
        Cell::Null => -MOST - 1,
        Cell::Int(number) => (*number).clamp(-MOST, MOST),
        Cell::Text(text) => MOST + 1 + leading(text) as i64,
        Cell::Err(_) => i64::MAX,
    }
}

// The rank of a row by its first key, or where there is no key by its first cell.
fn key_rank(keys: &[OrderKey], row: RowRef<'_>) -> i64
    ensures { result ≡ spec.key_rank keys.now (lent row.entry) }
{
    let null = Cell::Null;
    match keys {
        [] => rank(cell_of(1, row.cells, &null)),
        [key, ..] => {
            let own = rank(cell_of(key.column, row.cells, &null));
            if key.descending { -own } else { own }
        }
    }
}

/// A row's place, and its rank.
#[derive(Clone, Copy)]
struct Ranked {
    rank: i64,
    place: usize,
}

// The row at a place; one of no cells past the end.
fn row_at(bag: &OrderedBag, place: usize) -> RowRef<'_>
    ensures { lent result ≡ row_at bag.now place }
{
    if place < bag.len() {
        bag.at(place)
    } else {
        RowRef {
            cells: &[],
            level: Level::Yes,
        }
    }
}

// The order of two places: that of the ranks of their rows, and where these tie that of the rows.
fn compared(bag: &OrderedBag, keys: &[OrderKey], a: Ranked, b: Ranked) -> Ordering
    ensures { result ≡ spec.compare_ranked keys.now bag.now a b }
{
    match a.rank.cmp(&b.rank) {
        Ordering::Equal => order_by(keys, row_at(bag, a.place), row_at(bag, b.place)),
        order => order,
    }
}

// The places of all rows, ascending.
fn places(bag: &OrderedBag, keys: &[OrderKey]) -> Result<Vec<Ranked>, OutOfMemory>
    ensures count { IfOk result (λ ranked. length ranked.items ≡ length bag.now) }
    ensures own { IfOk result (λ ranked. (k : ℕ) → (d : Ranked) → k < length ranked.items → (get_or ranked.items k d).place ≡ k) }
    ensures ranks { IfOk result (λ ranked. spec.AreRanks keys.now bag.now ranked.items) }
{
    let mut places = Vec::with_capacity(bag.allocator(), bag.len())?;
    for place in 0..bag.len() {
        let rank = key_rank(keys, row_at(bag, place));
        places.push(Ranked { rank, place })?;
    }
    Ok(places)
}

// Adds the places, without the ranks.
fn append_places(order: &mut Vec<usize>, ranked: &[Ranked]) -> Result<(), OutOfMemory>
    requires { order.old.items ≡ [] }
    ensures { OnOk result (order.new.items ≡ spec.places_of ranked.now) }
{
    for ranked in ranked {
        order.push(ranked.place)?;
    }
    Ok(())
}

// The places of all rows, in the order of the keys. What the ranks take is free behind them.
fn in_order(bag: &OrderedBag, keys: &[OrderKey]) -> Result<Vec<usize>, OutOfMemory>
    ensures ascending { IfOk result (λ order. IsSortedBy (row_less keys.now) (rows_at bag.now order.items)) }
    ensures same_rows { IfOk result (λ order. IsPermutation bag.now (rows_at bag.now order.items)) }
    ensures within { IfOk result (λ order. All (λ p. p < length bag.now) order.items) }
{
    let mut order = Vec::with_capacity(bag.allocator(), bag.len())?;
    let mut ranked = places(bag, keys)?;
    ranked.sort_unstable_by(|a, b| compared(bag, keys, *a, *b));
    append_places(&mut order, &ranked)?;
    Ok(order)
}

/// The rows by the keys, as `order_by` compares them, and so where the keys tie in ascending
/// order of all their columns, from the left, null first (SQL-92 13.1 leaves the order of such
/// rows open). It fails only for want of memory.
pub fn sorted(bag: OrderedBag, keys: &OrderKeys) -> Result<OrderedBag, OutOfMemory>
    ensures sorted { IfOk result (λ b. b ≡ sorted_rows keys.now bag) }
    ensures ascending { IfOk result (λ b. IsSortedBy (row_less keys.now) b) }
    ensures same_rows { IfOk result (λ b. IsPermutation bag b) }
{
    let order = in_order(&bag, keys.as_slice())?;
    Ok(bag.arranged(order))
}
