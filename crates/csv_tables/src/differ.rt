// Whether the rows of a table differ in its keys, told by hashes.
ghost use Rattle.std.specs.Prelude.{◌≡◌, ◌||◌, [], true, not, IfOk, IsTrue, map, option_map};
ghost use Rattle.std.specs.List.Sorted.{IsStrictlyIncreasing};
ghost use Rattle.csv_tables.specs.Differ as spec;
ghost use Rattle.csv_tables.specs.KeyCells.{contents_in, is_null_cell, key_cells, keys_in};
ghost use Rattle.row_bag.specs.RowRefs.{lent};

use crate::seen::ReadRecord;
use row_bag::{Bag, RowRef};
use shared_types::OutOfMemory;
use sql_catalog::KeyDescriptor;
use sql_value::Cell;
use std::alloc::Global;
use std::hash::{FoldHasher, Hash, Hasher};

// Feeds a cell to a hasher.
fn feed(cell: &Cell, hasher: &mut FoldHasher)
    ensures { hasher.new ≡ spec.fed_with hasher.old cell.now }
{
    match cell {
        Cell::Int(number) => number.hash(hasher),
        Cell::Text(text) => text.hash(hasher),
        Cell::Null => hasher.write_u8(0),
        Cell::Err(_) => hasher.write_u8(1),
    }
}

// Whether a cell counts: it isn't null, or stands in a primary key.
fn counts(primary: bool, cell: &Cell) -> bool
    ensures { result ≡ (primary || not (is_null_cell cell.now)) }
{
    primary || !matches!(cell, Cell::Null)
}

// The hash of the cells of a key in a row, where they count.
fn hash_of(key: &KeyDescriptor, row: RowRef<'_>) -> Option<u64>
    ensures { result ≡ option_map spec.hash_of (key_cells key.now (contents_in (lent row.entry))) }
{
    let places = key.places.as_slice();
    let mut hasher = FoldHasher::default();
    for place in places {
        let Some(cell) = row.held(*place) else {
            return None;
        };
        if !counts(key.primary, cell) {
            return None;
        }
        feed(cell, &mut hasher);
    }
    Some(hasher.finish())
}

// The hashes of the cells of a key in the rows where they count, in the rows' order.
fn hashes(alloc: Global, key: &KeyDescriptor, rows: &Bag) -> Result<Vec<u64>, OutOfMemory>
    ensures { IfOk result (λ v. v.items ≡ map spec.hash_of (keys_in key.now rows.now)) }
{
    let mut hashes = Vec::with_capacity(alloc, rows.len())?;
    for i in 0..rows.len() {
        if let Some(hash) = hash_of(key, rows.at(i)) {
            hashes.push(hash)?;
        }
    }
    Ok(hashes)
}

// Whether each number is below the next.
fn rise(numbers: &[u64]) -> bool
    ensures { IsTrue result → IsStrictlyIncreasing numbers.now }
{
    for i in 1..numbers.len() {
        if numbers[i] <= numbers[i - 1] {
            return false;
        }
    }
    true
}

// Whether the hashes of a key's cells differ, so that the rows differ in the key.
fn rows_differ(alloc: Global, key: &KeyDescriptor, rows: &Bag) -> Result<bool, OutOfMemory>
    ensures { IfOk result (λ b. b ≡ true → spec.rows_differ key.now [] rows.now ≡ true) }
{
    let mut hashes = hashes(alloc, key, rows)?;
    hashes.sort_unstable();
    Ok(rise(&hashes))
}

/// Whether the rows differ in each key, as far as hashes tell: where two rows' cells of a key have
/// one hash, it is false.
pub fn keys_differ(alloc: Global, keys: &[KeyDescriptor], rows: &Bag) -> Result<bool, OutOfMemory>
    ensures { IfOk result (λ b. b ≡ true → spec.keys_differ keys.now rows.now ≡ true) }
{
    for key in keys {
        if !rows_differ(alloc, key, rows)? {
            return Ok(false);
        }
    }
    Ok(true)
}
