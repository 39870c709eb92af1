// The keys of a table, with their cells in the records so far.
ghost use Rattle.std.specs.Prelude.{◌≡◌, ◌++◌, ◌∷◌, [], false, List, IfOk, map, option_map, slice_get};
ghost use Rattle.std.specs.List.{list_any};
ghost use Rattle.csv_tables.specs.declared.content.Content.{Content};
ghost use Rattle.csv_tables.specs.KeyCells.{cells_at, contents_in, held, if_counted, key_cells};
ghost use Rattle.csv_tables.specs.Seen as spec;
ghost use Rattle.row_bag.specs.RowRefs.{lent};

use crate::content::Content;
use crate::key_cells::{KeyCells, SeenCells};
use row_bag::RowRef;
use shared_types::OutOfMemory;
use sql_catalog::KeyDescriptor;
use sql_value::Cell;
use sqlite_items::Items;
use std::alloc::Global;

/// A key, with its cells in the records so far.
#[derive(Drop)]
pub struct SeenKey {
    pub key: KeyDescriptor,
    pub cells: SeenCells,
}

/// A record whose fields have been read.
pub trait ReadRecord {
    /// What the fields hold.
    ghost contents: { Self → List Content };

    /// The cell that the field at a place holds.
    fn held(&self, place: usize) -> Option<&Cell>
        ensures at { option_map (λ c. c.now) result ≡ held (slice_get (contents self.now) place) };
}

impl<'a> ReadRecord for &'a [Content] {
    ghost contents = { λ s. s.now };

    fn held(&self, place: usize) -> Option<&Cell> {
        match self.get(place) {
            Some(Content::Holds(cell)) => Some(cell),
            Some(Content::BadInteger | Content::TooLong | Content::BadUtf8) | None => None,
        }
    }
}

impl<'a> ReadRecord for RowRef<'a> {
    ghost contents = { λ r. contents_in (lent r) };

    fn held(&self, place: usize) -> Option<&Cell> {
        self.cells.get(place)
    }
}

// The cells at these places of a record; none where one of its fields holds no cell.
fn cells_at<R: ReadRecord>(
    alloc: Global,
    places: &[usize],
    fields: &R,
) -> Result<Option<KeyCells>, OutOfMemory>
    ensures { IfOk result (λ o. o ≡ cells_at places.now (R.contents fields.now)) }
{
    let mut cells = KeyCells::new(alloc);
    for place in places {
        let Some(cell) = fields.held(*place) else {
            return Ok(None);
        };
        cells.push(alloc, cell)?;
    }
    Ok(Some(cells))
}

// These cells, unless the key is UNIQUE and one of them is null.
fn if_counted(primary: bool, cells: KeyCells) -> Option<KeyCells>
    ensures { result ≡ if_counted primary cells }
{
    if primary {
        Some(cells)
    } else if cells.has_null() {
        None
    } else {
        Some(cells)
    }
}

// The cells of a key in a record, where they count.
fn key_cells<R: ReadRecord>(
    alloc: Global,
    key: &KeyDescriptor,
    fields: &R,
) -> Result<Option<KeyCells>, OutOfMemory>
    ensures { IfOk result (λ o. o ≡ key_cells key.now (R.contents fields.now)) }
{
    match cells_at(alloc, key.places.as_slice(), fields)? {
        Some(cells) => Ok(if_counted(key.primary, cells)),
        None => Ok(None),
    }
}

/// The keys with no record so far, and room for as many.
pub fn nothing_seen(
    alloc: Global,
    keys: &[KeyDescriptor],
    records: usize,
) -> Result<Vec<SeenKey>, OutOfMemory>
    ensures { IfOk result (λ v. v.items ≡ map spec.nothing_of keys.now) }
{
    let mut seen = Vec::with_capacity(alloc, keys.len())?;
    for key in keys {
        seen.push(SeenKey {
            key: KeyDescriptor {
                primary: key.primary,
                places: Items::from_slice(alloc, key.places.as_slice())?,
            },
            cells: SeenCells::with_capacity(alloc, records)?,
        })?;
    }
    Ok(seen)
}

// Whether the cells of a key in one more record are among those so far; else it adds them.
fn add_to<R: ReadRecord>(alloc: Global, seen: &mut SeenKey, fields: &R) -> Result<bool, OutOfMemory>
    ensures found { IfOk result (λ b. b ≡ spec.has_seen (R.contents fields.now) seen.old) }
    ensures after { IfOk result (λ b. b ≡ false → seen.new ≡ spec.seen_with (R.contents fields.now) seen.old) }
{
    match key_cells(alloc, &seen.key, fields)? {
        Some(cells) => Ok(!seen.cells.insert(cells)?),
        None => Ok(false),
    }
}

/// Whether the cells of a key in one more record are among those so far; else it adds those of
/// each key.
pub fn repeats<R: ReadRecord>(
    alloc: Global,
    seen: &mut Vec<SeenKey>,
    fields: &R,
) -> Result<bool, OutOfMemory>
    ensures found { IfOk result (λ b. b ≡ list_any (spec.has_seen (R.contents fields.now)) seen.old.items) }
    ensures after { IfOk result (λ b. b ≡ false → seen.new.items ≡ map (spec.seen_with (R.contents fields.now)) seen.old.items) }
{
    for i in 0..seen.as_slice().len() {
        if add_to(alloc, &mut seen[i], fields)? {
            return Ok(true);
        }
    }
    Ok(false)
}
