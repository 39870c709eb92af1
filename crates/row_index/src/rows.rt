// Rows that have a hash, or none.
ghost use Rattle.std.specs.Prelude.{◌≡◌, ◌==◌, IfOk};
ghost use Rattle.std.specs.List.{list_all};
ghost use Rattle.row_index.specs.Ways as spec;

use crate::key_index::KeyIndex;
use shared_types::OutOfMemory;
use std::alloc::Global;

/// The hashes of rows that stand elsewhere, in their order. Where rows have none, a mark of each row: 1
/// of those without a hash, which every look-up sees.
#[derive(Drop)]
pub struct RowIndex {
    pub hashes: KeyIndex,
    pub marks: Option<KeyIndex>,
}

// 1 of a row without a hash, else 0.
fn mark(key: Option<u64>) -> u64
    ensures { result ≡ spec.mark key }
{
    match key {
        Some(_) => 0,
        None => 1,
    }
}

// Whether each row has a hash.
fn all_hashed(keys: &[Option<u64>]) -> bool
    ensures { result ≡ list_all (λ o. spec.mark o == 0) keys.now }
{
    keys.iter().all(|key| mark(*key) == 0)
}

// The marks of rows, if some have no hash.
fn marks_of(alloc: Global, keys: &[Option<u64>]) -> Result<Option<KeyIndex>, OutOfMemory>
    ensures { IfOk result (λ o. spec.AreMarks keys.now o) }
{
    if all_hashed(keys) {
        return Ok(None);
    }
    let marks = keys.iter().map(|key| mark(*key)).collect(alloc)?;
    Ok(Some(KeyIndex::of_hashes(alloc, marks)?))
}

/// The index of rows, each of which has one of these hashes or none. It fails only for want of memory.
pub fn index_of(alloc: Global, keys: &[Option<u64>]) -> Result<RowIndex, OutOfMemory>
    ensures { IfOk result (λ index. spec.Indexes keys.now index) }
{
    let hashes = keys.iter().map(|key| key.unwrap_or(0)).collect(alloc)?;
    let hashes = KeyIndex::of_hashes(alloc, hashes)?;
    Ok(RowIndex {
        hashes,
        marks: marks_of(alloc, keys)?,
    })
}
