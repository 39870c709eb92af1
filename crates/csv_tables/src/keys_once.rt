// The keys of a table, each once: a key that is declared again asks nothing more.
ghost use Rattle.std.specs.Prelude.{◌≡◌, [], IfOk};
ghost use Rattle.std.specs.List.{list_any};
ghost use Rattle.csv_tables.specs.KeysOnce as spec;

use shared_types::OutOfMemory;
use sql_catalog::{KeyDescriptor, TableDescriptor};
use sqlite_items::Items;
use std::alloc::Global;

// Whether two keys are the same.
fn same_key(a: &KeyDescriptor, b: &KeyDescriptor) -> bool
    ensures { result ≡ spec.same_key a.now b.now }
{
    let kind = if a.primary { b.primary } else { !b.primary };
    kind && a.places.as_slice() == b.places.as_slice()
}

// Whether a key is among others.
fn is_among(key: &KeyDescriptor, keys: &[KeyDescriptor]) -> bool
    ensures { result ≡ list_any (spec.same_key key.now) keys.now }
{
    keys.iter().any(|other| same_key(key, other))
}

// The same key.
fn copied(alloc: Global, key: &KeyDescriptor) -> Result<KeyDescriptor, OutOfMemory>
    ensures { IfOk result (λ k. k ≡ key.now) }
{
    Ok(KeyDescriptor {
        primary: key.primary,
        places: Items::from_slice(alloc, key.places.as_slice())?,
    })
}

// Each key once.
fn each_once(alloc: Global, keys: &[KeyDescriptor]) -> Result<Items<KeyDescriptor>, OutOfMemory>
    ensures { IfOk result (λ out. out ≡ spec.add_keys [] keys.now) }
{
    let mut out = Items::new(alloc);
    for key in keys {
        if !is_among(key, out.as_slice()) {
            out.push(copied(alloc, key)?)?;
        }
    }
    Ok(out)
}

/// A table with each of its keys once.
pub fn keyed_once(alloc: Global, table: TableDescriptor) -> Result<TableDescriptor, OutOfMemory>
    ensures { IfOk result (λ t. t ≡ spec.keyed_once table) }
{
    let TableDescriptor { columns, keys } = table;
    let keys = each_once(alloc, keys.as_slice())?;
    Ok(TableDescriptor { columns, keys })
}
