// The keys of ORDER BY (SQL-92, 13.1).
ghost use Rattle.std.specs.Prelude.{◌≡◌, map, position, IfOk};
ghost use Rattle.sql_meaning.specs.Meaning as named;

use crate::place::place_named;
use shared_types::{OutOfMemory, Text};
use sql_ast::{Direction, Sort, SortKey};
use sql_value::{OrderKey, OrderKeys};
use sqlite_items::Items;
use std::alloc::Global;

// The place of the first column of this name, from 1; 0 where there is none.
fn column_named(name: &Text, names: &[Option<Text>]) -> usize
    ensures { result ≡ named.place_from_one (position (named.is_named name.now) names.now) }
{
    match place_named(name, names) {
        Some(place) => place + 1,
        None => 0,
    }
}

// A number that isn't below 0, or 0.
fn number_or_zero(number: i64) -> usize
    ensures { result ≡ named.number_of number }
{
    match usize::try_from(number) {
        Ok(place) => place,
        Err(_) => 0,
    }
}

// The column of a key, from 1.
fn key_column(names: &[Option<Text>], key: &SortKey) -> usize
    ensures { result ≡ named.key_column names.now key.now }
{
    match key {
        SortKey::Name(name) => column_named(name, names),
        SortKey::Number(place) => number_or_zero(*place),
    }
}

// Whether a direction is DESC.
fn is_descending(direction: Option<Direction>) -> bool
    ensures { result ≡ named.is_descending direction }
{
    match direction {
        Some(Direction::Desc) => true,
        Some(Direction::Asc) | None => false,
    }
}

/// The keys, each with the place of its column among these names.
pub(crate) fn order_keys(
    alloc: Global,
    names: &[Option<Text>],
    sorts: &[Sort],
) -> Result<OrderKeys, OutOfMemory>
    ensures { IfOk result (λ keys. keys ≡ map (named.order_key names.now) sorts.now) }
{
    let mut keys = Items::new(alloc);
    for sort in sorts {
        keys.push(OrderKey {
            column: key_column(names, &sort.key),
            descending: is_descending(sort.direction),
        })?;
    }
    Ok(keys)
}
