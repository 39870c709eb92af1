// Keys of rows: their first cells.
ghost use Rattle.std.specs.Prelude.{◌≡◌, take};
ghost use Rattle.row_bag.specs.Groups as spec;

use crate::answer::{error_at, error_in, is_there, worst_of};
use crate::row::Row;
use sql_value::{Cell, Kind};

// The first cells of a row, so many or as many as there are.
fn key_of(row: &Row, keys: usize) -> &[Cell]
    ensures { result.now ≡ take keys row.now.cells }
{
    let cells = row.cells.as_slice();
    if keys < cells.len() {
        &cells[..keys]
    } else {
        cells
    }
}

/// The greatest error among the level and the first cells, so many, of a row that is there; none of
/// a row that isn't.
pub fn key_error_of(row: &Row, keys: usize) -> Option<Kind>
    ensures { result ≡ spec.key_error_of keys row.now }
{
    if is_there(row) {
        worst_of(error_at(row.level), error_in(key_of(row, keys)))
    } else {
        None
    }
}
