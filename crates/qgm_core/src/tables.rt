// Tables that are read by number.
ghost use Rattle.std.specs.Prelude.{◌≡◌, ◌<◌, ℕ, length, slice_index_or, OnOk};

use shared_types::OutOfMemory;

// Makes a table long enough to be read at x. What is read of it stays.
pub fn make_long<T: Copy>(table: &mut Vec<T>, x: usize, none: T) -> Result<(), OutOfMemory>
    ensures within { OnOk result (x < length table.new.items) }
    ensures same { (y : ℕ) → slice_index_or table.new.items y none ≡ slice_index_or table.old.items y none }
{
    let long = table.len().max(x.saturating_add(1));
    table.resize(long, none).or(Err(OutOfMemory))
}
