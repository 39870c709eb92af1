// Lists of places.
ghost use Rattle.std.specs.Prelude.{◌≡◌, ◌++◌, OnErr, OnOk, map};
ghost use Rattle.rule_api.specs.Picks.{picked};
ghost use Rattle.rule_api.specs.Rules.{place_at};

use crate::place::Place;
use qgm_core::BoxId;
use shared_types::OutOfMemory;

/// Adds a place at the end, where a test passes. It fails where there is no memory.
pub fn add_if(
    out: &mut Vec<Place>,
    passes: bool,
    b: BoxId,
    i: usize,
    j: usize,
) -> Result<(), OutOfMemory>
    ensures ok { OnOk result (out.new.items ≡ out.old.items ++ map (place_at b) (picked passes i j)) }
    ensures err { OnErr result (out.new.items ≡ out.old.items) }
{
    if passes {
        out.push(Place { at: b, i, j })?;
    }
    Ok(())
}
