// What an execution counts beside its rows.
ghost use Rattle.std.specs.Prelude.{◌≡◌, ◌+◌, min};
ghost use Rattle.box_exec.specs.Costs.{Between, at_level};

use sql_value::Level;

/// How many evaluations of boxes were made, and how many rows selects took for their F quantifiers; each at
/// most the greatest 64-bit number.
#[derive(Drop)]
pub(crate) struct Tally {
    pub count: u64,
    pub taken: u64,
}

/// One row more is taken, if it is there.
pub(crate) fn take(level: Level, taken: &mut u64)
    ensures counted { taken.new ≡ min (taken.old + at_level level 1) 18446744073709551615 }
    ensures took { Between 0 (at_level level 1) taken.old taken.new }
{
    let before = *taken;
    match level {
        Level::No => {}
        Level::Cardinality | Level::Division | Level::Overflow | Level::Yes => {
            *taken = before.saturating_add(1);
        }
    }
}
