// The chain of levels.
ghost use Rattle.std.specs.Prelude.{◌≡◌};
ghost use Rattle.sql_value.specs.Level as spec;

use crate::cell::Kind;

/// How far a row is there, or a condition is true or false. The levels ascend in this order.
#[derive(Clone, Copy, PartialEq, Eq, PartialOrd, Ord)]
pub enum Level {
    /// Not at all.
    No,
    /// As the error that a subquery has more than one row.
    Cardinality,
    /// As the error of a division by zero.
    Division,
    /// As the error of a number out of range.
    Overflow,
    /// Wholly.
    Yes,
}

/// The lower one of two levels.
pub fn least(a: Level, b: Level) -> Level
    ensures { result ≡ spec.least a b }
{
    if a <= b { a } else { b }
}

/// The higher one of two levels.
pub fn greatest(a: Level, b: Level) -> Level
    ensures { result ≡ spec.greatest a b }
{
    if a <= b { b } else { a }
}

/// The level of an error.
pub fn level_of(kind: Kind) -> Level
    ensures { result ≡ spec.level_of kind }
{
    match kind {
        Kind::Cardinality => Level::Cardinality,
        Kind::Division => Level::Division,
        Kind::Overflow => Level::Overflow,
    }
}
