// Truth, with errors.
ghost use Rattle.std.specs.Prelude.{◌≡◌};
ghost use Rattle.sql_value.specs.Truths as spec;

use crate::cell::Kind;
use crate::level::{Level, greatest, least, level_of};

/// How far a condition is true, and how far false. It is true at (Yes, No), false at (No, Yes),
/// unknown at (No, No), and an error at the error's level on both sides (SQL-92 8.12, with
/// errors as further values).
#[derive(Clone, Copy, PartialEq, Eq)]
pub struct Truth {
    /// How far it is true.
    pub t: Level,
    /// How far it is false.
    pub f: Level,
}

/// True, or false.
pub fn decided(holds: bool) -> Truth
    ensures { result ≡ spec.truth_of holds }
{
    if holds {
        Truth {
            t: Level::Yes,
            f: Level::No,
        }
    } else {
        Truth {
            t: Level::No,
            f: Level::Yes,
        }
    }
}

// Neither true nor false.
pub(crate) fn unknown() -> Truth
    ensures { result ≡ spec.unknown }
{
    Truth {
        t: Level::No,
        f: Level::No,
    }
}

// An error.
pub(crate) fn error(kind: Kind) -> Truth
    ensures { result ≡ spec.error kind }
{
    Truth {
        t: level_of(kind),
        f: level_of(kind),
    }
}

/// `AND`: as far true as the part that is least true, and as far false as the part that is most
/// false (SQL-92 8.12).
pub fn and(p: Truth, q: Truth) -> Truth
    ensures { result ≡ spec.and p q }
{
    Truth {
        t: least(p.t, q.t),
        f: greatest(p.f, q.f),
    }
}

/// `OR`: as far true as the part that is most true, and as far false as the part that is least
/// false (SQL-92 8.12).
pub fn or(p: Truth, q: Truth) -> Truth
    ensures { result ≡ spec.or p q }
{
    Truth {
        t: greatest(p.t, q.t),
        f: least(p.f, q.f),
    }
}

/// `NOT`: true as far as the condition is false, and false as far as it is true (SQL-92 8.12).
pub fn not(p: Truth) -> Truth
    ensures { result ≡ spec.negated p }
{
    Truth { t: p.f, f: p.t }
}

/// The level of a row that a condition filters: the lower one of the row's own and of how far the
/// condition is true.
pub fn keep(level: Level, t: Truth) -> Level
    ensures { result ≡ spec.keep level t }
{
    least(level, t.t)
}
