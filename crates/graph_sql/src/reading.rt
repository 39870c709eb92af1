// How a condition is read, and the words of a test.
ghost use Rattle.std.specs.Prelude.{◌≡◌};
ghost use Rattle.graph_sql.specs.Readings as spec;

/// What is asked of a condition.
#[derive(Clone, Copy)]
pub enum Reading {
    /// Whether it is true.
    True,
    /// Whether it is false.
    False,
    /// Whether it isn't true.
    NotTrue,
    /// Whether it isn't false.
    NotFalse,
}

/// What joins two tests.
#[derive(Clone, Copy)]
pub enum Connective {
    And,
    Or,
}

/// A comparison of two cells. The last two are of arrays of one cell, in which two nulls are the same.
#[derive(Clone, Copy)]
pub enum Comparison {
    Equal,
    Unequal,
    Below,
    AtMost,
    Above,
    AtLeast,
    Like,
    NotLike,
    Same,
    NotSame,
}

/// The reading of a condition by which its NOT is read.
pub fn turned(reading: Reading) -> Reading
    ensures { result ≡ spec.turned reading }
{
    match reading {
        Reading::True => Reading::False,
        Reading::False => Reading::True,
        Reading::NotTrue => Reading::NotFalse,
        Reading::NotFalse => Reading::NotTrue,
    }
}

/// What joins the readings of the operands of AND.
pub fn of_and(reading: Reading) -> Connective
    ensures { result ≡ spec.of_and reading }
{
    match reading {
        Reading::True | Reading::NotFalse => Connective::And,
        Reading::False | Reading::NotTrue => Connective::Or,
    }
}

/// What joins the readings of the operands of OR.
pub fn of_or(reading: Reading) -> Connective
    ensures { result ≡ spec.of_or reading }
{
    match reading {
        Reading::True | Reading::NotFalse => Connective::Or,
        Reading::False | Reading::NotTrue => Connective::And,
    }
}

/// How a condition of some row is read of a row.
pub fn of_some(reading: Reading) -> Reading
    ensures { result ≡ spec.of_some reading }
{
    match reading {
        Reading::True | Reading::NotTrue => Reading::True,
        Reading::False | Reading::NotFalse => Reading::NotFalse,
    }
}

/// How a condition of every row is read of a row.
pub fn of_every(reading: Reading) -> Reading
    ensures { result ≡ spec.of_every reading }
{
    match reading {
        Reading::True | Reading::NotTrue => Reading::NotTrue,
        Reading::False | Reading::NotFalse => Reading::False,
    }
}
