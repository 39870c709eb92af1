// What expressions and conditions name.

/// The number of a quantifier.
pub type QuantId = usize;

/// A column of a quantifier's row, by its place from 1.
#[derive(Clone, Copy, PartialEq, Eq)]
pub struct Column {
    pub quant: QuantId,
    pub place: usize,
}

/// A place in an expression or a condition where the rows of a quantifier are asked for.
#[derive(Clone, Copy, PartialEq, Eq)]
pub enum QuantNode {
    Scalar(QuantId),
    Some(QuantId),
    Every(QuantId),
}
