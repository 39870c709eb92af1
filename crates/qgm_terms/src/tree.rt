// Expressions and conditions of boxes.
ghost use Rattle.std.specs.Prelude.{◌≡◌, IfErr, IfOk};

use crate::named::QuantId;
use shared_types::Text;

mod split;

/// How many levels of brackets and CASE within one another an expression or a condition may have. The
/// operands of a chain and the arms of a CASE are one level, however many they are.
pub const ROOM: usize = 4_096;

/// An operation on two values.
#[derive(Clone, Copy, PartialEq, Eq)]
pub enum Op {
    Add,
    Sub,
    Mul,
    Div,
    Cat,
}

/// An aggregate of the cells of a group; `Single` is the cell of at most one row.
#[derive(Clone, Copy, PartialEq, Eq)]
pub enum Aggregate {
    Single,
    Count,
    Sum,
    Avg,
    Min,
    Max,
}

/// Whether an aggregate takes equal cells once.
#[derive(Clone, Copy, PartialEq, Eq)]
pub enum Taken {
    All,
    Once,
}

/// A comparison; `Same` is null-safe equality.
#[derive(Clone, Copy, PartialEq, Eq)]
pub enum Sign {
    Eq,
    Ne,
    Lt,
    Le,
    Gt,
    Ge,
    Same,
    Like,
}

/// An expression: what a cell is made of. Contracts see it as the `Term` that it holds.
#[cycle(gx)]
pub enum Gx {
    Int(i64),
    Text(Text),
    NullInt,
    NullText,
    /// A column, by its place from 1, of a quantifier's row.
    Col(QuantId, usize),
    /// The value of the one row of an S quantifier.
    Scalar(QuantId),
    /// A first operand, and then operators and operands, from the left.
    Chain(Box<Gx>, Vec<Link>),
    Neg(Box<Gx>),
    /// The result of the first condition that is true, or the last value.
    Case(Vec<Arm>, Box<Gx>),
    CountAll,
    /// An aggregate of a group's cells.
    Fold(Aggregate, Taken, Box<Gx>),
}

/// An operator and its right operand.
#[cycle(gx)]
#[derive(Drop)]
pub struct Link {
    pub op: Op,
    pub right: Gx,
}

/// A condition, and the result where it is the first that is true.
#[cycle(gx)]
#[derive(Drop)]
pub struct Arm {
    pub when: Gc,
    pub then: Gx,
}

/// A condition. Contracts see it as the `Cond` that it holds.
#[cycle(gx)]
pub enum Gc {
    True,
    Compare(Sign, Box<Gx>, Box<Gx>),
    IsNull(Box<Gx>),
    /// The AND of the first and the others, from the left.
    All(Box<Gc>, Vec<Gc>),
    /// The OR of the first and the others, from the left.
    Any(Box<Gc>, Vec<Gc>),
    Not(Box<Gc>),
    /// For a row of an E quantifier.
    Some(QuantId, Box<Gc>),
    /// For each row of an A quantifier.
    Every(QuantId, Box<Gc>),
}

impl Drop for Gx {
    #[cycle(drop_tree)]
    fn drop(self) {
        match self {
            Gx::Int(_)
            | Gx::Text(_)
            | Gx::NullInt
            | Gx::NullText
            | Gx::Col(_, _)
            | Gx::Scalar(_)
            | Gx::Chain(_, _)
            | Gx::Neg(_)
            | Gx::Case(_, _)
            | Gx::CountAll
            | Gx::Fold(_, _, _) => {}
        }
    }
}

impl Drop for Gc {
    #[cycle(drop_tree)]
    fn drop(self) {
        match self {
            Gc::True
            | Gc::Compare(_, _, _)
            | Gc::IsNull(_)
            | Gc::All(_, _)
            | Gc::Any(_, _)
            | Gc::Not(_)
            | Gc::Some(_, _)
            | Gc::Every(_, _) => {}
        }
    }
}

impl Gx {
    ghost use Rattle.qgm_terms.specs.declared.tree.Gx.TheVariants as gx;

    // The first operand and the links of a chain, or else the expression as it is.
    pub(crate) fn into_chain(self) -> Result<(Box<Gx>, Vec<Link>), Gx>
        ensures chain { IfOk result (λ p. self ≡ gx.Chain p.0 p.1) }
        ensures other { IfErr result (λ x. self ≡ x) }
    {
        match self {
            Gx::Chain(first, list) => Ok((first, list)),
            other => Err(other),
        }
    }
}

impl Gc {
    ghost use Rattle.qgm_terms.specs.declared.tree.Gc.TheVariants as gc;

    // The first condition and the others of an AND, or else the condition as it is.
    pub(crate) fn into_all(self) -> Result<(Box<Gc>, Vec<Gc>), Gc>
        ensures all { IfOk result (λ p. self ≡ gc.All p.0 p.1) }
        ensures other { IfErr result (λ p. self ≡ p) }
    {
        match self {
            Gc::All(first, list) => Ok((first, list)),
            other => Err(other),
        }
    }

    // The first condition and the others of an OR, or else the condition as it is.
    pub(crate) fn into_any(self) -> Result<(Box<Gc>, Vec<Gc>), Gc>
        ensures any { IfOk result (λ p. self ≡ gc.Any p.0 p.1) }
        ensures other { IfErr result (λ p. self ≡ p) }
    {
        match self {
            Gc::Any(first, list) => Ok((first, list)),
            other => Err(other),
        }
    }
}
