// What one word or sign of the grammar may be, and the types of columns.

/// `+`, `-` or `||` between two operands.
#[derive(Clone, Copy, PartialEq, Eq)]
pub enum AdditiveOp {
    Plus,
    Minus,
    Concat,
}

/// `*` or `/` between two operands.
#[derive(Clone, Copy, PartialEq, Eq)]
pub enum MultiplicativeOp {
    Times,
    Divide,
}

/// `+` or `-` before an operand.
#[derive(Clone, Copy, PartialEq, Eq)]
pub enum Sign {
    Plus,
    Minus,
}

/// `ALL` or `DISTINCT` (SQL-92, 6.5, set quantifier).
#[derive(Clone, Copy, PartialEq, Eq)]
pub enum SetQuantifier {
    All,
    Distinct,
}

/// The name of an aggregate (SQL-92, 6.5, set function type).
#[derive(Clone, Copy, PartialEq, Eq)]
pub enum SetFunction {
    Count,
    Sum,
    Avg,
    Min,
    Max,
}

/// The quantifier of a comparison with a subquery (SQL-92, 8.7). `ANY` and `SOME` mean the same.
#[derive(Clone, Copy, PartialEq, Eq)]
pub enum Quantifier {
    Any,
    Some,
    All,
}

/// `UNION` or `EXCEPT` (SQL-92, 7.10).
#[derive(Clone, Copy, PartialEq, Eq)]
pub enum SetOperator {
    Union,
    Except,
}

/// `ASC` or `DESC` (SQL-92, 13.1).
#[derive(Clone, Copy, PartialEq, Eq)]
pub enum Direction {
    Asc,
    Desc,
}

/// `INTEGER | INT | VARCHAR "(" number ")"` (SQL-92, 6.1).
#[derive(Clone, Copy, PartialEq, Eq)]
pub enum DataType {
    Integer,
    Int,
    Varchar(i64),
}
