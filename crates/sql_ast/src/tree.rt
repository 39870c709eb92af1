// The trees of queries, conditions and expressions. Each type has a variant for each alternative
// of its lines of the grammar, and a field for each of its parts, in order. Chains of operators
// stand to the left: the left operand of the last operator is the chain before it.
use crate::name::{Alias, Column, Correlation};
use crate::word::{
    AdditiveOp, DataType, MultiplicativeOp, Quantifier, SetFunction, SetOperator, SetQuantifier,
    Sign,
};
use shared_types::{CmpOp, Text};
use sql_text::Name;
use sqlite_items::Items;

/// An expression (SQL-92, 6.11 to 6.14, 6.5 and 6.9).
///
/// ```text
/// expr   = term { ( "+" | "-" | "||" ) term }
/// term   = factor { ( "*" | "/" ) factor }
/// factor = [ "+" | "-" ] prim
/// ```
#[cycle(ast)]
pub enum Expr {
    /// `expr ( "+" | "-" | "||" ) term`
    Add(Box<Expr>, AdditiveOp, Box<Expr>),
    /// `term ( "*" | "/" ) factor`
    Multiply(Box<Expr>, MultiplicativeOp, Box<Expr>),
    /// `( "+" | "-" ) prim`
    Signed(Sign, Box<Expr>),
    /// `number`
    Number(i64),
    /// `string`
    Str(Text),
    /// `col`
    Column(Column),
    /// `"(" expr ")"`, where the expr isn't a lone sub
    Paren(Box<Expr>),
    /// `sub` in place of a value
    Scalar(Box<Query>),
    /// `COUNT "(" "*" ")"`
    CountAll,
    /// `( COUNT | SUM | AVG | MIN | MAX ) "(" [ ALL | DISTINCT ] expr ")"`
    Aggregate(SetFunction, Option<SetQuantifier>, Box<Expr>),
    /// `CASE { WHEN cond THEN res } [ ELSE res ] END`
    Searched(Items<Arm>, Otherwise),
    /// `CASE expr { WHEN expr THEN res } [ ELSE res ] END`
    Simple(Box<Expr>, Items<Choice>, Otherwise),
    /// `COALESCE "(" expr "," expr { "," expr } ")"`: the first, and the others
    Coalesce(Box<Expr>, Items<Expr>),
    /// `NULLIF "(" expr "," expr ")"`
    NullIf(Box<Expr>, Box<Expr>),
    /// `CAST "(" NULL AS type ")"`
    CastNull(DataType),
}

/// `res = expr | NULL`
#[cycle(ast)]
#[derive(Drop)]
pub enum Res {
    Value(Box<Expr>),
    Null,
}

/// `WHEN cond THEN res`
#[cycle(ast)]
#[derive(Drop)]
pub struct Arm {
    pub when: Cond,
    pub then: Res,
}

/// `WHEN expr THEN res`
#[cycle(ast)]
#[derive(Drop)]
pub struct Choice {
    pub when: Expr,
    pub then: Res,
}

/// `[ ELSE res ]`
#[cycle(ast)]
#[derive(Drop)]
pub enum Otherwise {
    Absent,
    Else(Res),
}

/// A condition (SQL-92, 8.2 to 8.8 and 8.12). A bool is true where `NOT` is written within a
/// predicate.
///
/// ```text
/// cond = conj { OR conj }
/// conj = neg { AND neg }
/// neg  = [ NOT ] ( pred | "(" cond ")" )
/// ```
#[cycle(ast)]
pub enum Cond {
    /// `cond OR conj`
    Or(Box<Cond>, Box<Cond>),
    /// `conj AND neg`
    And(Box<Cond>, Box<Cond>),
    /// `NOT ( pred | "(" cond ")" )`
    Not(Box<Cond>),
    /// `"(" cond ")"`
    Bracket(Box<Cond>),
    /// `expr op expr`
    Compare(Box<Expr>, CmpOp, Box<Expr>),
    /// `expr op ( ANY | SOME | ALL ) sub`
    Quantified(Box<Expr>, CmpOp, Quantifier, Box<Query>),
    /// `expr [ NOT ] BETWEEN expr AND expr`
    Between(Box<Expr>, bool, Box<Expr>, Box<Expr>),
    /// `expr [ NOT ] IN sub`
    InQuery(Box<Expr>, bool, Box<Query>),
    /// `expr [ NOT ] IN "(" expr { "," expr } ")"`, where the list isn't one lone sub
    InList(Box<Expr>, bool, Items<Expr>),
    /// `expr [ NOT ] LIKE expr`
    Like(Box<Expr>, bool, Box<Expr>),
    /// `expr IS [ NOT ] NULL`
    IsNull(Box<Expr>, bool),
    /// `EXISTS sub`
    Exists(Box<Query>),
}

/// `[ WHERE cond ]` or `[ HAVING cond ]`
#[cycle(ast)]
#[derive(Drop)]
pub enum Filter {
    Absent,
    Given(Box<Cond>),
}

/// `item = expr [ [ AS ] name ] | name "." "*"`
#[cycle(ast)]
#[derive(Drop)]
pub enum Item {
    Value(Box<Expr>, Option<Alias>),
    AllOf(Name),
}

/// `list = "*" | item { "," item }`
#[cycle(ast)]
#[derive(Drop)]
pub enum SelectList {
    All,
    Items(Items<Item>),
}

/// A table of a FROM (SQL-92, 6.3 and 7.5).
///
/// ```text
/// tref  = tprim { join }
/// join  = [ INNER ] JOIN tprim ON cond | LEFT [ OUTER ] JOIN tprim ON cond | CROSS JOIN tprim
/// tprim = name [ [ AS ] name [ "(" names ")" ] ] | sub [ AS ] name [ "(" names ")" ]
///       | "(" tprim join { join } ")"
/// ```
#[cycle(ast)]
pub enum TableRef {
    /// `tref [ INNER ] JOIN tprim ON cond`: whether `INNER` is written
    Join(Box<TableRef>, bool, Box<TableRef>, Box<Cond>),
    /// `tref LEFT [ OUTER ] JOIN tprim ON cond`, where the cond holds no sub: whether `OUTER` is
    /// written
    LeftJoin(Box<TableRef>, bool, Box<TableRef>, Box<Cond>),
    /// `tref CROSS JOIN tprim`
    CrossJoin(Box<TableRef>, Box<TableRef>),
    /// `name [ [ AS ] name [ "(" names ")" ] ]`
    Named(Name, Option<Correlation>),
    /// `sub [ AS ] name [ "(" names ")" ]`
    Derived(Box<Query>, Correlation),
    /// `"(" tprim join { join } ")"`
    Joined(Box<TableRef>),
}

/// `SELECT [ ALL | DISTINCT ] list FROM tref { "," tref } [ WHERE cond ]
/// [ GROUP BY col { "," col } ] [ HAVING cond ]` (SQL-92, 7.9)
#[cycle(ast)]
#[derive(Drop)]
pub struct Block {
    pub quantifier: Option<SetQuantifier>,
    pub list: SelectList,
    pub from: Items<TableRef>,
    pub filter: Filter,
    /// The grouping columns; no GROUP BY is written where this is empty.
    pub grouping: Items<Column>,
    pub having: Filter,
}

/// A query expression (SQL-92, 7.10). A bool is true where `ALL` is written.
///
/// ```text
/// query = qterm { ( UNION | EXCEPT ) [ ALL ] qterm }
/// qterm = qprim { INTERSECT [ ALL ] qprim }
/// qprim = block | sub
/// ```
#[cycle(ast)]
pub enum Query {
    /// `query ( UNION | EXCEPT ) [ ALL ] qterm`
    Combine(Box<Query>, SetOperator, bool, Box<Query>),
    /// `qterm INTERSECT [ ALL ] qprim`
    Intersect(Box<Query>, bool, Box<Query>),
    /// `block`
    Block(Box<Block>),
    /// `sub`
    Enclosed(Box<Query>),
}

impl Drop for Expr {
    #[cycle(drop_tree)]
    fn drop(self) {
        match self {
            Expr::Searched(list, _) => drop(list),
            Expr::Simple(_, list, _) => drop(list),
            Expr::Coalesce(_, list) => drop(list),
            Expr::Add(_, _, _)
            | Expr::Multiply(_, _, _)
            | Expr::Signed(_, _)
            | Expr::Number(_)
            | Expr::Str(_)
            | Expr::Column(_)
            | Expr::Paren(_)
            | Expr::Scalar(_)
            | Expr::CountAll
            | Expr::Aggregate(_, _, _)
            | Expr::NullIf(_, _)
            | Expr::CastNull(_) => {}
        }
    }
}

impl Drop for Cond {
    #[cycle(drop_tree)]
    fn drop(self) {
        match self {
            Cond::InList(_, _, list) => drop(list),
            Cond::Or(_, _)
            | Cond::And(_, _)
            | Cond::Not(_)
            | Cond::Bracket(_)
            | Cond::Compare(_, _, _)
            | Cond::Quantified(_, _, _, _)
            | Cond::Between(_, _, _, _)
            | Cond::InQuery(_, _, _)
            | Cond::Like(_, _, _)
            | Cond::IsNull(_, _)
            | Cond::Exists(_) => {}
        }
    }
}

impl Drop for TableRef {
    #[cycle(drop_tree)]
    fn drop(self) {
        match self {
            TableRef::Join(_, _, _, _)
            | TableRef::LeftJoin(_, _, _, _)
            | TableRef::CrossJoin(_, _)
            | TableRef::Named(_, _)
            | TableRef::Derived(_, _)
            | TableRef::Joined(_) => {}
        }
    }
}

impl Drop for Query {
    #[cycle(drop_tree)]
    fn drop(self) {
        match self {
            Query::Combine(_, _, _, _)
            | Query::Intersect(_, _, _)
            | Query::Block(_)
            | Query::Enclosed(_) => {}
        }
    }
}
