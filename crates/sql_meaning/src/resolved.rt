// Queries whose names are resolved. They stand without parentheses and noise words.
ghost use Rattle.std.specs.Prelude.{◌≡◌, true};
ghost use Rattle.sql_meaning.specs.Chains as chains;

use shared_types::CmpOp;
use sql_ast::{AdditiveOp, MultiplicativeOp, Quantifier, SetFunction, SetOperator};
use sql_text::Name;
use sql_value::{SqlType, Text};
use sqlite_items::Items;

/// An expression (SQL-92, 6.11 to 6.14, 6.5 and 6.9).
#[cycle(checked)]
pub enum Value {
    Number(i64),
    Text(Text),
    /// NULL of the type of a CAST; a NULL that is a result of a CASE has no type of its own.
    Null(Option<SqlType>),
    /// A column: the number of scopes between, 0 for the innermost, and the place, from 0, in the
    /// row of that scope: the cells of the tables of a FROM, one after the other.
    Column(usize, usize),
    /// A first operand, and then `+`, `-` or `||` and an operand, from the left.
    Sum(Box<Value>, Items<Addend>),
    /// A first operand, and then `*` or `/` and an operand, from the left.
    Product(Box<Value>, Items<Multiplier>),
    Negative(Box<Value>),
    /// The result of the first condition that is true, or the last value.
    Searched(Items<Arm>, Box<Value>),
    /// The result of the first value that the operand equals, or the last value.
    Simple(Box<Value>, Items<Choice>, Box<Value>),
    /// The first of these that isn't null.
    Coalesce(Box<Value>, Items<Value>),
    /// Null where the two are equal, else the first.
    NullIf(Box<Value>, Box<Value>),
    /// A subquery of one column and at most one row (SQL-92, 7.11).
    Scalar(Box<Query>),
    /// `COUNT(*)`: how many rows the group has.
    CountAll,
    /// An aggregate over the rows of the group, with DISTINCT where the bool is true (SQL-92, 6.5).
    /// The argument is read in a scope that holds one row of the group alone.
    Aggregate(SetFunction, bool, Box<Value>),
}

/// An operator and its right operand.
#[cycle(checked)]
#[derive(Drop)]
pub struct Addend {
    pub op: AdditiveOp,
    pub value: Value,
}

/// An operator and its right operand.
#[cycle(checked)]
#[derive(Drop)]
pub struct Multiplier {
    pub op: MultiplicativeOp,
    pub value: Value,
}

/// A condition, and the result where it is the first that is true.
#[cycle(checked)]
#[derive(Drop)]
pub struct Arm {
    pub when: Test,
    pub then: Value,
}

/// A value, and the result where it is the first that the operand equals.
#[cycle(checked)]
#[derive(Drop)]
pub struct Choice {
    pub when: Value,
    pub then: Value,
}

/// A condition (SQL-92, 8.2 to 8.8 and 8.12).
#[cycle(checked)]
pub enum Test {
    /// The AND of these, true where there is none.
    All(Items<Test>),
    /// The OR of these, false where there is none.
    Any(Items<Test>),
    Not(Box<Test>),
    Compare(Box<Value>, CmpOp, Box<Value>),
    /// A comparison with the rows of a subquery of one column (SQL-92, 8.7).
    Quantified(Box<Value>, CmpOp, Quantifier, Box<Query>),
    /// The first is at least the second and at most the third.
    Between(Box<Value>, Box<Value>, Box<Value>),
    /// The first equals one of the others.
    Among(Box<Value>, Items<Value>),
    /// The value equals a row of a subquery of one column (SQL-92, 8.4).
    AmongRows(Box<Value>, Box<Query>),
    Like(Box<Value>, Box<Value>),
    IsNull(Box<Value>),
    /// The subquery has a row (SQL-92, 8.8).
    Exists(Box<Query>),
}

/// A table of a FROM (SQL-92, 6.3 and 7.5). Its row is the cells of its tables, one after the
/// other.
#[cycle(checked)]
pub enum From {
    /// A table or a view, by its name.
    Named(Name),
    /// A subquery, in the scopes round the block.
    Derived(Box<Query>),
    /// CROSS JOIN.
    Crossed(Box<From>, Box<From>),
    /// JOIN, and its ON, which sees the row of both before the scopes round the block.
    Joined(Box<From>, Box<From>, Box<Test>),
    /// LEFT JOIN, the number of columns of the right, and its ON.
    LeftJoined(Box<From>, Box<From>, usize, Box<Test>),
}

/// A query expression (SQL-92, 7.9 and 7.10). A first bool of a block is true where DISTINCT is
/// written, the bool of an operation where ALL is written.
#[cycle(checked)]
pub enum Query {
    /// The output columns, FROM, and WHERE.
    Block(bool, Items<Value>, Items<From>, Box<Test>),
    /// The output columns, FROM, WHERE, the places of the grouping columns in the row of the FROM
    /// where GROUP BY is written, the number of columns of the FROM, and HAVING. The output columns
    /// and HAVING are read in a scope with the grouping cells at their places and null at all
    /// others.
    Grouped(bool, Items<Value>, Items<From>, Box<Test>, Option<Items<usize>>, usize, Box<Test>),
    /// UNION or EXCEPT, and the number of columns.
    Combine(Box<Query>, SetOperator, bool, usize, Box<Query>),
    /// INTERSECT, and the number of columns.
    Intersect(Box<Query>, bool, usize, Box<Query>),
}

/// A view (SQL-92, 11.19): its name, and its body, which sees no scope.
#[derive(Drop)]
pub struct View {
    pub name: Name,
    pub body: Query,
}

impl Drop for Value {
    #[cycle(drop_resolved)]
    fn drop(self) {
        match self {
            Value::Sum(_, list) => drop(list),
            Value::Product(_, list) => drop(list),
            Value::Searched(list, _) => drop(list),
            Value::Simple(_, list, _) => drop(list),
            Value::Coalesce(_, list) => drop(list),
            Value::Number(_)
            | Value::Text(_)
            | Value::Null(_)
            | Value::Column(_, _)
            | Value::Negative(_)
            | Value::NullIf(_, _)
            | Value::Scalar(_)
            | Value::CountAll
            | Value::Aggregate(_, _, _) => {}
        }
    }
}

impl Drop for Test {
    #[cycle(drop_resolved)]
    fn drop(self) {
        match self {
            Test::All(list) => drop(list),
            Test::Any(list) => drop(list),
            Test::Among(_, list) => drop(list),
            Test::Not(_)
            | Test::Compare(_, _, _)
            | Test::Quantified(_, _, _, _)
            | Test::Between(_, _, _)
            | Test::AmongRows(_, _)
            | Test::Like(_, _)
            | Test::IsNull(_)
            | Test::Exists(_) => {}
        }
    }
}

impl Drop for From {
    #[cycle(drop_resolved)]
    fn drop(self) {
        match self {
            From::Named(_)
            | From::Derived(_)
            | From::Crossed(_, _)
            | From::Joined(_, _, _)
            | From::LeftJoined(_, _, _, _) => {}
        }
    }
}

impl Drop for Query {
    #[cycle(drop_resolved)]
    fn drop(self) {
        match self {
            Query::Block(_, values, tables, _) => {
                drop(values);
                drop(tables);
            }
            Query::Grouped(_, values, tables, _, _, _, _) => {
                drop(values);
                drop(tables);
            }
            Query::Combine(_, _, _, _, _) | Query::Intersect(_, _, _, _) => {}
        }
    }
}

impl Value {
    ghost use Rattle.sql_meaning.specs.ResolvedShown as shown;
    ghost use Rattle.sql_meaning.specs.ResolvedTrees as tree;

    /// The first operand of a chain of `+`, `-` or `||`, and the operators with their right operands.
    #[tactic(auto, using(crate::specs::ResolvedShown::lists))]
    pub fn into_sum(self) -> (Box<Value>, Items<Addend>)
        requires chain { chains.sums (shown.value self) ≡ true }
        ensures { shown.value self ≡ tree.sum (shown.value result.0.value) (shown.addend_list result.1) }
    {
        let Value::Sum(first, addends) = self else {
            unreachable!()
        };
        (first, addends)
    }

    /// The first operand of a chain of `*` or `/`, and the operators with their right operands.
    #[tactic(auto, using(crate::specs::ResolvedShown::lists))]
    pub fn into_product(self) -> (Box<Value>, Items<Multiplier>)
        requires chain { chains.multiplies (shown.value self) ≡ true }
        ensures { shown.value self ≡ tree.product (shown.value result.0.value) (shown.multiplier_list result.1) }
    {
        let Value::Product(first, multipliers) = self else {
            unreachable!()
        };
        (first, multipliers)
    }
}
