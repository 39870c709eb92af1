// Types, and those that don't fit.
ghost use Rattle.std.specs.Prelude.{◌≡◌};
ghost use Rattle.std.specs.List.{list_any};
ghost use Rattle.sql_faults.specs.Columns as columns;
ghost use Rattle.sql_faults.specs.Numbers.{number};
ghost use Rattle.sql_faults.specs.Rules as spec;

use crate::fault::{Fault, fault_if};
use sql_ast::{AdditiveOp, DataType, SetFunction};
use sql_value::SqlType;

// The fault of types that don't fit, where a test says so.
fn mismatch_if(test: bool) -> Option<Fault>
    ensures { number result ≡ spec.fault_if test 10 }
{
    fault_if(test, Fault::TypeMismatch)
}

// Whether a type is known, and another one.
fn is_other(sort: SqlType, found: Option<SqlType>) -> bool
    ensures { result ≡ spec.is_other sort found }
{
    match (sort, found) {
        (SqlType::Integer, Some(SqlType::Varchar)) | (SqlType::Varchar, Some(SqlType::Integer)) => {
            true
        }
        (SqlType::Integer, Some(SqlType::Integer) | None)
        | (SqlType::Varchar, Some(SqlType::Varchar) | None) => false,
    }
}

// Whether two types are known, and differ.
pub(crate) fn differ(a: Option<SqlType>, b: Option<SqlType>) -> bool
    ensures { result ≡ spec.differ a b }
{
    match a {
        Some(sort) => is_other(sort, b),
        None => false,
    }
}

// Whether one of the types is known, and another one.
fn any_other(sort: SqlType, sorts: &[Option<SqlType>]) -> bool
    ensures { result ≡ list_any (spec.is_other sort) sorts.now }
{
    sorts.iter().any(|found| is_other(sort, *found))
}

// Whether two of the types are known, and differ.
fn some_differ(sorts: &[Option<SqlType>]) -> bool
    ensures { result ≡ spec.some_differ sorts.now }
{
    any_other(SqlType::Integer, sorts) && any_other(SqlType::Varchar, sorts)
}

// Whether one of the types differs from this.
fn any_differs(sort: Option<SqlType>, sorts: &[Option<SqlType>]) -> bool
    ensures { result ≡ list_any (spec.differ sort) sorts.now }
{
    sorts.iter().any(|other| differ(sort, *other))
}

// The first type that is known.
pub(crate) fn first_known(sorts: &[Option<SqlType>]) -> Option<SqlType>
    ensures { result ≡ columns.first_known sorts.now }
{
    for sort in sorts {
        if sort.is_some() {
            return *sort;
        }
    }
    None
}

// The fault where an operand isn't of the type.
pub(crate) fn wants(sort: SqlType, found: Option<SqlType>) -> Option<Fault>
    ensures { number result ≡ spec.wants sort found }
{
    mismatch_if(is_other(sort, found))
}

// The fault where the argument of an aggregate isn't of its type.
pub(crate) fn wants_argument(function: SetFunction, found: Option<SqlType>) -> Option<Fault>
    ensures { number result ≡ spec.wants_argument function found }
{
    match function {
        SetFunction::Sum | SetFunction::Avg => wants(SqlType::Integer, found),
        SetFunction::Count | SetFunction::Min | SetFunction::Max => None,
    }
}

// The fault where two compared expressions differ.
pub(crate) fn pair_differs(a: Option<SqlType>, b: Option<SqlType>) -> Option<Fault>
    ensures { number result ≡ spec.pair_differs a b }
{
    mismatch_if(differ(a, b))
}

// The fault where the parts of a COALESCE differ.
pub(crate) fn parts_differ(sorts: &[Option<SqlType>]) -> Option<Fault>
    ensures { number result ≡ spec.parts_differ sorts.now }
{
    mismatch_if(some_differ(sorts))
}

// The fault where the operand of an IN list differs from one of the list.
pub(crate) fn list_differs(sort: Option<SqlType>, sorts: &[Option<SqlType>]) -> Option<Fault>
    ensures { number result ≡ spec.list_differs sort sorts.now }
{
    mismatch_if(any_differs(sort, sorts))
}

// The fault where the results of a CASE differ in type, or all are NULL.
pub(crate) fn results_differ(sorts: &[Option<SqlType>]) -> Option<Fault>
    ensures { number result ≡ spec.results_differ sorts.now }
{
    mismatch_if(sorts.is_empty() || some_differ(sorts))
}

// The fault where the length of a declared type is outside 1 to 4,096.
pub(crate) fn length_unfit(data_type: &DataType) -> Option<Fault>
    ensures { number result ≡ spec.length_unfit data_type.now }
{
    match data_type {
        DataType::Integer | DataType::Int => None,
        DataType::Varchar(length) => mismatch_if(!(1..=4096).contains(length)),
    }
}

// The type of the operands of `+` and `-`, and of `||`, which is that of the result too.
pub(crate) fn operand_type(op: AdditiveOp) -> SqlType
    ensures { result ≡ columns.operand_type op }
{
    match op {
        AdditiveOp::Plus | AdditiveOp::Minus => SqlType::Integer,
        AdditiveOp::Concat => SqlType::Varchar,
    }
}

// The type of an aggregate; MIN and MAX have that of their argument.
pub(crate) fn type_of_aggregate(function: SetFunction, argument: Option<SqlType>) -> Option<SqlType>
    ensures { result ≡ columns.type_of_aggregate function argument }
{
    match function {
        SetFunction::Count | SetFunction::Sum | SetFunction::Avg => Some(SqlType::Integer),
        SetFunction::Min | SetFunction::Max => argument,
    }
}

// The type that a declaration gives.
pub(crate) fn type_of_declared(data_type: &DataType) -> SqlType
    ensures { result ≡ columns.type_of_declared data_type.now }
{
    match data_type {
        DataType::Integer | DataType::Int => SqlType::Integer,
        DataType::Varchar(_) => SqlType::Varchar,
    }
}
