// The operands of set operations, and column lists.
ghost use Rattle.std.specs.Prelude.{◌≡◌, IfOk, IsOkAnd};
ghost use Rattle.sql_ast.specs.Names as names;
ghost use Rattle.sql_faults.specs.Faults as spec;
ghost use Rattle.sql_faults.specs.Numbers.{number};
ghost use Rattle.sql_faults.specs.Rules as rule;

use crate::column::TypedColumn;
use crate::fault::{Fault, fault_if, lesser};
use crate::typed::Output;
use crate::types::differ;
use shared_types::OutOfMemory;
use sql_text::Name;

// Whether columns at the same place differ in type.
fn places_differ(a: &[TypedColumn], b: &[TypedColumn]) -> bool
    ensures { result ≡ rule.places_differ a.now b.now }
{
    let mut rest = b;
    for x in a {
        match rest {
            [] => return false,
            [y, others @ ..] => {
                if differ(x.sort, y.sort) {
                    return true;
                }
                rest = others;
            }
        }
    }
    false
}

// The fault of the columns of two operands.
fn operands_fault(a: &[TypedColumn], b: &[TypedColumn]) -> Option<Fault>
    ensures { number result ≡ spec.operands_fault a.now b.now }
{
    let differs = fault_if(places_differ(a, b), Fault::TypeMismatch);
    let unequal = fault_if(a.len() != b.len(), Fault::Degree);
    lesser(differs, unequal)
}

/// A set operation of two operands: the columns are those of the left one.
pub(crate) fn combined(
    a: Result<Output, OutOfMemory>,
    b: Result<Output, OutOfMemory>,
) -> Result<Output, OutOfMemory>
    ensures columns { IfOk result (λ q. IsOkAnd a (λ x. q.columns ≡ x.columns)) }
    ensures fault { IfOk result (λ q. IsOkAnd a (λ x. IsOkAnd b (λ y. number q.fault ≡ rule.lesser (rule.lesser (number x.fault) (number y.fault)) (spec.operands_fault x.columns y.columns)))) }
{
    let a = a?;
    let b = b?;
    let own = operands_fault(a.columns.as_slice(), b.columns.as_slice());
    Ok(Output {
        fault: lesser(lesser(a.fault, b.fault), own),
        columns: a.columns,
    })
}

// Whether one of these names is this name.
pub(crate) fn contains(list: &[Name], name: &Name) -> bool
    ensures { result ≡ names.contains list.now name.now }
{
    list.iter().any(|other| *other == *name)
}

// Whether two of the names are equal.
fn has_twins(list: &[Name]) -> bool
    ensures { result ≡ names.has_twins list.now }
{
    let mut rest = list;
    while let [first, others @ ..] = rest {
        if contains(others, first) {
            return true;
        }
        rest = others;
    }
    false
}

// The fault of the length of a column list; none is written where it is empty.
fn list_unequal(list: &[Name], columns: &[TypedColumn]) -> Option<Fault>
    ensures { number result ≡ rule.list_unequal list.now columns.now }
{
    match list {
        [] => None,
        [_, ..] => fault_if(list.len() != columns.len(), Fault::Degree),
    }
}

/// The fault of a column list over columns; none is written where it is empty.
pub(crate) fn list_fault(list: &[Name], columns: &[TypedColumn]) -> Option<Fault>
    ensures { number result ≡ spec.list_fault list.now columns.now }
{
    let equal = fault_if(has_twins(list), Fault::DuplicateRange);
    lesser(equal, list_unequal(list, columns))
}
