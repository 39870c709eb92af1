// Types and faults of expressions, put together from those of their parts.
ghost use Rattle.std.specs.Prelude.{◌≡◌, ◌++◌, ◌∷◌, [], Some, IfOk, IsOk, IsOkAnd, OnOk};
ghost use Rattle.sql_value.specs.declared.order_key.SqlType.TheVariants.{Integer, Varchar};
ghost use Rattle.sql_faults.specs.Columns as types;
ghost use Rattle.sql_faults.specs.Faults as spec;
ghost use Rattle.sql_faults.specs.Numbers.{number};
ghost use Rattle.sql_faults.specs.Rules as rule;
ghost use Rattle.sql_faults.specs.Scopes.{first_type};
ghost use Rattle.sql_faults.specs.Sorts.{fault_of, sorts_of};

use crate::column::{Columns, first_type, not_one, too_wide};
use crate::fault::{Fault, aggregate_misplaced, lesser, sub_misplaced};
use crate::site::Site;
use crate::types::{
    first_known, list_differs, pair_differs, parts_differ, results_differ, type_of_aggregate,
    wants, wants_argument,
};
use shared_types::OutOfMemory;
use sql_ast::SetFunction;
use sql_value::SqlType;
use sqlite_items::Items;
use std::alloc::Global;

/// An expression: its type, where that is known, and its fault.
#[derive(Clone, Copy)]
pub(crate) struct Typed {
    pub sort: Option<SqlType>,
    pub fault: Option<Fault>,
}

/// The types of several expressions, and the least of their faults.
#[derive(Drop)]
pub(crate) struct Listed {
    pub sorts: Items<Option<SqlType>>,
    pub fault: Option<Fault>,
}

/// A query: its columns and its fault.
#[derive(Drop)]
pub(crate) struct Output {
    pub columns: Columns,
    pub fault: Option<Fault>,
}

// An expression of this type and fault.
pub(crate) fn of_type(sort: SqlType, fault: Option<Fault>) -> Typed
    ensures sort { result.sort ≡ Some sort }
    ensures fault { number result.fault ≡ number fault }
{
    Typed {
        sort: Some(sort),
        fault,
    }
}

// The fault of two operands that want a type.
fn operands_fault(a: Typed, sort: SqlType, b: Typed) -> Option<Fault>
    ensures { number result ≡ rule.lesser (rule.lesser (number a.fault) (number b.fault)) (rule.lesser (rule.wants sort a.sort) (rule.wants sort b.sort)) }
{
    let wanted = lesser(wants(sort, a.sort), wants(sort, b.sort));
    lesser(lesser(a.fault, b.fault), wanted)
}

// `a op b` of an operator whose operands and result have one type.
pub(crate) fn operated(
    a: Result<Typed, OutOfMemory>,
    sort: SqlType,
    b: Result<Typed, OutOfMemory>,
) -> Result<Typed, OutOfMemory>
    ensures sort { IfOk result (λ t. t.sort ≡ Some sort) }
    ensures fault { IfOk result (λ t. IsOkAnd a (λ x. IsOkAnd b (λ y. number t.fault ≡ rule.lesser (rule.lesser (number x.fault) (number y.fault)) (rule.lesser (rule.wants sort x.sort) (rule.wants sort y.sort))))) }
{
    let fault = operands_fault(a?, sort, b?);
    Ok(of_type(sort, fault))
}

// `+a` or `-a`.
pub(crate) fn signed(a: Result<Typed, OutOfMemory>) -> Result<Typed, OutOfMemory>
    ensures sort { IfOk result (λ t. t.sort ≡ Some Integer) }
    ensures fault { IfOk result (λ t. IsOkAnd a (λ x. number t.fault ≡ rule.lesser (number x.fault) (rule.wants Integer x.sort))) }
{
    let a = a?;
    let fault = lesser(a.fault, wants(SqlType::Integer, a.sort));
    Ok(of_type(SqlType::Integer, fault))
}

// The fault of a subquery in place of a value.
fn scalar_fault(place: Site, columns: &Columns) -> Option<Fault>
    ensures { number result ≡ spec.scalar_fault place columns.now }
{
    lesser(not_one(columns.as_slice()), sub_misplaced(place))
}

// A subquery in place of a value.
pub(crate) fn scalar(place: Site, found: Result<Output, OutOfMemory>) -> Result<Typed, OutOfMemory>
    ensures sort { IfOk result (λ t. IsOkAnd found (λ q. t.sort ≡ first_type q.columns)) }
    ensures fault { IfOk result (λ t. IsOkAnd found (λ q. number t.fault ≡ rule.lesser (number q.fault) (spec.scalar_fault place q.columns))) }
{
    let found = found?;
    Ok(Typed {
        sort: first_type(found.columns.as_slice()),
        fault: lesser(found.fault, scalar_fault(place, &found.columns)),
    })
}

// An aggregate of this argument.
pub(crate) fn aggregate(
    function: SetFunction,
    argument: Result<Typed, OutOfMemory>,
    place: Site,
) -> Result<Typed, OutOfMemory>
    ensures sort { IfOk result (λ t. IsOkAnd argument (λ x. t.sort ≡ types.type_of_aggregate function x.sort)) }
    ensures fault { IfOk result (λ t. IsOkAnd argument (λ x. number t.fault ≡ rule.lesser (number x.fault) (rule.lesser (rule.wants_argument function x.sort) (rule.aggregate_misplaced place)))) }
{
    let argument = argument?;
    let unfit = wants_argument(function, argument.sort);
    Ok(Typed {
        sort: type_of_aggregate(function, argument.sort),
        fault: lesser(argument.fault, lesser(unfit, aggregate_misplaced(place))),
    })
}

// The fault of two expressions of one type.
fn pair_fault(a: Typed, b: Typed) -> Option<Fault>
    ensures { number result ≡ rule.lesser (rule.lesser (number a.fault) (number b.fault)) (rule.pair_differs a.sort b.sort) }
{
    lesser(lesser(a.fault, b.fault), pair_differs(a.sort, b.sort))
}

// The fault of two expressions that are compared.
pub(crate) fn compared(
    a: Result<Typed, OutOfMemory>,
    b: Result<Typed, OutOfMemory>,
) -> Result<Option<Fault>, OutOfMemory>
    ensures { IfOk result (λ f. IsOkAnd a (λ x. IsOkAnd b (λ y. number f ≡ rule.lesser (rule.lesser (number x.fault) (number y.fault)) (rule.pair_differs x.sort y.sort)))) }
{
    Ok(pair_fault(a?, b?))
}

// `NULLIF(a, b)`.
pub(crate) fn null_if(
    a: Result<Typed, OutOfMemory>,
    b: Result<Typed, OutOfMemory>,
) -> Result<Typed, OutOfMemory>
    ensures sort { IfOk result (λ t. IsOkAnd a (λ x. IsOkAnd b (λ y. t.sort ≡ types.first_known (x.sort ∷ y.sort ∷ [])))) }
    ensures fault { IfOk result (λ t. IsOkAnd a (λ x. IsOkAnd b (λ y. number t.fault ≡ rule.lesser (rule.lesser (number x.fault) (number y.fault)) (rule.pair_differs x.sort y.sort)))) }
{
    let a = a?;
    let b = b?;
    Ok(Typed {
        sort: a.sort.or(b.sort),
        fault: pair_fault(a, b),
    })
}

// The fault of `a LIKE b`.
pub(crate) fn like(
    a: Result<Typed, OutOfMemory>,
    b: Result<Typed, OutOfMemory>,
) -> Result<Option<Fault>, OutOfMemory>
    ensures { IfOk result (λ f. IsOkAnd a (λ x. IsOkAnd b (λ y. number f ≡ rule.lesser (rule.lesser (number x.fault) (number y.fault)) (rule.lesser (rule.wants Varchar x.sort) (rule.wants Varchar y.sort))))) }
{
    Ok(operands_fault(a?, SqlType::Varchar, b?))
}

// The fault of `a BETWEEN b AND c`.
pub(crate) fn between(
    a: Result<Typed, OutOfMemory>,
    b: Result<Typed, OutOfMemory>,
    c: Result<Typed, OutOfMemory>,
) -> Result<Option<Fault>, OutOfMemory>
    ensures { IfOk result (λ f. IsOkAnd a (λ x. IsOkAnd b (λ y. IsOkAnd c (λ z. number f ≡ rule.lesser (rule.lesser (number x.fault) (rule.lesser (number y.fault) (number z.fault))) (rule.lesser (rule.pair_differs x.sort y.sort) (rule.pair_differs x.sort z.sort)))))) }
{
    let a = a?;
    let b = b?;
    let c = c?;
    let differs = lesser(pair_differs(a.sort, b.sort), pair_differs(a.sort, c.sort));
    Ok(lesser(lesser(a.fault, lesser(b.fault, c.fault)), differs))
}

// The fault of an expression alone.
pub(crate) fn own_fault(a: Result<Typed, OutOfMemory>) -> Result<Option<Fault>, OutOfMemory>
    ensures { IfOk result (λ f. IsOkAnd a (λ x. number f ≡ number x.fault)) }
{
    Ok(a?.fault)
}

// The first of two faults, where there are two.
pub(crate) fn least(
    a: Result<Option<Fault>, OutOfMemory>,
    b: Result<Option<Fault>, OutOfMemory>,
) -> Result<Option<Fault>, OutOfMemory>
    ensures { IfOk result (λ f. IsOkAnd a (λ x. IsOkAnd b (λ y. number f ≡ rule.lesser (number x) (number y)))) }
{
    Ok(lesser(a?, b?))
}

// The fault of an operand that is compared with a subquery.
pub(crate) fn compared_query(
    place: Site,
    a: Result<Typed, OutOfMemory>,
    found: Result<Output, OutOfMemory>,
) -> Result<Option<Fault>, OutOfMemory>
    ensures { IfOk result (λ f. IsOkAnd a (λ x. IsOkAnd found (λ q. number f ≡ rule.lesser (rule.lesser (number x.fault) (number q.fault)) (spec.compared_fault place x.sort q.columns)))) }
{
    let a = a?;
    let found = found?;
    let differs = pair_differs(a.sort, first_type(found.columns.as_slice()));
    let own = lesser(differs, scalar_fault(place, &found.columns));
    Ok(lesser(lesser(a.fault, found.fault), own))
}

// The fault of EXISTS.
pub(crate) fn exists(
    place: Site,
    found: Result<Output, OutOfMemory>,
) -> Result<Option<Fault>, OutOfMemory>
    ensures { IfOk result (λ f. IsOkAnd found (λ q. number f ≡ rule.lesser (number q.fault) (rule.sub_misplaced place))) }
{
    Ok(lesser(found?.fault, sub_misplaced(place)))
}

// Adds an expression at the end.
pub(crate) fn push(listed: &mut Listed, x: Result<Typed, OutOfMemory>) -> Result<(), OutOfMemory>
    ensures sorts { OnOk result (IsOkAnd x (λ t. listed.new.sorts ≡ listed.old.sorts ++ t.sort ∷ [])) }
    ensures fault { OnOk result (IsOkAnd x (λ t. number listed.new.fault ≡ rule.lesser (number listed.old.fault) (number t.fault))) }
{
    let x = x?;
    listed.fault = lesser(listed.fault, x.fault);
    listed.sorts.push(x.sort)?;
    Ok(())
}

// A result of a CASE that isn't NULL.
pub(crate) fn given(x: Result<Typed, OutOfMemory>) -> Result<Option<Typed>, OutOfMemory>
    ensures sorts { IfOk result (λ r. IsOkAnd x (λ t. sorts_of r ≡ t.sort ∷ [])) }
    ensures fault { IfOk result (λ r. IsOkAnd x (λ t. fault_of r ≡ number t.fault)) }
{
    Ok(Some(x?))
}

// Adds a result of a CASE, which may be NULL, after a part with this fault.
pub(crate) fn push_result(
    listed: &mut Listed,
    before: Result<Option<Fault>, OutOfMemory>,
    then: Result<Option<Typed>, OutOfMemory>,
) -> Result<(), OutOfMemory>
    ensures sorts { OnOk result (IsOkAnd then (λ r. listed.new.sorts ≡ listed.old.sorts ++ sorts_of r)) }
    ensures fault { OnOk result (IsOkAnd before (λ b. IsOkAnd then (λ r. number listed.new.fault ≡ rule.lesser (number listed.old.fault) (rule.lesser (number b) (fault_of r))))) }
{
    let before = before?;
    match then? {
        Some(x) => {
            listed.fault = lesser(listed.fault, lesser(before, x.fault));
            listed.sorts.push(x.sort)?;
        }
        None => listed.fault = lesser(listed.fault, lesser(before, None)),
    }
    Ok(())
}

// A CASE of these results, with the fault of all but the results.
fn case_typed(listed: &Listed) -> Typed
    ensures sort { result.sort ≡ types.first_known listed.now.sorts }
    ensures fault { number result.fault ≡ rule.lesser (number listed.now.fault) (rule.results_differ listed.now.sorts) }
{
    let sorts = listed.sorts.as_slice();
    Typed {
        sort: first_known(sorts),
        fault: lesser(listed.fault, results_differ(sorts)),
    }
}

// A CASE of these results, where all were read, whose last result is this.
pub(crate) fn case_ending(
    read: Result<(), OutOfMemory>,
    mut listed: Listed,
    last: Result<Option<Typed>, OutOfMemory>,
) -> Result<Typed, OutOfMemory>
    ensures read { OnOk result (IsOk read) }
    ensures sort { IfOk result (λ t. IsOkAnd last (λ r. t.sort ≡ types.first_known (listed.sorts ++ sorts_of r))) }
    ensures fault { IfOk result (λ t. IsOkAnd last (λ r. number t.fault ≡ rule.lesser (rule.lesser (number listed.fault) (fault_of r)) (rule.results_differ (listed.sorts ++ sorts_of r)))) }
{
    read?;
    push_result(&mut listed, Ok(None), last)?;
    Ok(case_typed(&listed))
}

// A COALESCE of these parts, where all were read.
pub(crate) fn coalesce(read: Result<(), OutOfMemory>, listed: &Listed) -> Result<Typed, OutOfMemory>
    ensures read { OnOk result (IsOk read) }
    ensures sort { IfOk result (λ t. t.sort ≡ types.first_known listed.now.sorts) }
    ensures fault { IfOk result (λ t. number t.fault ≡ rule.lesser (number listed.now.fault) (rule.parts_differ listed.now.sorts)) }
{
    read?;
    let sorts = listed.sorts.as_slice();
    Ok(Typed {
        sort: first_known(sorts),
        fault: lesser(listed.fault, parts_differ(sorts)),
    })
}

// The fault of an operand of this type beside a list with its fault, where all of it was read.
pub(crate) fn among(
    read: Result<(), OutOfMemory>,
    sort: Option<SqlType>,
    listed: &Listed,
) -> Result<Option<Fault>, OutOfMemory>
    ensures read { OnOk result (IsOk read) }
    ensures fault { IfOk result (λ f. number f ≡ rule.lesser (number listed.now.fault) (rule.list_differs sort listed.now.sorts)) }
{
    read?;
    let differs = list_differs(sort, listed.sorts.as_slice());
    Ok(lesser(listed.fault, differs))
}

// The fault of a value of a CASE, whose operand has this type.
pub(crate) fn chosen(
    operand: Option<SqlType>,
    when: Result<Typed, OutOfMemory>,
) -> Result<Option<Fault>, OutOfMemory>
    ensures { IfOk result (λ f. IsOkAnd when (λ x. number f ≡ rule.lesser (number x.fault) (rule.pair_differs operand x.sort))) }
{
    let when = when?;
    Ok(lesser(when.fault, pair_differs(operand, when.sort)))
}

// No expression yet, after a part with this fault.
pub(crate) fn none_after(alloc: Global, fault: Option<Fault>) -> Listed
    ensures sorts { result.sorts ≡ [] }
    ensures fault { number result.fault ≡ number fault }
{
    Listed {
        sorts: Items::new(alloc),
        fault,
    }
}

// One expression.
pub(crate) fn alone(alloc: Global, x: Result<Typed, OutOfMemory>) -> Result<Listed, OutOfMemory>
    ensures sorts { IfOk result (λ l. IsOkAnd x (λ t. l.sorts ≡ t.sort ∷ [])) }
    ensures fault { IfOk result (λ l. IsOkAnd x (λ t. number l.fault ≡ number t.fault)) }
{
    let x = x?;
    let mut sorts = Items::new(alloc);
    sorts.push(x.sort)?;
    Ok(Listed {
        sorts,
        fault: x.fault,
    })
}

// No column yet.
pub(crate) fn no_output(alloc: Global) -> Output
    ensures columns { result.columns ≡ [] }
    ensures fault { number result.fault ≡ 0 }
{
    Output {
        columns: Items::new(alloc),
        fault: None,
    }
}

// The columns of a list, where all were read, with the fault of the HAVING beside it and of their
// number.
pub(crate) fn limited(
    read: Result<(), OutOfMemory>,
    out: Output,
    having: Result<Option<Fault>, OutOfMemory>,
) -> Result<Output, OutOfMemory>
    ensures read { OnOk result (IsOk read) }
    ensures columns { IfOk result (λ x. x.columns ≡ out.columns) }
    ensures fault { IfOk result (λ x. IsOkAnd having (λ h. number x.fault ≡ rule.lesser (rule.lesser (number out.fault) (number h)) (rule.too_wide out.columns))) }
{
    read?;
    let wide = too_wide(out.columns.as_slice());
    Ok(Output {
        fault: lesser(lesser(out.fault, having?), wide),
        columns: out.columns,
    })
}
