// The checks of a query: one pass for types, columns and the least fault.
ghost use Rattle.std.specs.Prelude.{◌≡◌, ◌++◌, ◌∷◌, false, true, IfOk, IsOkAnd, OnOk};
ghost use Rattle.sql_ast.specs.Shown as written;
ghost use Rattle.sql_faults.specs.Columns as types;
ghost use Rattle.sql_faults.specs.Faults as spec;
ghost use Rattle.sql_faults.specs.Forms.{block_of, is_conjunction, is_disjunction, is_product, is_searched, is_simple, is_sum};
ghost use Rattle.sql_faults.specs.Numbers.{number};
ghost use Rattle.sql_faults.specs.Rules as rule;
ghost use Rattle.sql_faults.specs.Shown.{heads, scopes};
ghost use Rattle.sql_faults.specs.Sorts.{fault_of, sorts_of};

use crate::fault::{Fault, aggregate_misplaced};
use crate::known::Known;
use crate::lists::{list_scope, push_range_star, push_star, push_value};
use crate::operands::combined;
use crate::scope::{Scopes, column, grouping_fault};
use crate::site::Site;
use crate::sources::{Source, block_output, both, derived, named, no_source, with_fault};
use crate::typed::{
    Listed, Output, Typed, aggregate, alone, among, between, case_ending, chosen, coalesce,
    compared, compared_query, exists, given, least, like, limited, no_output, none_after, null_if,
    of_type, operated, own_fault, push, push_result, scalar, signed,
};
use crate::types::{length_unfit, operand_type, type_of_declared};
use shared_types::OutOfMemory;
use sql_ast::{
    Arm, Block, Choice, Cond, Expr, Filter, Item, Otherwise, Query, Res, SelectList, TableRef,
};
use sql_value::SqlType;
use std::alloc::Global;

// An expression. Chains of operators stand apart from all else, so that each of thousands of
// operators takes little of the stack.
#[cycle(checks)]
fn expr(
    alloc: Global,
    x: &Expr,
    place: Site,
    inner: &Scopes<'_>,
    known: &Known<'_>,
) -> Result<Typed, OutOfMemory>
    ensures sort { IfOk result (λ t. t.sort ≡ types.type_of (heads known.now) (written.expr x.now) (scopes inner.now)) }
    ensures fault { IfOk result (λ t. number t.fault ≡ spec.expr_fault (heads known.now) place (written.expr x.now) (scopes inner.now)) }
{
    match x {
        Expr::Add(a, op, b) => {
            let a = expr(alloc, a, place, inner, known);
            let b = expr(alloc, b, place, inner, known);
            operated(a, operand_type(*op), b)
        }
        Expr::Multiply(a, _, b) => {
            let a = expr(alloc, a, place, inner, known);
            let b = expr(alloc, b, place, inner, known);
            operated(a, SqlType::Integer, b)
        }
        Expr::Signed(_, _)
        | Expr::Number(_)
        | Expr::Str(_)
        | Expr::Column(_)
        | Expr::Paren(_)
        | Expr::Scalar(_)
        | Expr::CountAll
        | Expr::Aggregate(_, _, _)
        | Expr::Searched(_, _)
        | Expr::Simple(_, _, _)
        | Expr::Coalesce(_, _)
        | Expr::NullIf(_, _)
        | Expr::CastNull(_) => operand(alloc, x, place, inner, known),
    }
}

// An expression that is no chain of operators.
#[cycle(checks)]
#[tactic(auto, using(sql_ast::specs::Shown::lists))]
fn operand(
    alloc: Global,
    x: &Expr,
    place: Site,
    inner: &Scopes<'_>,
    known: &Known<'_>,
) -> Result<Typed, OutOfMemory>
    requires no_sum { is_sum (written.expr x.now) ≡ false }
    requires no_product { is_product (written.expr x.now) ≡ false }
    ensures sort { IfOk result (λ t. t.sort ≡ types.type_of (heads known.now) (written.expr x.now) (scopes inner.now)) }
    ensures fault { IfOk result (λ t. number t.fault ≡ spec.expr_fault (heads known.now) place (written.expr x.now) (scopes inner.now)) }
{
    match x {
        Expr::Add(_, _, _) | Expr::Multiply(_, _, _) => unreachable!(),
        Expr::Signed(_, a) => signed(expr(alloc, a, place, inner, known)),
        Expr::Number(_) => Ok(of_type(SqlType::Integer, None)),
        Expr::Str(_) => Ok(of_type(SqlType::Varchar, None)),
        Expr::Column(name) => Ok(column(place, name, inner)),
        Expr::Paren(a) => expr(alloc, a, place, inner, known),
        Expr::Scalar(q) => scalar(place, query(alloc, q, inner, known)),
        Expr::CountAll => Ok(of_type(SqlType::Integer, aggregate_misplaced(place))),
        Expr::Aggregate(function, _, a) => {
            let argument = expr(alloc, a, Site::Argument, &Scopes::Released(&*inner), known);
            aggregate(*function, argument, place)
        }
        Expr::Searched(_, _) => searched(alloc, x, place, inner, known),
        Expr::Simple(_, _, _) => simple(alloc, x, place, inner, known),
        Expr::Coalesce(a, list) => {
            let a = expr(alloc, a, place, inner, known);
            coalesced(alloc, a, list.as_slice(), place, inner, known)
        }
        Expr::NullIf(a, b) => {
            let a = expr(alloc, a, place, inner, known);
            let b = expr(alloc, b, place, inner, known);
            null_if(a, b)
        }
        Expr::CastNull(to) => Ok(of_type(type_of_declared(to), length_unfit(to))),
    }
}

// The expressions of a list, added at the end.
#[cycle(checks)]
#[tactic(auto, using(crate::proofs::Orders::fault_steps))]
fn exprs(
    alloc: Global,
    list: &[Expr],
    place: Site,
    inner: &Scopes<'_>,
    known: &Known<'_>,
    listed: &mut Listed,
) -> Result<(), OutOfMemory>
    ensures sorts { OnOk result (listed.new.sorts ≡ listed.old.sorts ++ types.types_of (heads known.now) (written.expr_list list.now) (scopes inner.now)) }
    ensures fault { OnOk result (number listed.new.fault ≡ rule.lesser (number listed.old.fault) (spec.exprs_fault (heads known.now) place (written.expr_list list.now) (scopes inner.now))) }
{
    for x in list {
        push(listed, expr(alloc, x, place, inner, known))?;
    }
    Ok(())
}

// A result of a CASE; none where it is NULL.
#[cycle(checks)]
fn outcome(
    alloc: Global,
    res: &Res,
    place: Site,
    inner: &Scopes<'_>,
    known: &Known<'_>,
) -> Result<Option<Typed>, OutOfMemory>
    ensures sorts { IfOk result (λ r. sorts_of r ≡ types.res_types (heads known.now) (written.res res.now) (scopes inner.now)) }
    ensures fault { IfOk result (λ r. fault_of r ≡ spec.res_fault (heads known.now) place (written.res res.now) (scopes inner.now)) }
{
    match res {
        Res::Value(x) => given(expr(alloc, x, place, inner, known)),
        Res::Null => Ok(None),
    }
}

// What stands after ELSE; none where that is NULL or there is no ELSE.
#[cycle(checks)]
fn otherwise(
    alloc: Global,
    other: &Otherwise,
    place: Site,
    inner: &Scopes<'_>,
    known: &Known<'_>,
) -> Result<Option<Typed>, OutOfMemory>
    ensures sorts { IfOk result (λ r. sorts_of r ≡ types.else_types (heads known.now) (written.otherwise other.now) (scopes inner.now)) }
    ensures fault { IfOk result (λ r. fault_of r ≡ spec.else_fault (heads known.now) place (written.otherwise other.now) (scopes inner.now)) }
{
    match other {
        Otherwise::Absent => Ok(None),
        Otherwise::Else(res) => outcome(alloc, res, place, inner, known),
    }
}

// The conditions of a CASE with their results.
#[cycle(checks)]
#[tactic(auto, using(crate::proofs::Orders::fault_steps))]
fn arms(
    alloc: Global,
    list: &[Arm],
    place: Site,
    inner: &Scopes<'_>,
    known: &Known<'_>,
    listed: &mut Listed,
) -> Result<(), OutOfMemory>
    ensures sorts { OnOk result (listed.new.sorts ≡ listed.old.sorts ++ types.arm_types (heads known.now) (written.arm_list list.now) (scopes inner.now)) }
    ensures fault { OnOk result (number listed.new.fault ≡ rule.lesser (number listed.old.fault) (spec.arms_fault (heads known.now) place (written.arm_list list.now) (scopes inner.now))) }
{
    for arm in list {
        let when = cond(alloc, &arm.when, place, inner, known);
        let then = outcome(alloc, &arm.then, place, inner, known);
        push_result(listed, when, then)?;
    }
    Ok(())
}

// The values of a CASE with their results. The operand that they are compared with has this type.
#[cycle(checks)]
#[tactic(auto, using(crate::proofs::Orders::fault_steps))]
fn choices(
    alloc: Global,
    operand: Option<SqlType>,
    list: &[Choice],
    place: Site,
    inner: &Scopes<'_>,
    known: &Known<'_>,
    listed: &mut Listed,
) -> Result<(), OutOfMemory>
    ensures sorts { OnOk result (listed.new.sorts ≡ listed.old.sorts ++ types.choice_types (heads known.now) (written.choice_list list.now) (scopes inner.now)) }
    ensures fault { OnOk result (number listed.new.fault ≡ rule.lesser (number listed.old.fault) (spec.choices_fault (heads known.now) place operand (written.choice_list list.now) (scopes inner.now))) }
{
    for choice in list {
        let when = expr(alloc, &choice.when, place, inner, known);
        let then = outcome(alloc, &choice.then, place, inner, known);
        push_result(listed, chosen(operand, when), then)?;
    }
    Ok(())
}

// `CASE WHEN p THEN r .. END`
#[cycle(checks)]
#[tactic(auto, using(sql_ast::specs::Shown::lists))]
fn searched(
    alloc: Global,
    x: &Expr,
    place: Site,
    inner: &Scopes<'_>,
    known: &Known<'_>,
) -> Result<Typed, OutOfMemory>
    requires form { is_searched (written.expr x.now) ≡ true }
    ensures sort { IfOk result (λ t. t.sort ≡ types.type_of (heads known.now) (written.expr x.now) (scopes inner.now)) }
    ensures fault { IfOk result (λ t. number t.fault ≡ spec.expr_fault (heads known.now) place (written.expr x.now) (scopes inner.now)) }
{
    let Expr::Searched(list, last) = x else {
        unreachable!()
    };
    let mut listed = none_after(alloc, None);
    let read = arms(alloc, list.as_slice(), place, inner, known, &mut listed);
    let last = otherwise(alloc, last, place, inner, known);
    case_ending(read, listed, last)
}

// `CASE x WHEN y THEN r .. END`
#[cycle(checks)]
#[tactic(auto, using(sql_ast::specs::Shown::lists))]
fn simple(
    alloc: Global,
    x: &Expr,
    place: Site,
    inner: &Scopes<'_>,
    known: &Known<'_>,
) -> Result<Typed, OutOfMemory>
    requires form { is_simple (written.expr x.now) ≡ true }
    ensures sort { IfOk result (λ t. t.sort ≡ types.type_of (heads known.now) (written.expr x.now) (scopes inner.now)) }
    ensures fault { IfOk result (λ t. number t.fault ≡ spec.expr_fault (heads known.now) place (written.expr x.now) (scopes inner.now)) }
{
    let Expr::Simple(a, list, last) = x else {
        unreachable!()
    };
    let a = expr(alloc, a, place, inner, known)?;
    let list = list.as_slice();
    let mut listed = none_after(alloc, a.fault);
    let read = choices(alloc, a.sort, list, place, inner, known, &mut listed);
    let last = otherwise(alloc, last, place, inner, known);
    case_ending(read, listed, last)
}

// `COALESCE(x, ..)`
#[cycle(checks)]
fn coalesced(
    alloc: Global,
    x: Result<Typed, OutOfMemory>,
    list: &[Expr],
    place: Site,
    inner: &Scopes<'_>,
    known: &Known<'_>,
) -> Result<Typed, OutOfMemory>
    ensures sort { IfOk result (λ t. IsOkAnd x (λ first. t.sort ≡ types.first_known (first.sort ∷ types.types_of (heads known.now) (written.expr_list list.now) (scopes inner.now)))) }
    ensures fault { IfOk result (λ t. IsOkAnd x (λ first. number t.fault ≡ spec.coalesce_fault (heads known.now) place (number first.fault) first.sort (written.expr_list list.now) (scopes inner.now))) }
{
    let mut listed = alone(alloc, x)?;
    let read = exprs(alloc, list, place, inner, known, &mut listed);
    coalesce(read, &listed)
}

// `x IN (..)`
#[cycle(checks)]
fn in_list(
    alloc: Global,
    x: Result<Typed, OutOfMemory>,
    list: &[Expr],
    place: Site,
    inner: &Scopes<'_>,
    known: &Known<'_>,
) -> Result<Option<Fault>, OutOfMemory>
    ensures { IfOk result (λ f. IsOkAnd x (λ first. number f ≡ spec.in_list_fault (heads known.now) place (number first.fault) first.sort (written.expr_list list.now) (scopes inner.now))) }
{
    let x = x?;
    let mut listed = none_after(alloc, x.fault);
    let read = exprs(alloc, list, place, inner, known, &mut listed);
    among(read, x.sort, &listed)
}

// A condition. Chains stand apart, as above.
#[cycle(checks)]
fn cond(
    alloc: Global,
    p: &Cond,
    place: Site,
    inner: &Scopes<'_>,
    known: &Known<'_>,
) -> Result<Option<Fault>, OutOfMemory>
    ensures { IfOk result (λ f. number f ≡ spec.cond_fault (heads known.now) place (written.cond p.now) (scopes inner.now)) }
{
    match p {
        Cond::Or(a, b) | Cond::And(a, b) => {
            let a = cond(alloc, a, place, inner, known);
            let b = cond(alloc, b, place, inner, known);
            least(a, b)
        }
        Cond::Not(_)
        | Cond::Bracket(_)
        | Cond::Compare(_, _, _)
        | Cond::Between(_, _, _, _)
        | Cond::InList(_, _, _)
        | Cond::Like(_, _, _)
        | Cond::IsNull(_, _)
        | Cond::Quantified(_, _, _, _)
        | Cond::InQuery(_, _, _)
        | Cond::Exists(_) => predicate(alloc, p, place, inner, known),
    }
}

// A condition that is no chain of OR or AND.
#[cycle(checks)]
#[tactic(auto, using(sql_ast::specs::Shown::lists))]
fn predicate(
    alloc: Global,
    p: &Cond,
    place: Site,
    inner: &Scopes<'_>,
    known: &Known<'_>,
) -> Result<Option<Fault>, OutOfMemory>
    requires no_disjunction { is_disjunction (written.cond p.now) ≡ false }
    requires no_conjunction { is_conjunction (written.cond p.now) ≡ false }
    ensures { IfOk result (λ f. number f ≡ spec.cond_fault (heads known.now) place (written.cond p.now) (scopes inner.now)) }
{
    match p {
        Cond::Or(_, _) | Cond::And(_, _) => unreachable!(),
        Cond::Not(a) | Cond::Bracket(a) => cond(alloc, a, place, inner, known),
        Cond::Compare(a, _, b) => {
            let a = expr(alloc, a, place, inner, known);
            compared(a, expr(alloc, b, place, inner, known))
        }
        Cond::Between(a, _, b, c) => {
            let a = expr(alloc, a, place, inner, known);
            let b = expr(alloc, b, place, inner, known);
            between(a, b, expr(alloc, c, place, inner, known))
        }
        Cond::InList(a, _, list) => {
            let a = expr(alloc, a, place, inner, known);
            in_list(alloc, a, list.as_slice(), place, inner, known)
        }
        Cond::Like(a, _, b) => {
            let a = expr(alloc, a, place, inner, known);
            like(a, expr(alloc, b, place, inner, known))
        }
        Cond::IsNull(a, _) => own_fault(expr(alloc, a, place, inner, known)),
        Cond::Quantified(a, _, _, q) | Cond::InQuery(a, _, q) => {
            let a = expr(alloc, a, place, inner, known);
            compared_query(place, a, query(alloc, q, inner, known))
        }
        Cond::Exists(q) => exists(place, query(alloc, q, inner, known)),
    }
}

// WHERE or HAVING.
#[cycle(checks)]
fn filter(
    alloc: Global,
    by: &Filter,
    place: Site,
    inner: &Scopes<'_>,
    known: &Known<'_>,
) -> Result<Option<Fault>, OutOfMemory>
    ensures { IfOk result (λ f. number f ≡ spec.filter_fault (heads known.now) place (written.filter by.now) (scopes inner.now)) }
{
    match by {
        Filter::Absent => Ok(None),
        Filter::Given(p) => cond(alloc, p, place, inner, known),
    }
}

// Adds the columns of an item of a list at the end.
#[cycle(checks)]
fn item(
    alloc: Global,
    x: &Item,
    inner: &Scopes<'_>,
    known: &Known<'_>,
    out: &mut Output,
) -> Result<(), OutOfMemory>
    ensures columns { OnOk result (out.new.columns ≡ out.old.columns ++ types.item_columns (heads known.now) (written.item x.now) (scopes inner.now)) }
    ensures fault { OnOk result (number out.new.fault ≡ rule.lesser (number out.old.fault) (spec.item_fault (heads known.now) (written.item x.now) (scopes inner.now))) }
{
    match x {
        Item::Value(x, alias) => {
            let found = expr(alloc, x, Site::Listed, inner, known);
            push_value(alloc, out, x, alias, found)
        }
        Item::AllOf(name) => push_range_star(alloc, out, name, inner),
    }
}

// Adds the columns of the items of a list at the end.
#[cycle(checks)]
#[tactic(auto, using(crate::proofs::Orders::fault_steps))]
fn items(
    alloc: Global,
    list: &[Item],
    inner: &Scopes<'_>,
    known: &Known<'_>,
    out: &mut Output,
) -> Result<(), OutOfMemory>
    ensures columns { OnOk result (out.new.columns ≡ out.old.columns ++ types.items_columns (heads known.now) (written.item_list list.now) (scopes inner.now)) }
    ensures fault { OnOk result (number out.new.fault ≡ rule.lesser (number out.old.fault) (spec.items_fault (heads known.now) (written.item_list list.now) (scopes inner.now))) }
{
    for x in list {
        item(alloc, x, inner, known, out)?;
    }
    Ok(())
}

// Adds the columns of a list at the end.
#[cycle(checks)]
#[tactic(auto, using(sql_ast::specs::Shown::lists))]
fn select(
    alloc: Global,
    list: &SelectList,
    inner: &Scopes<'_>,
    known: &Known<'_>,
    out: &mut Output,
) -> Result<(), OutOfMemory>
    ensures columns { OnOk result (out.new.columns ≡ out.old.columns ++ types.list_columns (heads known.now) (written.select_list list.now) (scopes inner.now)) }
    ensures fault { OnOk result (number out.new.fault ≡ rule.lesser (number out.old.fault) (spec.select_fault (heads known.now) (written.select_list list.now) (scopes inner.now))) }
{
    match list {
        SelectList::All => push_star(alloc, out, inner),
        SelectList::Items(list) => items(alloc, list.as_slice(), inner, known, out),
    }
}

// A table of a FROM.
#[cycle(checks)]
fn source(
    alloc: Global,
    x: &TableRef,
    inner: &Scopes<'_>,
    known: &Known<'_>,
) -> Result<Source, OutOfMemory>
    ensures tables { IfOk result (λ s. s.tables ≡ types.table_ranges (heads known.now) (written.table x.now) (scopes inner.now)) }
    ensures fault { IfOk result (λ s. number s.fault ≡ spec.table_fault (heads known.now) (written.table x.now) (scopes inner.now)) }
{
    match x {
        TableRef::Join(a, _, b, p) | TableRef::LeftJoin(a, _, b, p) => {
            let a = source(alloc, a, inner, known);
            let b = source(alloc, b, inner, known);
            joined(alloc, both(alloc, a, b), p, inner, known)
        }
        TableRef::CrossJoin(a, b) => {
            let a = source(alloc, a, inner, known);
            let b = source(alloc, b, inner, known);
            both(alloc, a, b)
        }
        TableRef::Named(name, alias) => named(alloc, name, alias, known),
        TableRef::Derived(q, alias) => { derived(alloc, query(alloc, q, inner, known), alias) }
        TableRef::Joined(a) => source(alloc, a, inner, known),
    }
}

// The operands of a join with its ON, which sees them first.
#[cycle(checks)]
fn joined(
    alloc: Global,
    operands: Result<Source, OutOfMemory>,
    p: &Cond,
    inner: &Scopes<'_>,
    known: &Known<'_>,
) -> Result<Source, OutOfMemory>
    ensures tables { IfOk result (λ s. IsOkAnd operands (λ o. s.tables ≡ o.tables)) }
    ensures fault { IfOk result (λ s. IsOkAnd operands (λ o. number s.fault ≡ rule.lesser (number o.fault) (spec.on_fault (heads known.now) (written.cond p.now) o.tables (scopes inner.now)))) }
{
    let operands = operands?;
    let own = Scopes::Plain(&operands.tables, &*inner);
    let on = cond(alloc, p, Site::Filtered, &own, known);
    with_fault(operands, on)
}

// The tables of a FROM.
#[cycle(checks)]
#[tactic(auto, using(crate::proofs::Orders::fault_steps))]
fn sources(
    alloc: Global,
    list: &[TableRef],
    inner: &Scopes<'_>,
    known: &Known<'_>,
) -> Result<Source, OutOfMemory>
    ensures tables { IfOk result (λ s. s.tables ≡ types.ranges (heads known.now) (written.table_list list.now) (scopes inner.now)) }
    ensures fault { IfOk result (λ s. number s.fault ≡ spec.from_fault (heads known.now) (written.table_list list.now) (scopes inner.now)) }
{
    let mut all = no_source(alloc);
    for x in list {
        all = both(alloc, Ok(all), source(alloc, x, inner, known))?;
    }
    Ok(all)
}

// WHERE and GROUP BY of a block over these ranges.
#[cycle(checks)]
fn before_groups(
    alloc: Global,
    block: &Block,
    inner: &Scopes<'_>,
    known: &Known<'_>,
) -> Result<Option<Fault>, OutOfMemory>
    ensures { IfOk result (λ f. number f ≡ spec.input_fault (heads known.now) (written.filter block.now.filter) block.now.grouping (scopes inner.now)) }
{
    let kept = filter(alloc, &block.filter, Site::Filtered, inner, known);
    least(kept, Ok(grouping_fault(block.grouping.as_slice(), inner)))
}

// The list and HAVING of a block in their scope.
#[cycle(checks)]
fn after_groups(
    alloc: Global,
    block: &Block,
    inner: &Scopes<'_>,
    known: &Known<'_>,
) -> Result<Output, OutOfMemory>
    ensures columns { IfOk result (λ x. x.columns ≡ types.list_columns (heads known.now) (written.select_list block.now.list) (scopes inner.now)) }
    ensures fault { IfOk result (λ x. number x.fault ≡ spec.output_fault (heads known.now) (written.select_list block.now.list) (written.filter block.now.having) (scopes inner.now)) }
{
    let mut out = no_output(alloc);
    let read = select(alloc, &block.list, inner, known, &mut out);
    let having = filter(alloc, &block.having, Site::Listed, inner, known);
    limited(read, out, having)
}

// A block.
#[cycle(checks)]
#[tactic(auto, using(sql_ast::specs::Shown::lists))]
fn block(
    alloc: Global,
    block: &Block,
    inner: &Scopes<'_>,
    known: &Known<'_>,
) -> Result<Output, OutOfMemory>
    ensures columns { IfOk result (λ x. x.columns ≡ types.columns (heads known.now) (block_of block.now) (scopes inner.now)) }
    ensures fault { IfOk result (λ x. number x.fault ≡ spec.query_fault (heads known.now) (block_of block.now) (scopes inner.now)) }
{
    let from = sources(alloc, block.from.as_slice(), inner, known)?;
    let own = &from.tables;
    let before = before_groups(alloc, block, &Scopes::Plain(own, &*inner), known);
    let after = after_groups(alloc, block, &list_scope(&*block, own, &*inner), known);
    block_output(&from, before, after)
}

// A query.
#[cycle(checks)]
#[tactic(auto, using(sql_ast::specs::Shown::lists))]
pub(crate) fn query(
    alloc: Global,
    q: &Query,
    inner: &Scopes<'_>,
    known: &Known<'_>,
) -> Result<Output, OutOfMemory>
    ensures columns { IfOk result (λ x. x.columns ≡ types.columns (heads known.now) (written.query q.now) (scopes inner.now)) }
    ensures fault { IfOk result (λ x. number x.fault ≡ spec.query_fault (heads known.now) (written.query q.now) (scopes inner.now)) }
{
    match q {
        Query::Combine(a, _, _, b) | Query::Intersect(a, _, b) => {
            let a = query(alloc, a, inner, known);
            let b = query(alloc, b, inner, known);
            combined(a, b)
        }
        Query::Block(b) => block(alloc, b, inner, known),
        Query::Enclosed(q) => query(alloc, q, inner, known),
    }
}
