// The names of tables that a tree reads.
ghost use Rattle.std.specs.Prelude.{◌≡◌, ◌++◌, OnOk};
ghost use Rattle.sql_ast.specs.Shown as shown;
ghost use Rattle.sql_catalog.specs.TableNames as names;

use crate::name_list::note;
use shared_types::OutOfMemory;
use sql_ast::{
    Arm, Block, Choice, Cond, Expr, Filter, Item, Names, Otherwise, Query, Res, SelectList,
    TableRef,
};
use std::alloc::Global;

// Adds the names that an expression reads.
#[cycle(walk)]
fn expr_names(alloc: Global, expr: &Expr, out: &mut Names) -> Result<(), OutOfMemory>
    ensures { OnOk result (out.new ≡ out.old ++ names.in_expr (shown.expr expr.now)) }
{
    match expr {
        Expr::Add(left, _, right) => {
            expr_names(alloc, left, out)?;
            expr_names(alloc, right, out)
        }
        Expr::Multiply(left, _, right) => {
            expr_names(alloc, left, out)?;
            expr_names(alloc, right, out)
        }
        Expr::Signed(_, inner) => expr_names(alloc, inner, out),
        Expr::Number(_) => Ok(()),
        Expr::Str(_) => Ok(()),
        Expr::Column(_) => Ok(()),
        Expr::Paren(inner) => expr_names(alloc, inner, out),
        Expr::Scalar(query) => query_names(alloc, query, out),
        Expr::CountAll => Ok(()),
        Expr::Aggregate(_, _, inner) => expr_names(alloc, inner, out),
        Expr::Searched(arms, otherwise) => {
            arm_names(alloc, arms.as_slice(), out)?;
            otherwise_names(alloc, otherwise, out)
        }
        Expr::Simple(operand, choices, otherwise) => {
            expr_names(alloc, operand, out)?;
            choice_names(alloc, choices.as_slice(), out)?;
            otherwise_names(alloc, otherwise, out)
        }
        Expr::Coalesce(first, others) => {
            expr_names(alloc, first, out)?;
            exprs_names(alloc, others.as_slice(), out)
        }
        Expr::NullIf(left, right) => {
            expr_names(alloc, left, out)?;
            expr_names(alloc, right, out)
        }
        Expr::CastNull(_) => Ok(()),
    }
}

// Adds the names that expressions read, in order.
#[cycle(walk)]
fn exprs_names(alloc: Global, exprs: &[Expr], out: &mut Names) -> Result<(), OutOfMemory>
    ensures { OnOk result (out.new ≡ out.old ++ names.in_exprs (shown.expr_list exprs.now)) }
{
    for expr in exprs {
        expr_names(alloc, expr, out)?;
    }
    Ok(())
}

// Adds the names that a result reads.
#[cycle(walk)]
fn res_names(alloc: Global, res: &Res, out: &mut Names) -> Result<(), OutOfMemory>
    ensures { OnOk result (out.new ≡ out.old ++ names.in_res (shown.res res.now)) }
{
    match res {
        Res::Value(expr) => expr_names(alloc, expr, out),
        Res::Null => Ok(()),
    }
}

// Adds the names that `WHEN cond THEN res` reads, for each.
#[cycle(walk)]
fn arm_names(alloc: Global, arms: &[Arm], out: &mut Names) -> Result<(), OutOfMemory>
    ensures { OnOk result (out.new ≡ out.old ++ names.in_arms (shown.arm_list arms.now)) }
{
    for arm in arms {
        cond_names(alloc, &arm.when, out)?;
        res_names(alloc, &arm.then, out)?;
    }
    Ok(())
}

// Adds the names that `WHEN expr THEN res` reads, for each.
#[cycle(walk)]
fn choice_names(alloc: Global, choices: &[Choice], out: &mut Names) -> Result<(), OutOfMemory>
    ensures { OnOk result (out.new ≡ out.old ++ names.in_choices (shown.choice_list choices.now)) }
{
    for choice in choices {
        expr_names(alloc, &choice.when, out)?;
        res_names(alloc, &choice.then, out)?;
    }
    Ok(())
}

// Adds the names that `[ ELSE res ]` reads.
#[cycle(walk)]
fn otherwise_names(alloc: Global, otherwise: &Otherwise, out: &mut Names) -> Result<(), OutOfMemory>
    ensures { OnOk result (out.new ≡ out.old ++ names.in_otherwise (shown.otherwise otherwise.now)) }
{
    match otherwise {
        Otherwise::Absent => Ok(()),
        Otherwise::Else(res) => res_names(alloc, res, out),
    }
}

// Adds the names that a condition reads.
#[cycle(walk)]
fn cond_names(alloc: Global, cond: &Cond, out: &mut Names) -> Result<(), OutOfMemory>
    ensures { OnOk result (out.new ≡ out.old ++ names.in_cond (shown.cond cond.now)) }
{
    match cond {
        Cond::Or(left, right) => {
            cond_names(alloc, left, out)?;
            cond_names(alloc, right, out)
        }
        Cond::And(left, right) => {
            cond_names(alloc, left, out)?;
            cond_names(alloc, right, out)
        }
        Cond::Not(inner) => cond_names(alloc, inner, out),
        Cond::Bracket(inner) => cond_names(alloc, inner, out),
        Cond::Compare(left, _, right) => {
            expr_names(alloc, left, out)?;
            expr_names(alloc, right, out)
        }
        Cond::Quantified(left, _, _, query) => {
            expr_names(alloc, left, out)?;
            query_names(alloc, query, out)
        }
        Cond::Between(operand, _, low, high) => {
            expr_names(alloc, operand, out)?;
            expr_names(alloc, low, out)?;
            expr_names(alloc, high, out)
        }
        Cond::InQuery(operand, _, query) => {
            expr_names(alloc, operand, out)?;
            query_names(alloc, query, out)
        }
        Cond::InList(operand, _, exprs) => {
            expr_names(alloc, operand, out)?;
            exprs_names(alloc, exprs.as_slice(), out)
        }
        Cond::Like(operand, _, pattern) => {
            expr_names(alloc, operand, out)?;
            expr_names(alloc, pattern, out)
        }
        Cond::IsNull(operand, _) => expr_names(alloc, operand, out),
        Cond::Exists(query) => query_names(alloc, query, out),
    }
}

// Adds the names that `[ WHERE cond ]` or `[ HAVING cond ]` reads.
#[cycle(walk)]
fn filter_names(alloc: Global, filter: &Filter, out: &mut Names) -> Result<(), OutOfMemory>
    ensures { OnOk result (out.new ≡ out.old ++ names.in_filter (shown.filter filter.now)) }
{
    match filter {
        Filter::Absent => Ok(()),
        Filter::Given(cond) => cond_names(alloc, cond, out),
    }
}

// Adds the names that items of a list read, in order.
#[cycle(walk)]
fn item_names(alloc: Global, items: &[Item], out: &mut Names) -> Result<(), OutOfMemory>
    ensures { OnOk result (out.new ≡ out.old ++ names.in_items (shown.item_list items.now)) }
{
    for item in items {
        match item {
            Item::Value(expr, _) => expr_names(alloc, expr, out)?,
            Item::AllOf(_) => {}
        }
    }
    Ok(())
}

// Adds the names that a list reads.
#[cycle(walk)]
fn list_names(alloc: Global, list: &SelectList, out: &mut Names) -> Result<(), OutOfMemory>
    ensures { OnOk result (out.new ≡ out.old ++ names.in_list (shown.select_list list.now)) }
{
    match list {
        SelectList::All => Ok(()),
        SelectList::Items(items) => item_names(alloc, items.as_slice(), out),
    }
}

// Adds the names that a table of a FROM reads.
#[cycle(walk)]
fn table_names(alloc: Global, table: &TableRef, out: &mut Names) -> Result<(), OutOfMemory>
    ensures { OnOk result (out.new ≡ out.old ++ names.in_table (shown.table table.now)) }
{
    match table {
        TableRef::Join(left, _, right, cond) => {
            table_names(alloc, left, out)?;
            table_names(alloc, right, out)?;
            cond_names(alloc, cond, out)
        }
        TableRef::LeftJoin(left, _, right, cond) => {
            table_names(alloc, left, out)?;
            table_names(alloc, right, out)?;
            cond_names(alloc, cond, out)
        }
        TableRef::CrossJoin(left, right) => {
            table_names(alloc, left, out)?;
            table_names(alloc, right, out)
        }
        TableRef::Named(name, _) => note(alloc, name, out),
        TableRef::Derived(query, _) => query_names(alloc, query, out),
        TableRef::Joined(inner) => table_names(alloc, inner, out),
    }
}

// Adds the names that the tables of a FROM read, in order.
#[cycle(walk)]
fn from_names(alloc: Global, from: &[TableRef], out: &mut Names) -> Result<(), OutOfMemory>
    ensures { OnOk result (out.new ≡ out.old ++ names.in_tables (shown.table_list from.now)) }
{
    for table in from {
        table_names(alloc, table, out)?;
    }
    Ok(())
}

// Adds the names that a block reads.
#[cycle(walk)]
fn block_names(alloc: Global, block: &Block, out: &mut Names) -> Result<(), OutOfMemory>
    ensures { OnOk result (out.new ≡ out.old ++ names.in_block block.now) }
{
    list_names(alloc, &block.list, out)?;
    from_names(alloc, block.from.as_slice(), out)?;
    filter_names(alloc, &block.filter, out)?;
    filter_names(alloc, &block.having, out)
}

/// Adds the names of tables that a query reads, in the order of the text.
#[cycle(walk)]
pub fn query_names(alloc: Global, query: &Query, out: &mut Names) -> Result<(), OutOfMemory>
    ensures { OnOk result (out.new ≡ out.old ++ names.in_query (shown.query query.now)) }
{
    match query {
        Query::Combine(left, _, _, right) => {
            query_names(alloc, left, out)?;
            query_names(alloc, right, out)
        }
        Query::Intersect(left, _, right) => {
            query_names(alloc, left, out)?;
            query_names(alloc, right, out)
        }
        Query::Block(block) => block_names(alloc, block, out),
        Query::Enclosed(inner) => query_names(alloc, inner, out),
    }
}
