// Queries with their names resolved: each part in the ranges of the blocks that enclose it.
ghost use Rattle.std.specs.Prelude.{◌≡◌, ◌∷◌, ◌++◌, [], ℕ, true, false, IfOk, OnOk};
ghost use Rattle.sql_meaning.specs.Even.{innermost};
ghost use Rattle.sql_meaning.specs.Names as named;
ghost use Rattle.sql_meaning.specs.ResolvedShown as shown;
ghost use Rattle.sql_meaning.specs.ResolvedTrees as tree;
ghost use Rattle.sql_meaning.specs.Scopes.{Shape};
ghost use Rattle.sql_ast.specs.Shown as written;
ghost use Rattle.sql_names.specs.Forms.{is_conjunction, is_disjunction, is_product, is_sum};
ghost use Rattle.sql_names.specs.Onto.{values_onto};
ghost use Rattle.sql_names.specs.Resolved as spec;
ghost use Rattle.sql_names.specs.Resolved.{bare};
ghost use Rattle.sql_names.specs.Shapes.{block_of, columns_of, on_of, shapes};

use crate::build as made;
use crate::chain::{both, either, product, signed, sum, type_of};
use crate::names::list_names;
use crate::queries::{ResolvedQuery, combine, grouped, intersect, resolved, ungrouped};
use crate::scope::{Setting, Shapes};
use crate::stars::{push_innermost, push_range_columns};
use crate::tables::{
    ResolvedFrom, ResolvedJoin, ResolvedPair, ResolvedTable, cross_join, derived_table, inner_join,
    left_join, named_table, no_tables, paired, push_table, with_condition,
};
use shared_types::OutOfMemory;
use sql_ast as ast;
use sql_meaning::{Arm, Choice, Query, Test, Value, is_grouped};
use sqlite_items::Items;

// An expression with its names resolved. Chains of operators stand apart from all else, so that each
// of thousands of operators takes little of the stack.
#[cycle(resolve)]
pub(crate) fn value(
    setting: &Setting<'_>,
    x: &ast::Expr,
    s: &Shapes<'_>,
) -> Result<Box<Value>, OutOfMemory>
    ensures { IfOk result (λ v. shown.value v.value ≡ spec.value (columns_of setting.now) (shapes s.now) (written.expr x.now)) }
{
    match x {
        ast::Expr::Add(a, op, b) => {
            let a = value(setting, a, s);
            sum(setting.alloc, a, *op, value(setting, b, s))
        }
        ast::Expr::Multiply(a, op, b) => {
            let a = value(setting, a, s);
            product(setting.alloc, a, *op, value(setting, b, s))
        }
        ast::Expr::Signed(_, _)
        | ast::Expr::Number(_)
        | ast::Expr::Str(_)
        | ast::Expr::Column(_)
        | ast::Expr::Paren(_)
        | ast::Expr::Scalar(_)
        | ast::Expr::CountAll
        | ast::Expr::Aggregate(_, _, _)
        | ast::Expr::Searched(_, _)
        | ast::Expr::Simple(_, _, _)
        | ast::Expr::Coalesce(_, _)
        | ast::Expr::NullIf(_, _)
        | ast::Expr::CastNull(_) => operand(setting, x, s),
    }
}

// An expression that is no chain of operators.
#[cycle(resolve)]
#[tactic(auto, using(sql_ast::specs::Shown::lists))]
fn operand(setting: &Setting<'_>, x: &ast::Expr, s: &Shapes<'_>) -> Result<Box<Value>, OutOfMemory>
    requires no_sum { is_sum (written.expr x.now) ≡ false }
    requires no_product { is_product (written.expr x.now) ≡ false }
    ensures { IfOk result (λ v. shown.value v.value ≡ spec.value (columns_of setting.now) (shapes s.now) (written.expr x.now)) }
{
    let alloc = setting.alloc;
    match x {
        ast::Expr::Signed(sign, a) => signed(alloc, *sign, value(setting, a, s)),
        ast::Expr::Number(n) => made::number(alloc, *n),
        ast::Expr::Str(x) => made::text(alloc, x),
        ast::Expr::Column(c) => made::column(alloc, c, s),
        ast::Expr::Paren(a) => value(setting, a, s),
        ast::Expr::Scalar(q) => made::scalar(alloc, query(setting, q, s)),
        ast::Expr::CountAll => made::count_all(alloc),
        ast::Expr::Aggregate(function, each, a) => {
            made::aggregate(alloc, *function, *each, argument(setting, a, s))
        }
        ast::Expr::Searched(list, last) => {
            let list = arms(setting, list.as_slice(), s);
            made::searched(alloc, list, otherwise(setting, last, s))
        }
        ast::Expr::Simple(a, list, last) => {
            let a = value(setting, a, s);
            let list = choices(setting, list.as_slice(), s);
            made::simple(alloc, a, list, otherwise(setting, last, s))
        }
        ast::Expr::Coalesce(a, list) => {
            let a = value(setting, a, s);
            made::coalesce(alloc, a, values(setting, list.as_slice(), s))
        }
        ast::Expr::NullIf(a, b) => {
            let a = value(setting, a, s);
            made::null_if(alloc, a, value(setting, b, s))
        }
        ast::Expr::CastNull(to) => made::null(alloc, Some(type_of(to))),
        ast::Expr::Add(_, _, _) | ast::Expr::Multiply(_, _, _) => unreachable!(),
    }
}

// The argument of an aggregate, which is read in the rows of the innermost scope alone.
#[cycle(resolve)]
fn argument(setting: &Setting<'_>, x: &ast::Expr, s: &Shapes<'_>) -> Result<Box<Value>, OutOfMemory>
    ensures { IfOk result (λ v. shown.value v.value ≡ spec.value (columns_of setting.now) (innermost (shapes s.now) ∷ []) (written.expr x.now)) }
{
    match s {
        Shapes::Inside(scope, _) => {
            value(setting, x, &Shapes::Inside(*scope, &Shapes::Outermost))
        }
        Shapes::Outermost => {
            let none = no_tables(setting.alloc)?;
            value(setting, x, &Shapes::Inside(&none.scope, &Shapes::Outermost))
        }
    }
}

// The expressions of a list.
#[cycle(resolve)]
#[tactic(auto, using(crate::proofs::Ontos::values_whole))]
fn values(
    setting: &Setting<'_>,
    list: &[ast::Expr],
    s: &Shapes<'_>,
) -> Result<Items<Value>, OutOfMemory>
    ensures { IfOk result (λ v. shown.value_list v ≡ spec.values (columns_of setting.now) (shapes s.now) (written.expr_list list.now)) }
{
    let mut out = Items::new(setting.alloc);
    for x in list {
        made::push_value(&mut out, value(setting, x, s))?;
    }
    Ok(out)
}

// A result of a CASE.
#[cycle(resolve)]
fn outcome(setting: &Setting<'_>, res: &ast::Res, s: &Shapes<'_>) -> Result<Box<Value>, OutOfMemory>
    ensures { IfOk result (λ v. shown.value v.value ≡ spec.result (columns_of setting.now) (shapes s.now) (written.res res.now)) }
{
    match res {
        ast::Res::Value(x) => value(setting, x, s),
        ast::Res::Null => made::null(setting.alloc, None),
    }
}

// What stands after ELSE, or null.
#[cycle(resolve)]
fn otherwise(
    setting: &Setting<'_>,
    other: &ast::Otherwise,
    s: &Shapes<'_>,
) -> Result<Box<Value>, OutOfMemory>
    ensures { IfOk result (λ v. shown.value v.value ≡ spec.otherwise (columns_of setting.now) (shapes s.now) (written.otherwise other.now)) }
{
    match other {
        ast::Otherwise::Absent => made::null(setting.alloc, None),
        ast::Otherwise::Else(res) => outcome(setting, res, s),
    }
}

// The conditions of a CASE with their results.
#[cycle(resolve)]
#[tactic(auto, using(crate::proofs::Ontos::arms_whole))]
fn arms(setting: &Setting<'_>, list: &[ast::Arm], s: &Shapes<'_>) -> Result<Items<Arm>, OutOfMemory>
    ensures { IfOk result (λ v. shown.arm_list v ≡ spec.arms (columns_of setting.now) (shapes s.now) (written.arm_list list.now)) }
{
    let mut out = Items::new(setting.alloc);
    for arm in list {
        let when = test(setting, &arm.when, s);
        made::push_arm(&mut out, when, outcome(setting, &arm.then, s))?;
    }
    Ok(out)
}

// The values of a CASE with their results.
#[cycle(resolve)]
#[tactic(auto, using(crate::proofs::Ontos::choices_whole))]
fn choices(
    setting: &Setting<'_>,
    list: &[ast::Choice],
    s: &Shapes<'_>,
) -> Result<Items<Choice>, OutOfMemory>
    ensures { IfOk result (λ v. shown.choice_list v ≡ spec.choices (columns_of setting.now) (shapes s.now) (written.choice_list list.now)) }
{
    let mut out = Items::new(setting.alloc);
    for choice in list {
        let when = value(setting, &choice.when, s);
        made::push_choice(&mut out, when, outcome(setting, &choice.then, s))?;
    }
    Ok(out)
}

// A condition with its names resolved. Chains stand apart, as above.
#[cycle(resolve)]
pub(crate) fn test(
    setting: &Setting<'_>,
    p: &ast::Cond,
    s: &Shapes<'_>,
) -> Result<Box<Test>, OutOfMemory>
    ensures { IfOk result (λ t. shown.test t.value ≡ spec.test (columns_of setting.now) (shapes s.now) (written.cond p.now)) }
{
    match p {
        ast::Cond::Or(a, b) => {
            let a = test(setting, a, s);
            either(setting.alloc, a, test(setting, b, s))
        }
        ast::Cond::And(a, b) => {
            let a = test(setting, a, s);
            both(setting.alloc, a, test(setting, b, s))
        }
        ast::Cond::Not(_)
        | ast::Cond::Bracket(_)
        | ast::Cond::Compare(_, _, _)
        | ast::Cond::Quantified(_, _, _, _)
        | ast::Cond::Between(_, _, _, _)
        | ast::Cond::InQuery(_, _, _)
        | ast::Cond::InList(_, _, _)
        | ast::Cond::Like(_, _, _)
        | ast::Cond::IsNull(_, _)
        | ast::Cond::Exists(_) => conjunct(setting, p, s),
    }
}

// A condition that is no chain of OR or AND.
#[cycle(resolve)]
#[tactic(auto, using(sql_ast::specs::Shown::lists))]
fn conjunct(setting: &Setting<'_>, p: &ast::Cond, s: &Shapes<'_>) -> Result<Box<Test>, OutOfMemory>
    requires no_disjunction { is_disjunction (written.cond p.now) ≡ false }
    requires no_conjunction { is_conjunction (written.cond p.now) ≡ false }
    ensures { IfOk result (λ t. shown.test t.value ≡ spec.test (columns_of setting.now) (shapes s.now) (written.cond p.now)) }
{
    let alloc = setting.alloc;
    match p {
        ast::Cond::Not(a) => made::negated(alloc, test(setting, a, s)),
        ast::Cond::Bracket(a) => test(setting, a, s),
        ast::Cond::Compare(a, op, b) => {
            let a = value(setting, a, s);
            made::compare(alloc, a, *op, value(setting, b, s))
        }
        ast::Cond::Quantified(a, op, each, q) => {
            let a = value(setting, a, s);
            made::quantified(alloc, a, *op, *each, query(setting, q, s))
        }
        ast::Cond::Between(a, negative, b, c) => {
            let a = value(setting, a, s);
            let b = value(setting, b, s);
            made::between(alloc, a, *negative, b, value(setting, c, s))
        }
        ast::Cond::InQuery(a, negative, q) => {
            let a = value(setting, a, s);
            made::among_rows(alloc, a, *negative, query(setting, q, s))
        }
        ast::Cond::InList(a, negative, list) => {
            let a = value(setting, a, s);
            made::among(alloc, a, *negative, values(setting, list.as_slice(), s))
        }
        ast::Cond::Like(a, negative, b) => {
            let a = value(setting, a, s);
            made::like(alloc, a, *negative, value(setting, b, s))
        }
        ast::Cond::IsNull(a, negative) => made::is_null(alloc, value(setting, a, s), *negative),
        ast::Cond::Exists(q) => made::exists(alloc, query(setting, q, s)),
        ast::Cond::Or(_, _) | ast::Cond::And(_, _) => unreachable!(),
    }
}

// A WHERE or a HAVING.
#[cycle(resolve)]
fn filter(
    setting: &Setting<'_>,
    filter: &ast::Filter,
    s: &Shapes<'_>,
) -> Result<Box<Test>, OutOfMemory>
    ensures { IfOk result (λ t. shown.test t.value ≡ spec.filter (columns_of setting.now) (shapes s.now) (written.filter filter.now)) }
{
    match filter {
        ast::Filter::Absent => made::no_test(setting.alloc),
        ast::Filter::Given(p) => test(setting, p, s),
    }
}

// Adds the columns of an item of a list at the end.
#[cycle(resolve)]
fn push_item(
    setting: &Setting<'_>,
    item: &ast::Item,
    s: &Shapes<'_>,
    out: &mut Items<Value>,
) -> Result<(), OutOfMemory>
    ensures { OnOk result ((rest : tree.Values) → values_onto out.new rest ≡ values_onto out.old (spec.append (spec.item (columns_of setting.now) (shapes s.now) (written.item item.now)) rest)) }
{
    match item {
        ast::Item::Value(x, _) => made::push_value(out, value(setting, x, s)),
        ast::Item::AllOf(name) => push_range_columns(name, s, out),
    }
}

// The same of items.
#[cycle(resolve)]
#[tactic(auto, using(crate::proofs::Ontos::append_append))]
fn push_items(
    setting: &Setting<'_>,
    items: &[ast::Item],
    s: &Shapes<'_>,
    out: &mut Items<Value>,
) -> Result<(), OutOfMemory>
    ensures { OnOk result ((rest : tree.Values) → values_onto out.new rest ≡ values_onto out.old (spec.append (spec.items (columns_of setting.now) (shapes s.now) (written.item_list items.now)) rest)) }
{
    for item in items {
        push_item(setting, item, s, out)?;
    }
    Ok(())
}

// The columns of a list.
#[cycle(resolve)]
#[tactic(auto, using(sql_ast::specs::Shown::lists, crate::proofs::Ontos::values_whole, crate::proofs::Ontos::append_none))]
fn select_list(
    setting: &Setting<'_>,
    list: &ast::SelectList,
    s: &Shapes<'_>,
) -> Result<Items<Value>, OutOfMemory>
    ensures { IfOk result (λ v. shown.value_list v ≡ spec.list (columns_of setting.now) (shapes s.now) (written.select_list list.now)) }
{
    let mut out = Items::new(setting.alloc);
    match list {
        ast::SelectList::All => push_innermost(s, &mut out)?,
        ast::SelectList::Items(items) => push_items(setting, items.as_slice(), s, &mut out)?,
    }
    Ok(out)
}

// The tables of a FROM.
#[cycle(resolve)]
fn froms(
    setting: &Setting<'_>,
    list: &[ast::TableRef],
    s: &Shapes<'_>,
) -> Result<Box<ResolvedFrom>, OutOfMemory>
    ensures from { IfOk result (λ v. shown.from_list v.value.from ≡ spec.froms (columns_of setting.now) (shapes s.now) (written.table_list list.now)) }
    ensures scope { IfOk result (λ v. v.value.scope ≡ named.shape (bare (columns_of setting.now)) (written.table_list list.now) (shapes s.now)) }
{
    let mut out = no_tables(setting.alloc)?;
    for x in list {
        push_table(setting.alloc, &mut *out, table(setting, x, s)?)?;
    }
    Ok(out)
}

// A table of a FROM.
#[cycle(resolve)]
fn table(
    setting: &Setting<'_>,
    x: &ast::TableRef,
    s: &Shapes<'_>,
) -> Result<Box<ResolvedTable>, OutOfMemory>
    ensures table { IfOk result (λ v. shown.from v.value.table.value ≡ spec.table (columns_of setting.now) (shapes s.now) (written.table x.now)) }
    ensures scope { IfOk result (λ v. v.value.scope ≡ named.table_shape (bare (columns_of setting.now)) (written.table x.now) (shapes s.now)) }
{
    let alloc = setting.alloc;
    match x {
        ast::TableRef::Join(a, _, b, p) => {
            let a = table(setting, a, s);
            let pair = paired(alloc, a, table(setting, b, s));
            inner_join(alloc, join(setting, p, pair, s))
        }
        ast::TableRef::LeftJoin(a, _, b, p) => {
            let a = table(setting, a, s);
            let pair = paired(alloc, a, table(setting, b, s));
            left_join(alloc, join(setting, p, pair, s))
        }
        ast::TableRef::CrossJoin(a, b) => {
            let a = table(setting, a, s);
            cross_join(alloc, a, table(setting, b, s))
        }
        ast::TableRef::Named(name, alias) => named_table(setting, name, alias),
        ast::TableRef::Derived(q, alias) => derived_table(alloc, query(setting, q, s), alias),
        ast::TableRef::Joined(a) => table(setting, a, s),
    }
}

// Two tables of a join with its condition, which sees the columns of both.
#[cycle(resolve)]
fn join(
    setting: &Setting<'_>,
    on: &ast::Cond,
    pair: Result<Box<ResolvedPair>, OutOfMemory>,
    s: &Shapes<'_>,
) -> Result<ResolvedJoin, OutOfMemory>
    ensures left { (a : tree.From) → IfOk pair (λ v. shown.from v.value.left.value ≡ a) → IfOk result (λ v. shown.from v.pair.value.left.value ≡ a) }
    ensures right { (a : tree.From) → IfOk pair (λ v. shown.from v.value.right.value ≡ a) → IfOk result (λ v. shown.from v.pair.value.right.value ≡ a) }
    ensures width { (n : ℕ) → IfOk pair (λ v. v.value.width ≡ n) → IfOk result (λ v. v.pair.value.width ≡ n) }
    ensures scope { (a : Shape) → IfOk pair (λ v. v.value.scope ≡ a) → IfOk result (λ v. v.pair.value.scope ≡ a) }
    ensures on { (a b : Shape) → IfOk pair (λ v. v.value.scope ≡ a ++ b) → IfOk result (λ v. shown.test v.on.value ≡ on_of setting.now s.now a b on.now) }
{
    let pair = pair?;
    let on = test(setting, on, &Shapes::Inside(&pair.scope, &*s));
    with_condition(pair, on)
}

/// A query with its names resolved. It fails only for want of memory.
#[cycle(resolve)]
#[tactic(auto, using(sql_ast::specs::Shown::lists))]
pub(crate) fn query(
    setting: &Setting<'_>,
    q: &ast::Query,
    s: &Shapes<'_>,
) -> Result<Box<ResolvedQuery>, OutOfMemory>
    ensures query { IfOk result (λ v. shown.query v.value.query.value ≡ spec.query (columns_of setting.now) (shapes s.now) (written.query q.now)) }
    ensures columns { IfOk result (λ v. v.value.columns ≡ named.names (bare (columns_of setting.now)) (written.query q.now) (shapes s.now)) }
{
    match q {
        ast::Query::Combine(x, op, all, y) => {
            let x = query(setting, x, s);
            combine(setting.alloc, x, *op, *all, query(setting, y, s))
        }
        ast::Query::Intersect(x, all, y) => {
            let x = query(setting, x, s);
            intersect(setting.alloc, x, *all, query(setting, y, s))
        }
        ast::Query::Enclosed(x) => query(setting, x, s),
        ast::Query::Block(b) => block(setting, b, s),
    }
}

// A block: its FROM, and the rest in the scope of that FROM.
#[cycle(resolve)]
fn block(
    setting: &Setting<'_>,
    b: &ast::Block,
    s: &Shapes<'_>,
) -> Result<Box<ResolvedQuery>, OutOfMemory>
    ensures query { IfOk result (λ v. shown.query v.value.query.value ≡ spec.query (columns_of setting.now) (shapes s.now) (block_of b.now)) }
    ensures columns { IfOk result (λ v. v.value.columns ≡ named.names (bare (columns_of setting.now)) (block_of b.now) (shapes s.now)) }
{
    let from = froms(setting, b.from.as_slice(), s)?;
    let columns = list_names(setting.alloc, &b.list, &from.scope, s);
    resolved(setting.alloc, block_over(setting, b, from, s), columns)
}

// The list, WHERE, GROUP BY and HAVING of a block in the scope of its FROM, which is resolved.
#[cycle(resolve)]
fn block_over(
    setting: &Setting<'_>,
    b: &ast::Block,
    from: Box<ResolvedFrom>,
    s: &Shapes<'_>,
) -> Result<Box<Query>, OutOfMemory>
    requires from { shown.from_list from.value.from ≡ spec.froms (columns_of setting.now) (shapes s.now) (written.table_list b.now.from) }
    requires scope { from.value.scope ≡ named.shape (bare (columns_of setting.now)) (written.table_list b.now.from) (shapes s.now) }
    ensures { IfOk result (λ v. shown.query v.value ≡ spec.query (columns_of setting.now) (shapes s.now) (block_of b.now)) }
{
    let alloc = setting.alloc;
    let inner = Shapes::Inside(&from.scope, &*s);
    let list = select_list(setting, &b.list, &inner);
    let by = filter(setting, &b.filter, &inner);
    if is_grouped(&b.list, b.grouping.as_slice(), &b.having) {
        let having = filter(setting, &b.having, &inner);
        grouped(alloc, b, list, from, by, having)
    } else {
        ungrouped(alloc, b.quantifier, list, from, by)
    }
}
