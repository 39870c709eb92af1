// Which blocks are grouped: those with GROUP BY, HAVING or an aggregate of their own in the list.
ghost use Rattle.std.specs.Prelude.{◌≡◌};
ghost use Rattle.sql_ast.specs.Shown as written;
ghost use Rattle.sql_meaning.specs.Grouping as spec;

use sql_ast::{Arm, Choice, Column, Cond, Expr, Filter, Item, Otherwise, Res, SelectList};

// Whether an expression has an aggregate of its own block. Chains of operators stand apart from all
// else, so that each of thousands of operators takes little of the stack.
#[cycle(groups)]
#[tactic(auto, using(sql_ast::specs::Shown::lists))]
fn in_expr(x: &Expr) -> bool
    ensures { result ≡ spec.in_expr (written.expr x.now) }
{
    match x {
        Expr::Add(a, _, b) | Expr::Multiply(a, _, b) => in_expr(a) || in_expr(b),
        Expr::Signed(_, a) | Expr::Paren(a) => in_expr(a),
        Expr::Number(_) | Expr::Str(_) | Expr::Column(_) | Expr::Scalar(_) | Expr::CastNull(_) =>
            false,
        Expr::CountAll | Expr::Aggregate(_, _, _) => true,
        Expr::Searched(list, last) => in_arms(list.as_slice()) || in_else(last),
        Expr::Simple(a, list, last) => {
            in_expr(a) || (in_choices(list.as_slice()) || in_else(last))
        }
        Expr::Coalesce(a, list) => in_expr(a) || in_exprs(list.as_slice()),
        Expr::NullIf(a, b) => in_expr(a) || in_expr(b),
    }
}

// Whether one of these expressions has one.
#[cycle(groups)]
fn in_exprs(list: &[Expr]) -> bool
    ensures { result ≡ spec.in_exprs (written.expr_list list.now) }
{
    for x in list {
        if in_expr(x) {
            return true;
        }
    }
    false
}

// Whether a result of a CASE has one.
#[cycle(groups)]
fn in_res(res: &Res) -> bool
    ensures { result ≡ spec.in_res (written.res res.now) }
{
    match res {
        Res::Value(x) => in_expr(x),
        Res::Null => false,
    }
}

// Whether what stands after ELSE has one.
#[cycle(groups)]
fn in_else(other: &Otherwise) -> bool
    ensures { result ≡ spec.in_else (written.otherwise other.now) }
{
    match other {
        Otherwise::Absent => false,
        Otherwise::Else(res) => in_res(res),
    }
}

// Whether a condition of a CASE or its result has one.
#[cycle(groups)]
fn in_arms(list: &[Arm]) -> bool
    ensures { result ≡ spec.in_arms (written.arm_list list.now) }
{
    for arm in list {
        if in_cond(&arm.when) || in_res(&arm.then) {
            return true;
        }
    }
    false
}

// Whether a value of a CASE or its result has one.
#[cycle(groups)]
fn in_choices(list: &[Choice]) -> bool
    ensures { result ≡ spec.in_choices (written.choice_list list.now) }
{
    for choice in list {
        if in_expr(&choice.when) || in_res(&choice.then) {
            return true;
        }
    }
    false
}

// Whether a condition has one.
#[cycle(groups)]
#[tactic(auto, using(sql_ast::specs::Shown::lists))]
fn in_cond(p: &Cond) -> bool
    ensures { result ≡ spec.in_cond (written.cond p.now) }
{
    match p {
        Cond::Or(a, b) | Cond::And(a, b) => in_cond(a) || in_cond(b),
        Cond::Not(a) | Cond::Bracket(a) => in_cond(a),
        Cond::Compare(a, _, b) | Cond::Like(a, _, b) => in_expr(a) || in_expr(b),
        Cond::Quantified(a, _, _, _) | Cond::InQuery(a, _, _) | Cond::IsNull(a, _) => in_expr(a),
        Cond::Between(a, _, b, c) => in_expr(a) || in_expr(b) || in_expr(c),
        Cond::InList(a, _, list) => in_expr(a) || in_exprs(list.as_slice()),
        Cond::Exists(_) => false,
    }
}

// Whether an item of a list has one.
fn in_items(items: &[Item]) -> bool
    ensures { result ≡ spec.in_items (written.item_list items.now) }
{
    for item in items {
        match item {
            Item::Value(x, _) => {
                if in_expr(x) {
                    return true;
                }
            }
            Item::AllOf(_) => {}
        }
    }
    false
}

// Whether a list has one.
#[tactic(auto, using(sql_ast::specs::Shown::lists))]
fn in_list(list: &SelectList) -> bool
    ensures { result ≡ spec.in_list (written.select_list list.now) }
{
    match list {
        SelectList::All => false,
        SelectList::Items(items) => in_items(items.as_slice()),
    }
}

/// Whether a block is grouped, by its list, its GROUP BY and its HAVING (SQL-92, 7.9).
pub fn is_grouped(list: &SelectList, by: &[Column], having: &Filter) -> bool
    ensures { result ≡ spec.is_grouped (written.select_list list.now) by.now (written.filter having.now) }
{
    match by {
        [_, ..] => true,
        [] => match having {
            Filter::Given(_) => true,
            Filter::Absent => in_list(list),
        },
    }
}
