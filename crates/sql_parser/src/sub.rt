// Whether a condition holds no subquery, at any depth. A chain of operators is as deep as it is
// long, so each function only branches and calls.
ghost use Rattle.std.specs.Prelude.{◌≡◌};
ghost use Rattle.sql_ast.specs.Grammatical as gram;
ghost use Rattle.sql_ast.specs.Shown as shown;

use sql_ast::{Arm, Choice, Cond, Expr, Otherwise, Res};

#[cycle(without_sub)]
#[tactic(auto, using(sql_ast::specs::Shown::lists))]
fn expr_without_sub(x: &Expr) -> bool
    ensures { result ≡ gram.expr_without_sub (shown.expr x.now) }
{
    match x {
        Expr::Add(a, _, b) => expr_without_sub(a) && expr_without_sub(b),
        Expr::Multiply(a, _, b) => expr_without_sub(a) && expr_without_sub(b),
        Expr::Signed(_, a) => expr_without_sub(a),
        Expr::Number(_) => true,
        Expr::Str(_) => true,
        Expr::Column(_) => true,
        Expr::Paren(a) => expr_without_sub(a),
        Expr::Scalar(_) => false,
        Expr::CountAll => true,
        Expr::Aggregate(_, _, a) => expr_without_sub(a),
        Expr::Searched(xs, o) => arms_without_sub(xs.as_slice()) && otherwise_without_sub(o),
        Expr::Simple(a, xs, o) => {
            expr_without_sub(a) && choices_without_sub(xs.as_slice()) && otherwise_without_sub(o)
        }
        Expr::Coalesce(a, xs) => expr_without_sub(a) && exprs_without_sub(xs.as_slice()),
        Expr::NullIf(a, b) => expr_without_sub(a) && expr_without_sub(b),
        Expr::CastNull(_) => true,
    }
}

#[cycle(without_sub)]
fn exprs_without_sub(xs: &[Expr]) -> bool
    ensures { result ≡ gram.exprs_without_sub (shown.expr_list xs.now) }
{
    'exprs: for x in xs {
        if !expr_without_sub(x) {
            return false;
        }
    }
    true
}

#[cycle(without_sub)]
fn res_without_sub(x: &Res) -> bool
    ensures { result ≡ gram.res_without_sub (shown.res x.now) }
{
    match x {
        Res::Value(a) => expr_without_sub(a),
        Res::Null => true,
    }
}

#[cycle(without_sub)]
fn arms_without_sub(xs: &[Arm]) -> bool
    ensures { result ≡ gram.arms_without_sub (shown.arm_list xs.now) }
{
    'arms: for x in xs {
        if !without_sub(&x.when) || !res_without_sub(&x.then) {
            return false;
        }
    }
    true
}

#[cycle(without_sub)]
fn choices_without_sub(xs: &[Choice]) -> bool
    ensures { result ≡ gram.choices_without_sub (shown.choice_list xs.now) }
{
    'choices: for x in xs {
        if !expr_without_sub(&x.when) || !res_without_sub(&x.then) {
            return false;
        }
    }
    true
}

#[cycle(without_sub)]
fn otherwise_without_sub(x: &Otherwise) -> bool
    ensures { result ≡ gram.otherwise_without_sub (shown.otherwise x.now) }
{
    match x {
        Otherwise::Absent => true,
        Otherwise::Else(r) => res_without_sub(r),
    }
}

/// Whether a condition holds no subquery, at any depth.
#[cycle(without_sub)]
#[tactic(auto, using(sql_ast::specs::Shown::lists))]
pub(crate) fn without_sub(x: &Cond) -> bool
    ensures { result ≡ gram.cond_without_sub (shown.cond x.now) }
{
    match x {
        Cond::Or(a, b) => without_sub(a) && without_sub(b),
        Cond::And(a, b) => without_sub(a) && without_sub(b),
        Cond::Not(a) => without_sub(a),
        Cond::Bracket(a) => without_sub(a),
        Cond::Compare(a, _, b) => expr_without_sub(a) && expr_without_sub(b),
        Cond::Quantified(_, _, _, _) => false,
        Cond::Between(a, _, b, c) => {
            expr_without_sub(a) && expr_without_sub(b) && expr_without_sub(c)
        }
        Cond::InQuery(_, _, _) => false,
        Cond::InList(a, _, xs) => expr_without_sub(a) && exprs_without_sub(xs.as_slice()),
        Cond::Like(a, _, b) => expr_without_sub(a) && expr_without_sub(b),
        Cond::IsNull(a, _) => expr_without_sub(a),
        Cond::Exists(_) => false,
    }
}
