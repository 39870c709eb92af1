// How operators bind: the kinds of trees, and those of their operands.
use sql_ast::{Cond, Expr, Filter, Item, Query, QueryText, SelectList};
use sql_parser::parse_query;
use sql_text::lex;
use std::alloc::Global;
use std::test::Fail;

// The kind of a tree, and those of its first two operands.
type Shape = (&'static str, &'static str, &'static str);

fn parsed(alloc: Global, text: &str) -> Result<QueryText, Fail> {
    let tokens = lex(alloc, text.as_bytes())?;
    Ok(parse_query(alloc, tokens.as_slice())?)
}

fn kind_of_query(query: &Query) -> &'static str {
    match query {
        Query::Combine(..) => "combine",
        Query::Intersect(..) => "intersect",
        Query::Block(_) => "block",
        Query::Enclosed(_) => "enclosed",
    }
}

fn shape_of_query(query: &Query) -> Shape {
    let kind = kind_of_query(query);
    match query {
        Query::Combine(left, _, _, right) | Query::Intersect(left, _, right) => {
            (kind, kind_of_query(left), kind_of_query(right))
        }
        Query::Enclosed(inner) => (kind, kind_of_query(inner), ""),
        Query::Block(_) => (kind, "", ""),
    }
}

fn kind_of_cond(cond: &Cond) -> &'static str {
    match cond {
        Cond::Or(..) => "or",
        Cond::And(..) => "and",
        Cond::Not(_) => "not",
        Cond::Bracket(_) => "bracket",
        Cond::Compare(..) => "compare",
        Cond::Quantified(..) => "quantified",
        Cond::Between(..) => "between",
        Cond::InQuery(..) => "in query",
        Cond::InList(..) => "in list",
        Cond::Like(..) => "like",
        Cond::IsNull(..) => "is null",
        Cond::Exists(_) => "exists",
    }
}

fn shape_of_cond(cond: &Cond) -> Shape {
    let kind = kind_of_cond(cond);
    match cond {
        Cond::Or(left, right) | Cond::And(left, right) => {
            (kind, kind_of_cond(left), kind_of_cond(right))
        }
        Cond::Not(inner) | Cond::Bracket(inner) => (kind, kind_of_cond(inner), ""),
        Cond::Compare(..)
        | Cond::Quantified(..)
        | Cond::Between(..)
        | Cond::InQuery(..)
        | Cond::InList(..)
        | Cond::Like(..)
        | Cond::IsNull(..)
        | Cond::Exists(_) => (kind, "", ""),
    }
}

fn kind_of_expr(expr: &Expr) -> &'static str {
    match expr {
        Expr::Add(..) => "add",
        Expr::Multiply(..) => "multiply",
        Expr::Signed(..) => "signed",
        Expr::Number(_) => "number",
        Expr::Str(_) => "text",
        Expr::Column(_) => "column",
        Expr::Paren(_) => "paren",
        Expr::Scalar(_) => "scalar",
        Expr::CountAll => "count all",
        Expr::Aggregate(..) => "aggregate",
        Expr::Searched(..) => "searched",
        Expr::Simple(..) => "simple",
        Expr::Coalesce(..) => "coalesce",
        Expr::NullIf(..) => "nullif",
        Expr::CastNull(_) => "cast",
    }
}

fn shape_of_expr(expr: &Expr) -> Shape {
    let kind = kind_of_expr(expr);
    match expr {
        Expr::Add(left, _, right) | Expr::Multiply(left, _, right) | Expr::NullIf(left, right) => {
            (kind, kind_of_expr(left), kind_of_expr(right))
        }
        Expr::Signed(_, inner) | Expr::Paren(inner) | Expr::Aggregate(_, _, inner) => {
            (kind, kind_of_expr(inner), "")
        }
        Expr::Number(_)
        | Expr::Str(_)
        | Expr::Column(_)
        | Expr::Scalar(_)
        | Expr::CountAll
        | Expr::Searched(..)
        | Expr::Simple(..)
        | Expr::Coalesce(..)
        | Expr::CastNull(_) => (kind, "", ""),
    }
}

// The condition of a block.
fn cond_of(text: &QueryText) -> Option<&Cond> {
    let Query::Block(block) = &text.query else {
        return None;
    };
    match &block.filter {
        Filter::Given(cond) => Some(cond),
        Filter::Absent => None,
    }
}

// The first expression of a block's list.
fn expr_of(text: &QueryText) -> Option<&Expr> {
    let Query::Block(block) = &text.query else {
        return None;
    };
    let SelectList::Items(items) = &block.list else {
        return None;
    };
    match items.as_slice().first() {
        Some(Item::Value(expr, _)) => Some(expr),
        Some(Item::AllOf(_)) | None => None,
    }
}

#[test]
fn intersect_binds_before_union_and_except(rt: HostRuntime) -> Result<(), Fail> {
    for (text, shape) in [
        (
            "SELECT A FROM T UNION SELECT A FROM U EXCEPT ALL SELECT A FROM V",
            ("combine", "combine", "block"),
        ),
        (
            "SELECT A FROM T UNION SELECT A FROM U INTERSECT SELECT A FROM V",
            ("combine", "block", "intersect"),
        ),
        (
            "SELECT A FROM T INTERSECT ALL SELECT A FROM U INTERSECT SELECT A FROM V",
            ("intersect", "intersect", "block"),
        ),
        (
            "(SELECT A FROM T) EXCEPT (SELECT A FROM U)",
            ("combine", "enclosed", "enclosed"),
        ),
        ("((SELECT A FROM T))", ("enclosed", "enclosed", "")),
    ] {
        let tree = parsed(rt.alloc(), text)?;
        assert_eq!(rt; shape_of_query(&tree.query), shape, "at {text}");
    }
    Ok(())
}

#[test]
fn and_binds_before_or(rt: HostRuntime) -> Result<(), Fail> {
    for (cond, shape) in [
        ("A = 1 OR B = 2 AND C = 3", ("or", "compare", "and")),
        ("A = 1 AND B = 2 OR C = 3", ("or", "and", "compare")),
        ("A = 1 OR B = 2 OR C = 3", ("or", "or", "compare")),
        ("A = 1 AND B = 2 AND C = 3", ("and", "and", "compare")),
        ("NOT A = 1 AND B = 2", ("and", "not", "compare")),
        ("NOT (A = 1 OR B = 2)", ("not", "bracket", "")),
        ("((A = 1))", ("bracket", "bracket", "")),
        ("((A) = 1)", ("bracket", "compare", "")),
        ("(A) = 1", ("compare", "", "")),
        ("A BETWEEN 1 AND 2 AND B = 3", ("and", "between", "compare")),
        ("A NOT IN ((SELECT A FROM T))", ("in query", "", "")),
        ("A IN ((SELECT A FROM T), 1)", ("in list", "", "")),
    ] {
        let text = format!(in rt.alloc(); "SELECT A FROM T WHERE {cond}")?;
        let tree = parsed(rt.alloc(), text.as_str())?;
        assert_eq!(rt;
            cond_of(&tree).map(|c| shape_of_cond(c)),
            Some(shape),
            "at {cond}"
        );
    }
    Ok(())
}

#[test]
fn times_binds_before_plus(rt: HostRuntime) -> Result<(), Fail> {
    for (expr, shape) in [
        ("A + B - C", ("add", "add", "column")),
        ("A || B || C", ("add", "add", "column")),
        ("A + B * C", ("add", "column", "multiply")),
        ("A * B / C", ("multiply", "multiply", "column")),
        ("-A * +1", ("multiply", "signed", "signed")),
        ("(A + 1) * 2", ("multiply", "paren", "number")),
        ("MIN(A) + MAX(B)", ("add", "aggregate", "aggregate")),
        ("((SELECT A FROM T))", ("scalar", "", "")),
        ("((SELECT A FROM T) + 1)", ("paren", "add", "")),
        ("NULLIF(A, B + 1)", ("nullif", "column", "add")),
    ] {
        let text = format!(in rt.alloc(); "SELECT {expr} FROM T")?;
        let tree = parsed(rt.alloc(), text.as_str())?;
        assert_eq!(rt;
            expr_of(&tree).map(|e| shape_of_expr(e)),
            Some(shape),
            "at {expr}"
        );
    }
    Ok(())
}
