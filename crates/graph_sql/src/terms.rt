// Expressions and conditions, added to a text.
ghost use Rattle.std.specs.Prelude.{◌≡◌, ◌++◌, codes, OnOk, None};
ghost use Rattle.graph_sql.specs.Readings as readings;
ghost use Rattle.graph_sql.specs.Scoped as spec;
ghost use Rattle.graph_sql.specs.Text.{comparison_word};
ghost use Rattle.qgm_props.specs.Lists.{is_none};
ghost use Rattle.qgm_terms.specs.Shown.{choice, choices, cond, conds, link as shown_link, links, term};
ghost use Rattle.qgm_terms.specs.Terms as t;

use crate::form::{Form, form_of, put_close_form, put_comparison, put_open_form};
use crate::reading::{Connective, Reading, of_and, of_every, of_or, of_some, turned};
use crate::scope::{Scope, is_sure, put_column, put_range, put_source};
use crate::words::{
    inner_of, put_always, put_close_list, put_connective, put_null, put_number_cell, put_op,
    put_open_every, put_open_list, put_open_some, put_string,
};
use graph_print::{put_repeated, put_word};
use qgm_terms::{Arm, Gc, Gx, Link, QuantId, both};
use shared_types::{OutOfMemory, Text};
use sql_value::SqlType;

/// Whether no operand stands behind the first one.
pub fn is_alone(list: &[Link]) -> bool
    ensures { result ≡ is_none (links list.now) }
{
    match list {
        [] => true,
        [_, ..] => false,
    }
}

/// Whether an expression is a literal, or a column that is known to hold no null.
pub fn holds_value(scope: &Scope<'_>, x: &Gx) -> bool
    ensures { result ≡ readings.holds_value (spec.names_in scope.now).not_null (term x.now) }
{
    match x {
        Gx::Int(_) | Gx::Text(_) => true,
        Gx::NullInt
        | Gx::NullText
        | Gx::CountAll
        | Gx::Scalar(_)
        | Gx::Case(_, _)
        | Gx::Neg(_)
        | Gx::Fold(_, _, _) => false,
        Gx::Col(q, k) => is_sure(scope, *q, *k),
        Gx::Chain(a, list) => both(is_alone(list), holds_value(scope, a)),
    }
}

// The one cell of the rows of a quantifier.
fn put_scalar(scope: &Scope<'_>, q: QuantId, out: &mut Text) -> Result<(), OutOfMemory>
    ensures { OnOk result (out.new ≡ out.old ++ spec.term_text scope.now (t.scalar q)) }
{
    put_word(b"(SELECT ", out)?;
    put_column(scope, q, 1, out)?;
    put_word(b" FROM ", out)?;
    put_range(scope, q, out)?;
    put_word(b")", out)
}

/// Adds an expression.
#[cycle(terms)]
pub fn put_term(scope: &Scope<'_>, x: &Gx, out: &mut Text) -> Result<(), OutOfMemory>
    ensures { OnOk result (out.new ≡ out.old ++ spec.term_text scope.now (term x.now)) }
{
    match x {
        Gx::Int(n) => put_number_cell(*n, out),
        Gx::Text(text) => put_string(text, out),
        Gx::NullInt | Gx::CountAll | Gx::Fold(_, _, _) => put_null(SqlType::Integer, out),
        Gx::NullText => put_null(SqlType::Varchar, out),
        Gx::Col(q, k) => put_column(scope, *q, *k, out),
        Gx::Scalar(q) => put_scalar(scope, *q, out),
        Gx::Chain(a, list) => {
            put_repeated(b"(", list.len(), out)?;
            put_term(scope, a, out)?;
            put_links(scope, list, out)
        }
        Gx::Case(list, a) => {
            put_word(b"(CASE", out)?;
            put_arms(scope, list, out)?;
            put_one(b" ELSE ", scope, a, b" END)", out)
        }
        Gx::Neg(a) => put_one(b"(- ", scope, a, b")", out),
    }
}

// An expression between two words.
#[cycle(terms)]
#[inline(never)]
fn put_one(
    before: &[u8],
    scope: &Scope<'_>,
    x: &Gx,
    behind: &[u8],
    out: &mut Text,
) -> Result<(), OutOfMemory>
    ensures { OnOk result (out.new ≡ out.old ++ (before.now ++ spec.term_text scope.now (term x.now) ++ behind.now)) }
{
    put_word(before, out)?;
    put_term(scope, x, out)?;
    put_word(behind, out)
}

// An operand behind a first one, and what closes its operator.
#[cycle(terms)]
#[inline(never)]
fn put_link(scope: &Scope<'_>, link: &Link, out: &mut Text) -> Result<(), OutOfMemory>
    ensures { OnOk result (out.new ≡ out.old ++ spec.link_text scope.now (shown_link link.now)) }
{
    put_op(link.op, out)?;
    put_one(b"", scope, &link.right, b")", out)
}

// The operands behind a first one.
#[cycle(terms)]
fn put_links(scope: &Scope<'_>, list: &[Link], out: &mut Text) -> Result<(), OutOfMemory>
    ensures { OnOk result (out.new ≡ out.old ++ spec.links_text scope.now (links list.now)) }
{
    for link in list {
        put_link(scope, link, out)?;
    }
    Ok(())
}

// An arm of a CASE.
#[cycle(terms)]
#[inline(never)]
fn put_arm(scope: &Scope<'_>, arm: &Arm, out: &mut Text) -> Result<(), OutOfMemory>
    ensures { OnOk result (out.new ≡ out.old ++ spec.choice_text scope.now (choice arm.now)) }
{
    put_word(b" WHEN ", out)?;
    put_cond(scope, None, Reading::True, &arm.when, out)?;
    put_one(b" THEN ", scope, &arm.then, b"", out)
}

// The arms of a CASE.
#[cycle(terms)]
fn put_arms(scope: &Scope<'_>, list: &[Arm], out: &mut Text) -> Result<(), OutOfMemory>
    ensures { OnOk result (out.new ≡ out.old ++ spec.choices_text scope.now (choices list.now)) }
{
    for arm in list {
        put_arm(scope, arm, out)?;
    }
    Ok(())
}

/// Adds a reading of a condition; where it is the first operand of a chain, by the connective of the
/// chain.
#[cycle(terms)]
pub fn put_cond(
    scope: &Scope<'_>,
    chain: Option<Connective>,
    reading: Reading,
    c: &Gc,
    out: &mut Text,
) -> Result<(), OutOfMemory>
    ensures { OnOk result (out.new ≡ out.old ++ spec.cond_text scope.now chain reading (cond c.now)) }
{
    match c {
        Gc::True => put_always(reading, out),
        Gc::Compare(s, a, b) => {
            let form = form_of(reading, *s, holds_value(scope, a), holds_value(scope, b));
            put_open_form(form, out)?;
            put_term(scope, a, out)?;
            put_right(scope, form, b, out)
        }
        Gc::IsNull(a) => put_null_test(scope, reading, a, out),
        Gc::All(a, list) => {
            let connective = of_and(reading);
            put_open_list(chain, connective, list, out)?;
            put_cond(scope, inner_of(chain, connective, list), reading, a, out)?;
            put_conds(scope, reading, connective, list, out)?;
            put_close_list(chain, connective, list, out)
        }
        Gc::Any(a, list) => {
            let connective = of_or(reading);
            put_open_list(chain, connective, list, out)?;
            put_cond(scope, inner_of(chain, connective, list), reading, a, out)?;
            put_conds(scope, reading, connective, list, out)?;
            put_close_list(chain, connective, list, out)
        }
        Gc::Not(a) => put_cond(scope, chain, turned(reading), a, out),
        Gc::Some(q, a) => {
            put_open_some(reading, out)?;
            put_source(scope, *q, out)?;
            put_inner(scope, of_some(reading), a, out)
        }
        Gc::Every(q, a) => {
            put_open_every(reading, out)?;
            put_source(scope, *q, out)?;
            put_inner(scope, of_every(reading), a, out)
        }
    }
}

// What stands behind the left operand of a comparison.
#[cycle(terms)]
#[inline(never)]
fn put_right(scope: &Scope<'_>, form: Form, b: &Gx, out: &mut Text) -> Result<(), OutOfMemory>
    ensures { OnOk result (out.new ≡ out.old ++ (comparison_word form.comparison ++ spec.term_text scope.now (term b.now) ++ spec.close_form form)) }
{
    put_comparison(form.comparison, out)?;
    put_term(scope, b, out)?;
    put_close_form(form, out)
}

// The test for null.
#[cycle(terms)]
#[inline(never)]
fn put_null_test(
    scope: &Scope<'_>,
    reading: Reading,
    a: &Gx,
    out: &mut Text,
) -> Result<(), OutOfMemory>
    ensures { OnOk result (out.new ≡ out.old ++ spec.cond_text scope.now None reading (t.is_null (term a.now))) }
{
    match reading {
        Reading::True | Reading::NotFalse => put_one(b"(", scope, a, b" IS NULL)", out),
        Reading::False | Reading::NotTrue => put_one(b"(", scope, a, b" IS NOT NULL)", out),
    }
}

// The test of an EXISTS, and what closes it.
#[cycle(terms)]
#[inline(never)]
fn put_inner(scope: &Scope<'_>, reading: Reading, c: &Gc, out: &mut Text) -> Result<(), OutOfMemory>
    ensures { OnOk result (out.new ≡ out.old ++ (spec.cond_text scope.now None reading (cond c.now) ++ codes "))")) }
{
    put_cond(scope, None, reading, c, out)?;
    put_word(b"))", out)
}

// The conditions behind a first one.
#[cycle(terms)]
fn put_conds(
    scope: &Scope<'_>,
    reading: Reading,
    connective: Connective,
    list: &[Gc],
    out: &mut Text,
) -> Result<(), OutOfMemory>
    ensures { OnOk result (out.new ≡ out.old ++ spec.next_conds scope.now reading connective (conds list.now)) }
{
    for c in list {
        put_next(scope, reading, connective, c, out)?;
    }
    Ok(())
}

// A condition behind a first one.
#[cycle(terms)]
#[inline(never)]
fn put_next(
    scope: &Scope<'_>,
    reading: Reading,
    connective: Connective,
    c: &Gc,
    out: &mut Text,
) -> Result<(), OutOfMemory>
    ensures { OnOk result (out.new ≡ out.old ++ spec.next_cond scope.now reading connective (cond c.now)) }
{
    put_connective(connective, out)?;
    put_cond(scope, None, reading, c, out)
}
