// Expressions and conditions in postfix notation: operands, and then what takes them. So chains that
// are held flat and nested to the left are the same list.
ghost use Rattle.std.specs.Prelude.{◌≡◌, ◌++◌, ◌∷◌, [], OnOk, map};
ghost use Rattle.qgm_terms.specs.Shown.{choices, cond, conds, links, term};
ghost use Rattle.qgm_term_search.specs.Postfix as spec;

use qgm_terms::{Aggregate, Arm, Gc, Gx, Link, Op, QuantId, Sign, Taken};
use shared_types::{OutOfMemory, Text};

// What takes the operands before it, and what stands without one.
#[derive(Clone, Copy, PartialEq, Eq)]
pub(crate) enum Form {
    // An empty text; the characters behind it go into it.
    Text,
    NullInt,
    NullText,
    Neg,
    // A CASE without an arm; each arm behind it goes into it.
    Case,
    When,
    Else,
    CountAll,
    True,
    IsNull,
    And,
    Or,
    Not,
}

// A token of postfix notation.
#[derive(Clone, Copy, PartialEq, Eq)]
pub(crate) enum Token {
    Int(i64),
    Char(char),
    Col(QuantId, usize),
    Scalar(QuantId),
    Op(Op),
    Fold(Aggregate, Taken),
    Compare(Sign),
    Form(Form),
    Some(QuantId),
    Every(QuantId),
}

fn add_form(form: Form, out: &mut Vec<Token>) -> Result<(), OutOfMemory>
    ensures { OnOk result (out.new.items ≡ out.old.items ++ spec.form form) }
{
    Ok(out.push(Token::Form(form))?)
}

fn add_text(text: &Text, out: &mut Vec<Token>) -> Result<(), OutOfMemory>
    ensures { OnOk result (out.new.items ≡ out.old.items ++ spec.text_tokens text.now) }
{
    add_form(Form::Text, out)?;
    for c in text.as_slice() {
        out.push(Token::Char(*c))?;
    }
    Ok(())
}

// Appends the tokens of an expression.
#[cycle(tokens)]
pub(crate) fn add_tokens(x: &Gx, out: &mut Vec<Token>) -> Result<(), OutOfMemory>
    ensures { OnOk result (out.new.items ≡ out.old.items ++ spec.tokens (term x.now)) }
{
    match x {
        Gx::Int(n) => Ok(out.push(Token::Int(*n))?),
        Gx::Text(text) => add_text(text, out),
        Gx::NullInt => add_form(Form::NullInt, out),
        Gx::NullText => add_form(Form::NullText, out),
        Gx::CountAll => add_form(Form::CountAll, out),
        Gx::Col(q, k) => Ok(out.push(Token::Col(*q, *k))?),
        Gx::Scalar(q) => Ok(out.push(Token::Scalar(*q))?),
        Gx::Chain(a, list) => {
            add_tokens(a, out)?;
            add_tokens_of_links(list, out)
        }
        Gx::Case(list, a) => {
            add_form(Form::Case, out)?;
            add_tokens_of_arms(list, out)?;
            add_tokens(a, out)?;
            add_form(Form::Else, out)
        }
        Gx::Neg(a) => {
            add_tokens(a, out)?;
            add_form(Form::Neg, out)
        }
        Gx::Fold(f, each, a) => {
            add_tokens(a, out)?;
            Ok(out.push(Token::Fold(*f, *each))?)
        }
    }
}

#[cycle(tokens)]
fn add_tokens_of_links(list: &[Link], out: &mut Vec<Token>) -> Result<(), OutOfMemory>
    ensures { OnOk result (out.new.items ≡ out.old.items ++ spec.tokens_links (links list.now)) }
{
    for link in list {
        add_tokens(&link.right, out)?;
        out.push(Token::Op(link.op))?;
    }
    Ok(())
}

#[cycle(tokens)]
fn add_tokens_of_arms(list: &[Arm], out: &mut Vec<Token>) -> Result<(), OutOfMemory>
    ensures { OnOk result (out.new.items ≡ out.old.items ++ spec.tokens_choices (choices list.now)) }
{
    for arm in list {
        add_tokens_of_cond(&arm.when, out)?;
        add_tokens(&arm.then, out)?;
        add_form(Form::When, out)?;
    }
    Ok(())
}

// Appends the tokens of a condition.
#[cycle(tokens)]
pub(crate) fn add_tokens_of_cond(c: &Gc, out: &mut Vec<Token>) -> Result<(), OutOfMemory>
    ensures { OnOk result (out.new.items ≡ out.old.items ++ spec.tokens_cond (cond c.now)) }
{
    match c {
        Gc::True => add_form(Form::True, out),
        Gc::Compare(s, a, b) => {
            add_tokens(a, out)?;
            add_tokens(b, out)?;
            Ok(out.push(Token::Compare(*s))?)
        }
        Gc::IsNull(a) => {
            add_tokens(a, out)?;
            add_form(Form::IsNull, out)
        }
        Gc::All(a, list) => {
            add_tokens_of_cond(a, out)?;
            add_tokens_of_conds(list, Form::And, out)
        }
        Gc::Any(a, list) => {
            add_tokens_of_cond(a, out)?;
            add_tokens_of_conds(list, Form::Or, out)
        }
        Gc::Not(a) => {
            add_tokens_of_cond(a, out)?;
            add_form(Form::Not, out)
        }
        Gc::Some(q, a) => {
            add_tokens_of_cond(a, out)?;
            Ok(out.push(Token::Some(*q))?)
        }
        Gc::Every(q, a) => {
            add_tokens_of_cond(a, out)?;
            Ok(out.push(Token::Every(*q))?)
        }
    }
}

// Those of the conditions behind a first one, each with what joins it.
#[cycle(tokens)]
fn add_tokens_of_conds(list: &[Gc], form: Form, out: &mut Vec<Token>) -> Result<(), OutOfMemory>
    ensures { OnOk result (out.new.items ≡ out.old.items ++ spec.tokens_conds form (conds list.now)) }
{
    for c in list {
        add_tokens_of_cond(c, out)?;
        add_form(form, out)?;
    }
    Ok(())
}
