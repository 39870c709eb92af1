// Expressions and conditions, added to a text.
ghost use Rattle.std.specs.Prelude.{◌≡◌, ◌++◌, codes, decimal, length, OnOk};
ghost use Rattle.graph_print.specs.Places.{place_in};
ghost use Rattle.graph_print.specs.TermText as spec;
ghost use Rattle.qgm_terms.specs.Shown.{aggregate, choice, choices, cond, conds, links, sign, taken, term};
ghost use Rattle.qgm_terms.specs.Terms as t;

use crate::numbers::Places;
use crate::writing::{put_doubled, put_integer, put_number, put_word};
use qgm_terms::{Aggregate, Arm, Gc, Gx, Link, Op, QuantId, Sign, Taken};
use shared_types::{OutOfMemory, Text};

fn put_int(n: i64, out: &mut Text) -> Result<(), OutOfMemory>
    ensures { OnOk result (out.new ≡ out.old ++ spec.term_text (λ q. q) (t.int n)) }
{
    put_word(b"(int ", out)?;
    put_integer(n, out)?;
    put_word(b")", out)
}

fn put_text(text: &Text, out: &mut Text) -> Result<(), OutOfMemory>
    ensures { OnOk result (out.new ≡ out.old ++ spec.term_text (λ q. q) (t.text text.now)) }
{
    put_word(b"(text '", out)?;
    put_doubled('\'', text, out)?;
    put_word(b"')", out)
}

fn put_column(at: &Places, q: QuantId, k: usize, out: &mut Text) -> Result<(), OutOfMemory>
    ensures { OnOk result (out.new ≡ out.old ++ spec.term_text (place_in at.now) (t.col q k)) }
{
    put_word(b"(col ", out)?;
    put_number(at.place_of(q), out)?;
    put_word(b" ", out)?;
    put_number(k, out)?;
    put_word(b")", out)
}

fn put_scalar(at: &Places, q: QuantId, out: &mut Text) -> Result<(), OutOfMemory>
    ensures { OnOk result (out.new ≡ out.old ++ spec.term_text (place_in at.now) (t.scalar q)) }
{
    put_word(b"(scalar ", out)?;
    put_number(at.place_of(q), out)?;
    put_word(b")", out)
}

// A word, and then the number of a quantifier.
fn put_node(word: &[u8], at: &Places, q: QuantId, out: &mut Text) -> Result<(), OutOfMemory>
    ensures { OnOk result (out.new ≡ out.old ++ (word.now ++ decimal (place_in at.now q))) }
{
    put_word(word, out)?;
    put_number(at.place_of(q), out)
}

fn put_op(op: Op, out: &mut Text) -> Result<(), OutOfMemory>
    ensures { OnOk result (out.new ≡ out.old ++ spec.open_op op) }
{
    match op {
        Op::Add => put_word(b"(add ", out),
        Op::Sub => put_word(b"(sub ", out),
        Op::Mul => put_word(b"(mul ", out),
        Op::Div => put_word(b"(div ", out),
        Op::Cat => put_word(b"(cat ", out),
    }
}

fn put_sign(s: Sign, out: &mut Text) -> Result<(), OutOfMemory>
    ensures { OnOk result (out.new ≡ out.old ++ spec.open_sign (sign s)) }
{
    match s {
        Sign::Eq => put_word(b"(eq ", out),
        Sign::Ne => put_word(b"(ne ", out),
        Sign::Lt => put_word(b"(lt ", out),
        Sign::Le => put_word(b"(le ", out),
        Sign::Gt => put_word(b"(gt ", out),
        Sign::Ge => put_word(b"(ge ", out),
        Sign::Same => put_word(b"(same ", out),
        Sign::Like => put_word(b"(like ", out),
    }
}

fn put_aggregate(f: Aggregate, each: Taken, out: &mut Text) -> Result<(), OutOfMemory>
    ensures { OnOk result (out.new ≡ out.old ++ spec.open_aggregate (aggregate f) (taken each)) }
{
    match each {
        Taken::All => match f {
            Aggregate::Single => put_word(b"(single ", out),
            Aggregate::Count => put_word(b"(count ", out),
            Aggregate::Sum => put_word(b"(sum ", out),
            Aggregate::Avg => put_word(b"(avg ", out),
            Aggregate::Min => put_word(b"(min ", out),
            Aggregate::Max => put_word(b"(max ", out),
        },
        Taken::Once => match f {
            Aggregate::Single => put_word(b"(single-distinct ", out),
            Aggregate::Count => put_word(b"(count-distinct ", out),
            Aggregate::Sum => put_word(b"(sum-distinct ", out),
            Aggregate::Avg => put_word(b"(avg-distinct ", out),
            Aggregate::Min => put_word(b"(min-distinct ", out),
            Aggregate::Max => put_word(b"(max-distinct ", out),
        },
    }
}

// What opens the left nest of a chain, from the outermost in.
fn put_open_links(list: &[Link], out: &mut Text) -> Result<(), OutOfMemory>
    ensures { OnOk result (out.new ≡ out.old ++ spec.open_links (links list.now)) }
{
    let mut i = list.len();
    while i > 0 {
        i -= 1;
        put_op(list[i].op, out)?;
    }
    Ok(())
}

/// Adds a word so often. It fails only for want of memory.
pub fn put_repeated(word: &[u8], n: usize, out: &mut Text) -> Result<(), OutOfMemory>
    ensures { OnOk result (out.new ≡ out.old ++ spec.repeated word.now n) }
{
    for _again in 0..n {
        put_word(word, out)?;
    }
    Ok(())
}

/// Adds an expression, whose quantifiers have their places as numbers.
#[cycle(terms)]
pub fn put_term(at: &Places, x: &Gx, out: &mut Text) -> Result<(), OutOfMemory>
    ensures { OnOk result (out.new ≡ out.old ++ spec.term_text (place_in at.now) (term x.now)) }
{
    match x {
        Gx::Int(n) => put_int(*n, out),
        Gx::Text(text) => put_text(text, out),
        Gx::NullInt => put_word(b"(null int)", out),
        Gx::NullText => put_word(b"(null text)", out),
        Gx::CountAll => put_word(b"(count-all)", out),
        Gx::Col(q, k) => put_column(at, *q, *k, out),
        Gx::Scalar(q) => put_scalar(at, *q, out),
        Gx::Chain(a, list) => {
            put_open_links(list, out)?;
            put_term(at, a, out)?;
            put_links(at, list, out)
        }
        Gx::Case(list, a) => {
            put_word(b"(case ", out)?;
            put_arms(at, list, out)?;
            put_one(b"else ", at, a, out)
        }
        Gx::Neg(a) => put_one(b"(neg ", at, a, out),
        Gx::Fold(f, each, a) => {
            put_aggregate(*f, *each, out)?;
            put_term(at, a, out)?;
            put_word(b")", out)
        }
    }
}

// A word, an expression, and a closing bracket.
#[cycle(terms)]
#[inline(never)]
fn put_one(word: &[u8], at: &Places, x: &Gx, out: &mut Text) -> Result<(), OutOfMemory>
    ensures { OnOk result (out.new ≡ out.old ++ (word.now ++ spec.term_text (place_in at.now) (term x.now) ++ codes ")")) }
{
    put_word(word, out)?;
    put_term(at, x, out)?;
    put_word(b")", out)
}

// The operands behind a first one, each with what closes its operator.
#[cycle(terms)]
fn put_links(at: &Places, list: &[Link], out: &mut Text) -> Result<(), OutOfMemory>
    ensures { OnOk result (out.new ≡ out.old ++ spec.links_text (place_in at.now) (links list.now)) }
{
    for link in list {
        put_one(b" ", at, &link.right, out)?;
    }
    Ok(())
}

// An arm of a CASE.
#[cycle(terms)]
#[inline(never)]
fn put_arm(at: &Places, arm: &Arm, out: &mut Text) -> Result<(), OutOfMemory>
    ensures { OnOk result (out.new ≡ out.old ++ spec.choice_text (place_in at.now) (choice arm.now)) }
{
    put_cond(at, &arm.when, out)?;
    put_word(b" ", out)?;
    put_term(at, &arm.then, out)?;
    put_word(b" ", out)
}

// The arms of a CASE.
#[cycle(terms)]
fn put_arms(at: &Places, list: &[Arm], out: &mut Text) -> Result<(), OutOfMemory>
    ensures { OnOk result (out.new ≡ out.old ++ spec.choices_text (place_in at.now) (choices list.now)) }
{
    for arm in list {
        put_arm(at, arm, out)?;
    }
    Ok(())
}

/// Adds a condition, whose quantifiers have their places as numbers.
#[cycle(terms)]
pub fn put_cond(at: &Places, c: &Gc, out: &mut Text) -> Result<(), OutOfMemory>
    ensures { OnOk result (out.new ≡ out.old ++ spec.cond_text (place_in at.now) (cond c.now)) }
{
    match c {
        Gc::True => put_word(b"(true)", out),
        Gc::Compare(s, a, b) => {
            put_sign(*s, out)?;
            put_term(at, a, out)?;
            put_one(b" ", at, b, out)
        }
        Gc::IsNull(a) => put_one(b"(isnull ", at, a, out),
        Gc::All(a, list) => {
            put_repeated(b"(and ", list.len(), out)?;
            put_cond(at, a, out)?;
            put_conds(at, list, out)
        }
        Gc::Any(a, list) => {
            put_repeated(b"(or ", list.len(), out)?;
            put_cond(at, a, out)?;
            put_conds(at, list, out)
        }
        Gc::Not(a) => put_next(b"(not ", at, a, out),
        Gc::Some(q, a) => {
            put_node(b"(some ", at, *q, out)?;
            put_next(b" ", at, a, out)
        }
        Gc::Every(q, a) => {
            put_node(b"(every ", at, *q, out)?;
            put_next(b" ", at, a, out)
        }
    }
}

// A word, a condition, and a closing bracket.
#[cycle(terms)]
#[inline(never)]
fn put_next(word: &[u8], at: &Places, c: &Gc, out: &mut Text) -> Result<(), OutOfMemory>
    ensures { OnOk result (out.new ≡ out.old ++ (word.now ++ spec.cond_text (place_in at.now) (cond c.now) ++ codes ")")) }
{
    put_word(word, out)?;
    put_cond(at, c, out)?;
    put_word(b")", out)
}

// The conditions behind a first one, each with what closes its AND or OR.
#[cycle(terms)]
fn put_conds(at: &Places, list: &[Gc], out: &mut Text) -> Result<(), OutOfMemory>
    ensures { OnOk result (out.new ≡ out.old ++ spec.conds_text (place_in at.now) (conds list.now)) }
{
    for c in list {
        put_next(b" ", at, c, out)?;
    }
    Ok(())
}
