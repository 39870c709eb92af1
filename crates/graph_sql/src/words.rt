// The words of expressions and tests.
ghost use Rattle.std.specs.Prelude.{◌≡◌, ◌++◌, OnOk, None};
ghost use Rattle.graph_print.specs.TermText.{doubled};
ghost use Rattle.graph_sql.specs.Readings as readings;
ghost use Rattle.graph_sql.specs.Scoped as spec;
ghost use Rattle.graph_sql.specs.Text as text_spec;
ghost use Rattle.qgm_terms.specs.Shown.{conds};
ghost use Rattle.graph_sql.specs.Statement as s;

use crate::reading::{Connective, Reading};
use graph_print::{put_doubled, put_integer, put_word};
use qgm_terms::{Gc, Op};
use shared_types::{OutOfMemory, Text};
use sql_value::SqlType;

/// Adds a number as a cell.
pub fn put_number_cell(n: i64, out: &mut Text) -> Result<(), OutOfMemory>
    ensures { OnOk result (out.new ≡ out.old ++ text_spec.expression_text (λ q. q) (s.number n)) }
{
    put_word(b"BIGINT '", out)?;
    put_integer(n, out)?;
    put_word(b"'", out)
}

// A text between two words, each quote twice.
fn put_between(before: &[u8], text: &Text, behind: &[u8], out: &mut Text) -> Result<(), OutOfMemory>
    ensures { OnOk result (out.new ≡ out.old ++ (before.now ++ doubled 39 text.now ++ behind.now)) }
{
    put_word(before, out)?;
    put_doubled('\'', text, out)?;
    put_word(behind, out)
}

/// Adds a text as a cell.
pub fn put_string(text: &Text, out: &mut Text) -> Result<(), OutOfMemory>
    ensures { OnOk result (out.new ≡ out.old ++ text_spec.expression_text (λ q. q) (s.string text.now)) }
{
    put_between(b"(TEXT '", text, b"' COLLATE \"C\")", out)
}

/// Adds a null of a type.
pub fn put_null(column: SqlType, out: &mut Text) -> Result<(), OutOfMemory>
    ensures { OnOk result (out.new ≡ out.old ++ text_spec.null_word column) }
{
    match column {
        SqlType::Integer => put_word(b"CAST(NULL AS bigint)", out),
        SqlType::Varchar => put_word(b"(CAST(NULL AS text) COLLATE \"C\")", out),
    }
}

/// Adds an operator between its operands.
pub fn put_op(op: Op, out: &mut Text) -> Result<(), OutOfMemory>
    ensures { OnOk result (out.new ≡ out.old ++ text_spec.op_word op) }
{
    match op {
        Op::Add => put_word(b" + ", out),
        Op::Sub => put_word(b" - ", out),
        Op::Mul => put_word(b" * ", out),
        Op::Div => put_word(b" / ", out),
        Op::Cat => put_word(b" || ", out),
    }
}

/// Adds AND or OR between its operands.
pub fn put_connective(connective: Connective, out: &mut Text) -> Result<(), OutOfMemory>
    ensures { OnOk result (out.new ≡ out.old ++ text_spec.connective_word connective) }
{
    match connective {
        Connective::And => put_word(b" AND ", out),
        Connective::Or => put_word(b" OR ", out),
    }
}

// A bracket that opens a chain, unless the chain goes on.
fn put_open_chain(
    chain: Option<Connective>,
    connective: Connective,
    out: &mut Text,
) -> Result<(), OutOfMemory>
    ensures { OnOk result (out.new ≡ out.old ++ text_spec.open_chain chain connective) }
{
    match (chain, connective) {
        (Some(Connective::And), Connective::And) | (Some(Connective::Or), Connective::Or) => Ok(()),
        (None, _)
        | (Some(Connective::And), Connective::Or)
        | (Some(Connective::Or), Connective::And) => put_word(b"(", out),
    }
}

// A bracket that closes a chain, unless the chain goes on.
fn put_close_chain(
    chain: Option<Connective>,
    connective: Connective,
    out: &mut Text,
) -> Result<(), OutOfMemory>
    ensures { OnOk result (out.new ≡ out.old ++ text_spec.close_chain chain connective) }
{
    match (chain, connective) {
        (Some(Connective::And), Connective::And) | (Some(Connective::Or), Connective::Or) => Ok(()),
        (None, _)
        | (Some(Connective::And), Connective::Or)
        | (Some(Connective::Or), Connective::And) => put_word(b")", out),
    }
}

/// The chain of which the first of these conditions is the first operand.
pub fn inner_of(
    chain: Option<Connective>,
    connective: Connective,
    list: &[Gc],
) -> Option<Connective>
    ensures { result ≡ spec.inner_chain chain connective (conds list.now) }
{
    match list {
        [] => chain,
        [_, ..] => Some(connective),
    }
}

/// Adds a bracket that opens a chain, where there is another operand.
pub fn put_open_list(
    chain: Option<Connective>,
    connective: Connective,
    list: &[Gc],
    out: &mut Text,
) -> Result<(), OutOfMemory>
    ensures { OnOk result (out.new ≡ out.old ++ spec.open_list chain connective (conds list.now)) }
{
    match list {
        [] => Ok(()),
        [_, ..] => put_open_chain(chain, connective, out),
    }
}

/// Adds a bracket that closes a chain, where there is another operand.
pub fn put_close_list(
    chain: Option<Connective>,
    connective: Connective,
    list: &[Gc],
    out: &mut Text,
) -> Result<(), OutOfMemory>
    ensures { OnOk result (out.new ≡ out.old ++ spec.close_list chain connective (conds list.now)) }
{
    match list {
        [] => Ok(()),
        [_, ..] => put_close_chain(chain, connective, out),
    }
}

/// Adds the reading of a condition that is always true.
pub fn put_always(reading: Reading, out: &mut Text) -> Result<(), OutOfMemory>
    ensures { OnOk result (out.new ≡ out.old ++ text_spec.test_text (λ q. q) None (readings.always_sql reading)) }
{
    match reading {
        Reading::True | Reading::NotFalse => put_word(b"(TRUE)", out),
        Reading::False | Reading::NotTrue => put_word(b"(FALSE)", out),
    }
}

/// Adds what opens an EXISTS for a condition of some row.
pub fn put_open_some(reading: Reading, out: &mut Text) -> Result<(), OutOfMemory>
    ensures { OnOk result (out.new ≡ out.old ++ spec.open_some reading) }
{
    match reading {
        Reading::True | Reading::NotFalse => put_word(b"(EXISTS (SELECT 1 FROM ", out),
        Reading::False | Reading::NotTrue => put_word(b"(NOT EXISTS (SELECT 1 FROM ", out),
    }
}

/// Adds what opens an EXISTS for a condition of every row.
pub fn put_open_every(reading: Reading, out: &mut Text) -> Result<(), OutOfMemory>
    ensures { OnOk result (out.new ≡ out.old ++ spec.open_every reading) }
{
    match reading {
        Reading::True | Reading::NotFalse => put_word(b"(NOT EXISTS (SELECT 1 FROM ", out),
        Reading::False | Reading::NotTrue => put_word(b"(EXISTS (SELECT 1 FROM ", out),
    }
}
