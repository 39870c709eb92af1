// Lists of places from 1.
ghost use Rattle.std.specs.Prelude.{◌≡◌, ◌++◌, decimal, OnOk};
ghost use Rattle.graph_sql.specs.BodyText.{columns_text, numbered};
ghost use Rattle.graph_sql.specs.Lists as spec;

use graph_print::{put_number, put_word};
use shared_types::{OutOfMemory, Text};

/// What is written of a place.
#[derive(Clone, Copy)]
pub enum Listed {
    /// The name of a column.
    Name,
    /// The number.
    Number,
    /// A column of the quantifier of this number.
    Of(usize),
    /// A column of the root, ascending.
    Ascending,
}

// A place.
fn put_place(listed: Listed, k: usize, out: &mut Text) -> Result<(), OutOfMemory>
    ensures { OnOk result (out.new ≡ out.old ++ spec.listed_text listed k) }
{
    match listed {
        Listed::Name => put_before(b"c", k, out),
        Listed::Number => put_number(k, out),
        Listed::Of(q) => {
            put_before(b"q", q, out)?;
            put_before(b".c", k, out)
        }
        Listed::Ascending => {
            put_before(b"q0.c", k, out)?;
            put_word(b" ASC NULLS FIRST", out)
        }
    }
}

/// Adds a word and a number.
pub fn put_before(word: &[u8], k: usize, out: &mut Text) -> Result<(), OutOfMemory>
    ensures { OnOk result (out.new ≡ out.old ++ (word.now ++ decimal k)) }
{
    put_word(word, out)?;
    put_number(k, out)
}

/// Adds what stands between an element of a list, by its place from 0, and the one before it.
pub fn put_comma(i: usize, out: &mut Text) -> Result<(), OutOfMemory>
    ensures { OnOk result (out.new ≡ out.old ++ spec.comma i) }
{
    if i == 0 { Ok(()) } else { put_word(b", ", out) }
}

/// Adds the places from 1 to n.
pub fn put_numbered(listed: Listed, n: usize, out: &mut Text) -> Result<(), OutOfMemory>
    ensures { OnOk result (out.new ≡ out.old ++ numbered (spec.listed_text listed) n) }
{
    for i in 0..n {
        put_comma(i, out)?;
        put_place(listed, i + 1, out)?;
    }
    Ok(())
}

/// Adds the columns of a FROM item.
pub fn put_columns(n: usize, out: &mut Text) -> Result<(), OutOfMemory>
    ensures { OnOk result (out.new ≡ out.old ++ columns_text n) }
{
    put_word(b" (", out)?;
    put_numbered(Listed::Name, n, out)?;
    put_word(b")", out)
}
