// Names of tables and columns, in quotes.
ghost use Rattle.std.specs.Prelude.{◌≡◌, ◌++◌, map, OnOk};
ghost use Rattle.std.specs.Char.{to_ascii_lowercase};
ghost use Rattle.std.specs.List.{list_all};
ghost use Rattle.graph_print.specs.TermText.{doubled};
ghost use Rattle.graph_sql.specs.BodyText as spec;

use graph_print::{put_quoted, put_word};
use shared_types::{OutOfMemory, Text};

fn is_in_regular(c: char) -> bool
    ensures { result ≡ spec.in_regular c }
{
    c.is_ascii_uppercase() || c.is_ascii_digit() || c == '_'
}

fn are_in_regular(chars: &[char]) -> bool
    ensures { result ≡ list_all spec.in_regular chars.now }
{
    for c in chars {
        if !is_in_regular(*c) {
            return false;
        }
    }
    true
}

// Whether the schema may write the name without quotes.
fn is_regular(name: &[char]) -> bool
    ensures { result ≡ spec.is_regular name.now }
{
    match name {
        [] => false,
        [first, rest @ ..] => first.is_ascii_uppercase() && are_in_regular(rest),
    }
}

// The characters in small letters, each quote twice.
fn put_small(name: &Text, out: &mut Text) -> Result<(), OutOfMemory>
    ensures { OnOk result (out.new ≡ out.old ++ doubled 34 (map to_ascii_lowercase name.now)) }
{
    for c in name.as_slice() {
        let small = c.to_ascii_lowercase();
        if small == '"' {
            out.push(small)?;
        }
        out.push(small)?;
    }
    Ok(())
}

/// Adds the name of a table or a column as PostgreSQL has it.
#[tactic(auto, unfolding(crate::specs::BodyText::name_text))]
pub fn put_name(name: &Text, out: &mut Text) -> Result<(), OutOfMemory>
    ensures { OnOk result (out.new ≡ out.old ++ spec.name_text name.now) }
{
    if is_regular(name.as_slice()) {
        put_word(b"\"", out)?;
        put_small(name, out)?;
        put_word(b"\"", out)
    } else {
        put_quoted(name, out)
    }
}
