// Words, numbers and quoted characters, added to a text.
ghost use Rattle.std.specs.Prelude.{◌≡◌, ◌++◌, decimal, OnOk};
ghost use Rattle.std.specs.Fmt.{signed_decimal};
ghost use Rattle.graph_print.specs.TermText.{doubled};

use itoa::Buffer;
use shared_types::{OutOfMemory, Text};

/// Adds ASCII characters. It fails only for want of memory, and then a part of them may stand there.
pub fn put_word(word: &[u8], out: &mut Text) -> Result<(), OutOfMemory>
    ensures { OnOk result (out.new ≡ out.old ++ word.now) }
{
    for b in word {
        out.push(*b as char)?;
    }
    Ok(())
}

/// Adds a number in decimal. It fails only for want of memory, and then a part of it may stand there.
pub fn put_number(n: usize, out: &mut Text) -> Result<(), OutOfMemory>
    ensures { OnOk result (out.new ≡ out.old ++ decimal n) }
{
    let mut buffer = Buffer::new();
    put_word(buffer.format(n).as_bytes(), out)
}

/// Adds a signed number in decimal.
pub fn put_integer(n: i64, out: &mut Text) -> Result<(), OutOfMemory>
    ensures { OnOk result (out.new ≡ out.old ++ signed_decimal n) }
{
    let mut buffer = Buffer::new();
    put_word(buffer.format(n).as_bytes(), out)
}

/// Adds characters, each such mark twice.
pub fn put_doubled(mark: char, text: &Text, out: &mut Text) -> Result<(), OutOfMemory>
    ensures { OnOk result (out.new ≡ out.old ++ doubled mark text.now) }
{
    for c in text.as_slice() {
        if *c == mark {
            out.push(*c)?;
        }
        out.push(*c)?;
    }
    Ok(())
}
