// The sections of a script.
ghost use Rattle.std.specs.Prelude.{◌<◌, IfSome};

use std::alloc::{AllocError, Global};
use std::str::SplitWhitespace;

/// What a section is, by the first word of its heading.
#[derive(Drop)]
pub enum Heading {
    /// `schema`: the text of a schema.
    Schema,
    /// `table NAME`: the file of a table.
    Table(String),
    /// `query`: a query, and what is printed for it.
    Query,
    /// `valid`: a query that isn't refused, whatever its rows are.
    Valid,
    /// `command WORD..`: a query, and what is printed for a command of these words.
    Command(Vec<String>),
    /// None of these.
    Unknown,
}

/// A section: a heading, and the lines up to a blank one.
#[derive(Drop)]
pub struct Section {
    /// The number of its heading's line, from 1.
    pub line: usize,
    pub heading: Heading,
    /// Whether its text is written in bytes: the heading ends in `bytes`.
    pub in_bytes: bool,
    /// Its lines, up to `----` where there is one.
    pub text: String,
    /// The lines after `----`.
    pub wanted: Option<String>,
}

// The words that are left.
fn rest(alloc: Global, words: SplitWhitespace<'_>) -> Result<Vec<String>, AllocError> {
    let mut rest = Vec::new(alloc);
    for word in words {
        rest.push(String::from_str(alloc, word)?)?;
    }
    Ok(rest)
}

// What a heading says, and whether `bytes` stands at its end.
fn heading_of(alloc: Global, line: &str) -> Result<(Heading, bool), AllocError> {
    let mut words = line.split_whitespace();
    let heading = match words.next() {
        Some("schema") => Heading::Schema,
        Some("table") => match words.next() {
            Some(name) => Heading::Table(String::from_str(alloc, name)?),
            None => Heading::Unknown,
        },
        Some("query") => Heading::Query,
        Some("valid") => Heading::Valid,
        Some("command") => return Ok((Heading::Command(rest(alloc, words)?), false)),
        _ => Heading::Unknown,
    };
    Ok(match (words.next(), words.next()) {
        (None, _) => (heading, false),
        (Some("bytes"), None) => (heading, true),
        (Some(_), _) => (Heading::Unknown, false),
    })
}

// A section that so far has its heading alone.
fn headed(alloc: Global, line: usize, text: &str) -> Result<Section, AllocError> {
    let (heading, in_bytes) = heading_of(alloc, text)?;
    Ok(Section {
        line,
        heading,
        in_bytes,
        text: String::new(alloc),
        wanted: None,
    })
}

// A line more, with its line feed.
fn append(text: &mut String, line: &str) -> Result<(), AllocError> {
    text.push_str(line)?;
    text.push_str("\n")
}

impl Section {
    // A line more: of the text, or of what is wanted.
    fn add(&mut self, alloc: Global, line: &str) -> Result<(), AllocError> {
        match &mut self.wanted {
            Some(wanted) => append(wanted, line),
            None if line == "----" => {
                self.wanted = Some(String::new(alloc));
                Ok(())
            }
            None => append(&mut self.text, line),
        }
    }

    /// The bytes of its text: its own, or those that it spells, where it is written in bytes. None where
    /// it spells none.
    pub fn bytes(&self, alloc: Global) -> Result<Option<Vec<u8>>, AllocError> {
        if self.in_bytes {
            spelled(alloc, self.text.as_str())
        } else {
            Ok(Some(self.text.as_bytes().to_vec(alloc)?))
        }
    }
}

/// The sections of a script, in order. Lines that begin with `#` are left out.
pub fn sections(alloc: Global, script: &str) -> Result<Vec<Section>, AllocError> {
    let mut sections: Vec<Section> = Vec::new(alloc);
    let mut within = false;
    for (place, line) in script.lines().enumerate() {
        if line.starts_with('#') {
            continue;
        }
        if line.is_empty() {
            within = false;
        } else if !within {
            sections.push(headed(alloc, place.saturating_add(1), line)?)?;
            within = true;
        } else if let Some(section) = sections.last_mut() {
            section.add(alloc, line)?;
        }
    }
    Ok(sections)
}

// The bytes that a text spells: each `%` and two hexadecimal digits stand for a byte, and line feeds for
// nothing. None where a `%` stands otherwise.
fn spelled(alloc: Global, text: &str) -> Result<Option<Vec<u8>>, AllocError> {
    let mut bytes = Vec::new(alloc);
    for line in text.lines() {
        let mut pieces = line.split('%');
        if let Some(first) = pieces.next() {
            bytes.extend_from_slice(first.as_bytes())?;
        }
        for piece in pieces {
            let Some((byte, after)) = leading_byte(piece) else {
                return Ok(None);
            };
            bytes.push(byte)?;
            bytes.extend_from_slice(after)?;
        }
    }
    Ok(Some(bytes))
}

// The byte that two hexadecimal digits spell, and what stands after them.
fn leading_byte(piece: &str) -> Option<(u8, &[u8])> {
    let [high, low, after @ ..] = piece.as_bytes() else {
        return None;
    };
    let high = digit(*high)?;
    let low = digit(*low)?;
    Some((high * 16 + low, after))
}

// The value of a hexadecimal digit.
fn digit(sign: u8) -> Option<u8>
    ensures { IfSome result (λ n. n < 16) }
{
    match sign {
        b'0'..=b'9' => Some(sign - b'0'),
        b'A'..=b'F' => Some(sign - b'A' + 10),
        _ => None,
    }
}
