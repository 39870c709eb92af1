// What a section comes to.
use crate::running::{Ran, Setting};
use crate::script::{Heading, Section};
use std::alloc::{AllocError, Global};
use std::marker::Brand;
use std::sync::ledger::Blank;

/// What a section comes to.
#[derive(Drop)]
pub enum Outcome {
    /// It is no case: it says what cases are run over.
    Taken,
    /// A case that is answered as it is to be.
    AsWanted,
    /// A case that is answered otherwise.
    Otherwise(Ran),
    /// It can't be read, and why.
    Faulty(&'static str),
}

// The words of the command that answers a query.
fn usual_words(alloc: Global) -> Result<Vec<String>, AllocError> {
    let mut words = Vec::new(alloc);
    for word in ["run", "s", "q", "d"] {
        words.push(String::from_str(alloc, word)?)?;
    }
    Ok(words)
}

/// The exit status that goes with what is printed, by its first line.
pub fn status_with(printed: &str) -> u8 {
    for (start, status) in [
        ("ERROR ", 1),
        ("USAGE\n", 2),
        ("READ ", 3),
        ("SCHEMA ", 5),
        ("DATA ", 6),
        ("QUERY ", 7),
    ] {
        if printed.starts_with(start) {
            return status;
        }
    }
    0
}

// Whether this is what is wanted, or, where no lines are, rows or an error.
fn is_wanted(ran: &Ran, wanted: Option<&str>) -> bool {
    match wanted {
        Some(lines) => {
            ran.status == status_with(lines) && ran.printed.as_slice() == lines.as_bytes()
        }
        None => ran.status <= 1,
    }
}

// What a case comes to: a command of these words, and the lines that are wanted.
fn answered(
    alloc: Global,
    setting: &Setting,
    words: &[String],
    query: Vec<u8>,
    wanted: Option<&str>,
) -> Result<Outcome, AllocError> {
    let ran = setting.run::<Brand>(alloc, Blank::new(1), words, query)?;
    Ok(if is_wanted(&ran, wanted) {
        Outcome::AsWanted
    } else {
        Outcome::Otherwise(ran)
    })
}

/// What a section comes to over what earlier ones said; a schema or a table is kept for later ones.
pub fn run_section(
    alloc: Global,
    setting: &mut Setting,
    section: &Section,
) -> Result<Outcome, AllocError> {
    let Some(bytes) = section.bytes(alloc)? else {
        return Ok(Outcome::Faulty("a % has two hexadecimal digits after it"));
    };
    let wanted = match &section.wanted {
        Some(lines) => Some(lines.as_str()),
        None => None,
    };
    match (&section.heading, wanted) {
        (Heading::Schema, None) => {
            setting.declare(bytes);
            Ok(Outcome::Taken)
        }
        (Heading::Table(name), None) => {
            setting.fill(alloc, name.as_str(), bytes)?;
            Ok(Outcome::Taken)
        }
        (Heading::Schema | Heading::Table(_) | Heading::Valid, Some(_)) => {
            Ok(Outcome::Faulty("no lines are wanted here"))
        }
        (Heading::Query | Heading::Command(_), None | Some("")) => {
            Ok(Outcome::Faulty("the lines wanted are missing"))
        }
        (Heading::Query, Some(_)) | (Heading::Valid, None) => {
            answered(alloc, setting, &usual_words(alloc)?, bytes, wanted)
        }
        (Heading::Command(words), Some(_)) => answered(alloc, setting, words, bytes, wanted),
        (Heading::Unknown, _) => Ok(Outcome::Faulty("no heading of a section")),
    }
}
