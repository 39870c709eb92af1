//! Runs scripts of queries with their answers, and tells each answer that is another.
//!
//! A script is a text of sections, in UTF-8. A section is a heading and the lines up to a blank one. A line
//! that begins with `#` is a comment wherever it stands. The headings:
//!
//! - `schema`: the text of a schema. It holds for the cases up to the next one, and begins with no tables.
//! - `table NAME`: the file of a table, its header and its records. It holds for the cases up to the next
//!   schema, or to the next section of that table.
//! - `query`: the text of a query, a line `----`, and the lines that are to be printed for it: the header
//!   and the rows, or one line as `ERROR 22012`, `QUERY Q8`, `SCHEMA S11 W 8` or `DATA X2 DEPT 2`.
//! - `valid`: the text of a query that isn't refused; which rows or which error it has isn't said.
//! - `command WORD..`: as `query`, but with these words after the program's name in place of `run s q d`:
//!   `s` is the file of the schema, `q` that of the query, and `d` the folder of the tables.
//!
//! Each `query`, `valid` or `command` is a case. Each line of a text ends in a line feed. Where `bytes` ends
//! the heading of a schema, a table or a query, its text is written in bytes instead: `%` and two
//! hexadecimal digits (`%0A`, `%FF`) stand for a byte, and ends of lines for nothing.
//!
//! The exit status that a case is to have follows from the first of the lines wanted: 1 for `ERROR`, 2 for
//! `USAGE`, 3 for `READ`, 5 for `SCHEMA`, 6 for `DATA`, 7 for `QUERY`, and else 0. The program itself ends
//! with 0, with 1 where a case is answered otherwise, and with 2 where a script can't be read.
#![tactic(auto)]

mod cases;
mod running;
mod script;
mod tally;

use crate::cases::{Outcome, run_section, status_with};
use crate::running::{Ran, Setting};
use crate::script::{Section, sections};
use crate::tally::Tally;
use io_edge::{Files, RealFiles};
use std::env;
use std::process::ExitCode;

// The longest script, in bytes.
const LONGEST: usize = 16_777_216;

// Prints what a section came to, where that isn't as it is to be.
fn tell(rt: &HostRuntime, name: &str, section: &Section, outcome: &Outcome) -> anyhow::Result<()> {
    match outcome {
        Outcome::Taken | Outcome::AsWanted => Ok(()),
        Outcome::Otherwise(ran) => tell_difference(rt, name, section, ran),
        Outcome::Faulty(why) => {
            println!(rt; "{name}:{}: {why}", section.line)?;
            Ok(())
        }
    }
}

// Prints a case with what it is to be answered and what it is.
fn tell_difference(
    rt: &HostRuntime,
    name: &str,
    section: &Section,
    ran: &Ran,
) -> anyhow::Result<()> {
    println!(rt; "{name}:{}:\n{}", section.line, section.text)?;
    match &section.wanted {
        Some(lines) => {
            let status = status_with(lines.as_str());
            println!(rt; "wanted, with status {status}:\n{lines}")?;
        }
        None => println!(rt; "wanted: that it isn't refused")?,
    }
    let given = std::str::from_utf8(&ran.printed)?;
    println!(rt; "given, with status {}:\n{given}", ran.status)?;
    Ok(())
}

// Runs the sections of a script.
fn run_text(rt: &HostRuntime, name: &str, text: &str) -> anyhow::Result<Tally> {
    let mut tally = Tally::new();
    let mut setting = Setting::new(rt.alloc());
    for section in sections(rt.alloc(), text)? {
        let outcome = run_section(rt.alloc(), &mut setting, &section)?;
        tell(rt, name, &section, &outcome)?;
        tally.add(&outcome);
    }
    Ok(tally)
}

// Runs a script.
fn run_script(rt: &HostRuntime, name: &str) -> anyhow::Result<Tally> {
    let mut bytes = Vec::new(rt.alloc());
    let mut files = RealFiles { rt, faults: 0 };
    files.read(rt.alloc(), name, LONGEST, &mut bytes)?;
    run_text(rt, name, std::str::from_utf8(&bytes)?)
}

// Runs the scripts that the arguments name.
fn run_all(rt: &HostRuntime) -> anyhow::Result<Tally> {
    let mut total = Tally::new();
    for name in env::args(rt)?.skip(1) {
        match run_script(rt, name.as_str()) {
            Ok(tally) => {
                println!(rt; "{name}: {} cases", tally.cases)?;
                total.add_all(tally);
            }
            Err(error) => {
                println!(rt; "{name}: {error}")?;
                total.add(&Outcome::Faulty("it can't be read"));
            }
        }
    }
    println!(rt; "{} cases", total.cases)?;
    Ok(total)
}

fn main(rt: HostRuntime) -> anyhow::Result<ExitCode> {
    let total = run_all(&rt)?;
    Ok(ExitCode::from(total.status()))
}
