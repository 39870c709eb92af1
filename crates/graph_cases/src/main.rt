//! Runs scripts of graphs with what is to be said of them, and tells each answer that is another.
//!
//! A script is a text of lines, in UTF-8. Blank lines, and lines that begin with `#`, say nothing. A line is
//! words parted by blanks, texts in `'` or `"` (the sign doubled within), and cells and conditions in
//! brackets.
//!
//! `graph` begins a graph. Its boxes follow by rank, from the first down to the one that is numbered 0; each
//! is a line `box N KIND`, and lines that say more of it:
//!
//! - `KIND` is `base "NAME"`, `select`, `group K`, `setop OPERATOR` (`union`, `union-all`, `intersect`,
//!   `intersect-all`, `except`, `except-all`) or `outerjoin`. Behind it stand in any order `enforce`,
//!   `preserve` (so it is where none is said) or `permit`; `plain` (likewise), `magic` or `fed`; and
//!   `closed` or `open`, which is asked of the graph.
//! - `quant N KIND BOX`: a quantifier, with F, E, A or S.
//! - `head CELL`: a column. `head int`, `head text`: one of a base or of a set operation.
//! - `on COND`, `where COND`: a condition.
//! - `key K ..`, `not-null K ..`: a key and the not-null columns of a base.
//!
//! `out NAME ..` (`-` for none) and `order K asc|desc ..` stand beside the root, which is the first box, or
//! the one that `root N` names. Numbers that are named need not be those of boxes or quantifiers, but two
//! quantifiers have two numbers. Cells are `(int 1)`, `(text 'a')`, `(null int)`, `(null text)`,
//! `(col Q K)`, `(scalar Q)`, `(add X Y)`, `sub`, `mul`, `div`, `cat`, `(neg X)`,
//! `(case COND X .. else X)`, `(count-all)`, `(single X)`, and `count`, `sum`, `avg`, `min`, `max`, also
//! with `-distinct`. Conditions are `(true)`, `(eq X Y)`, `ne`, `lt`, `le`, `gt`, `ge`, `same`, `like`,
//! `(isnull X)`, `(and C C)`, `(or C C)`, `(not C)`, `(some Q C)`, `(every Q C)`.
//!
//! `alone N KIND` and lines of columns and conditions is a graph of one box.
//!
//! `tables` begins tables, in the place of any before: lines `table "NAME"`, each with its rows below it, as
//! `row 1 \N 'a'`, in which `\N` is null.
//!
//! Of the last graph above, `QUESTION: ANSWER` says what is to be answered (`answers.rt`, `told.rt`), as `check: ok`,
//! `check: I3 2`, `walk depth: 1 0`, `free 2: 0`, `uses 0: 2`. An edit (`edits.rt`), as `redirect 0 2`,
//! changes the graph; `add-box N KIND` (last), `add-box-below B N KIND` and `put-box N KIND` take lines of
//! columns and conditions too. `becomes` and boxes below it say which boxes the graph is to have then.
//!
//! The program ends with 0, with 1 where an answer is another, and with 2 where a line can't be read or
//! done.
#![tactic(auto)]

mod answers;
mod compare;
mod drawing;
mod edits;
mod executed;
mod faults;
mod forms;
mod inferred;
mod items;
mod known;
mod made;
mod rewriting;
mod run;
mod script;
mod sketch;
mod tables;
mod tally;
mod tokens;
mod told;

use crate::run::{Other, Outcome, Setting};
use crate::script::steps;
use crate::tally::Tally;
use io_edge::{Files, RealFiles};
use std::env;
use std::process::ExitCode;

// The longest script, in bytes.
const LONGEST: usize = 16_777_216;

// Prints what a step came to, where that isn't as it is to be.
fn tell(rt: &HostRuntime, name: &str, outcome: &Outcome) -> anyhow::Result<()> {
    match outcome {
        Outcome::Drawn | Outcome::Edited | Outcome::AsWanted => Ok(()),
        Outcome::Otherwise(
            Other {
                line,
                wanted,
                given,
            },
        ) => Ok(println!(rt; "{name}:{line}: wanted {wanted}, given {given}")?),
        Outcome::Faulty(line, why) => Ok(println!(rt; "{name}:{line}: {why}")?),
    }
}

// Runs the steps of a script.
fn run_text(rt: &HostRuntime, name: &str, text: &str) -> anyhow::Result<Tally> {
    let mut tally = Tally::new();
    let mut setting = Setting::new(rt.alloc());
    for step in &steps(rt.alloc(), text)? {
        let outcome = setting.run(rt.alloc(), step)?;
        tell(rt, name, &outcome)?;
        tally.add(&outcome);
    }
    Ok(tally)
}

// Runs a script.
fn run_script(rt: &HostRuntime, name: &str) -> anyhow::Result<Tally> {
    let mut bytes = Vec::new(rt.alloc());
    let mut files = RealFiles { rt, faults: 0 };
    files.read(rt.alloc(), name, LONGEST, &mut bytes)?;
    run_text(rt, name, std::str::from_utf8(&bytes)?)
}

// Runs the scripts that the arguments name.
fn run_all(rt: &HostRuntime) -> anyhow::Result<Tally> {
    let mut total = Tally::new();
    for name in env::args(rt)?.skip(1) {
        match run_script(rt, name.as_str()) {
            Ok(tally) => {
                let graphs = tally.graphs;
                let answers = tally.answers;
                println!(rt; "{name}: {graphs} graphs, {answers} answers")?;
                total.add_all(tally);
            }
            Err(error) => {
                println!(rt; "{name}: {error}")?;
                total.add(&Outcome::Faulty(0, "it can't be read"));
            }
        }
    }
    let graphs = total.graphs;
    let answers = total.answers;
    println!(rt; "{graphs} graphs, {answers} answers")?;
    Ok(total)
}

fn main(rt: HostRuntime) -> anyhow::Result<ExitCode> {
    let total = run_all(&rt)?;
    Ok(ExitCode::from(total.status()))
}
