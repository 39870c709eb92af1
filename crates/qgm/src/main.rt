// The program: the files of the system, standard output, and the top call.
#![tactic(auto)]

ghost use Rattle.std.specs.Prelude.{◌≡◌, ◌<◌};

use io_edge::{RealFiles, RealSink};
use qgm_app::run_command;
use std::marker::Brand;
use std::process::ExitCode;
use std::sync::ledger::{Blank, Ledger};
use std::{env, io};
use step_count::Steps;

const NO_MEMORY: u8 = 8;

// The words after the program's name.
fn words(rt: &HostRuntime) -> io::Result<Vec<String>> {
    let mut words = Vec::new(rt.alloc());
    for word in env::args(rt)?.skip(1) {
        words.push(word)?;
    }
    Ok(words)
}

// Runs the command with a new count of steps.
fn run<L: Ledger>(rt: &HostRuntime, words: &[String], blank: Blank) -> u8
    requires name { blank.name ≡ L.name }
    requires parts { blank.parts ≡ L.parts }
    requires some { 0 < blank.parts }
{
    let mut files = RealFiles { rt, faults: 0 };
    let mut out = RealSink {
        writer: io::writer(rt),
        faults: 0,
    };
    let mut steps = Steps::<L>::new(blank);
    run_command(rt.alloc(), words, &mut files, &mut out, &mut steps)
}

fn main(rt: HostRuntime) -> ExitCode {
    let words = match words(&rt) {
        Ok(words) => words,
        Err(error) if error.kind() == io::ErrorKind::OutOfMemory => {
            return ExitCode::from(NO_MEMORY);
        }
        // a word that isn't UTF-8: no words are no command either
        Err(_) => Vec::new(rt.alloc()),
    };
    ExitCode::from(run::<Brand>(&rt, &words, Blank::new(1)))
}
