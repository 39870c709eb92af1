// Runs over files and a sink in memory that fail, and runs that read nothing.
ghost use Rattle.std.specs.Prelude.{◌≡◌, ◌<◌};

use io_edge::{Entry, MemFiles, MemSink};
use qgm_app::run_command;
use std::alloc::Global;
use std::marker::Brand;
use std::sync::ledger::{Blank, Ledger};
use std::test::Fail;
use step_count::Steps;

// What a run came to.
#[derive(Drop)]
struct Ran {
    status: u8,
    printed: Vec<u8>,
    reads: usize,
}

// The files of a run over two tables.
fn entries(alloc: Global) -> Result<Vec<Entry>, Fail> {
    let mut entries = Vec::new(alloc);
    for (name, text) in [
        (
            "s",
            "CREATE TABLE T (A INTEGER); CREATE TABLE U (B INTEGER);",
        ),
        ("q", "SELECT A, B FROM T, U"),
        ("d/T.csv", "A\n1\n"),
        ("d/U.csv", "B\n2\n"),
    ] {
        entries.push(Entry {
            name: String::from_str(alloc, name)?,
            bytes: text.as_bytes().to_vec(alloc)?,
        })?;
    }
    Ok(entries)
}

// A run of these words, of which the reads of these numbers fail, and with a sink that fails after so many
// bytes.
fn run<L: Ledger>(
    alloc: Global,
    blank: Blank,
    words: &[String],
    failing: &[u64],
    room: usize,
) -> Result<Ran, Fail>
    requires name { blank.name ≡ L.name }
    requires parts { blank.parts ≡ L.parts }
    requires some { 0 < blank.parts }
{
    let mut files = MemFiles::new(alloc, entries(alloc)?, failing.to_vec(alloc)?);
    let mut out = MemSink::new(alloc, room)?;
    let mut steps = Steps::<L>::new(blank);
    let status = run_command(alloc, words, &mut files, &mut out, &mut steps);
    Ok(Ran {
        status,
        printed: out.bytes.to_vec(alloc)?,
        reads: files.reads.len(),
    })
}

// A run of the words of a line.
fn run_line(alloc: Global, line: &str, failing: &[u64], room: usize) -> Result<Ran, Fail> {
    let mut words = Vec::new(alloc);
    for word in line.split_whitespace() {
        words.push(String::from_str(alloc, word)?)?;
    }
    run::<Brand>(alloc, Blank::new(1), &words, failing, room)
}

#[test]
fn a_read_that_fails_is_named_and_is_the_last(rt: HostRuntime) -> Result<(), Fail> {
    for (failing, printed) in [
        (1, "READ s\n"),
        (2, "READ q\n"),
        (3, "READ d/T.csv\n"),
        (4, "READ d/U.csv\n"),
    ] {
        let ran = run_line(rt.alloc(), "run s q d", &[failing], 100)?;
        assert_eq!(rt; ran.status, 3, "at {printed}");
        assert_eq!(rt; ran.printed.as_slice(), printed.as_bytes());
        assert_eq!(rt; ran.reads as u64, failing);
    }
    Ok(())
}

#[test]
fn a_sink_that_fails_takes_a_proper_prefix(rt: HostRuntime) -> Result<(), Fail> {
    for (room, status, printed) in [
        (0, 4, ""),
        (3, 4, "A,B"),
        (7, 4, "A,B\n1,2"),
        (8, 0, "A,B\n1,2\n"),
    ] {
        let ran = run_line(rt.alloc(), "run s q d", &[], room)?;
        assert_eq!(rt; ran.status, status, "at {room}");
        assert_eq!(rt; ran.printed.as_slice(), printed.as_bytes());
    }
    Ok(())
}

#[test]
fn no_file_is_read_for_a_line_that_is_no_command(rt: HostRuntime) -> Result<(), Fail> {
    for line in ["", "run s q d --budget=10001", "run s q d --classes=foo"] {
        let ran = run_line(rt.alloc(), line, &[], 100)?;
        assert_eq!(rt; ran.status, 2, "at {line}");
        assert_eq!(rt; ran.printed.as_slice(), b"USAGE\n".as_slice());
        assert_eq!(rt; ran.reads, 0);
    }
    Ok(())
}
