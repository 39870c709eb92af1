// What a run answers, its status and its text.
ghost use Rattle.std.specs.Prelude.{◌≡◌, ◌++◌, IfOk, encode_utf8_all};
ghost use Rattle.command_input.specs.declared.report.Report.TheVariants.{DataRefused, ViewRefused};
ghost use Rattle.command_input.specs.Printed.{error_line, read_failed, said_of};

use shared_types::{OutOfMemory, Text};
use sql_text::Name;
use sql_value::Kind;
use sqlite_items::Items;
use std::alloc::Global;

/// What a run answers, where no read fails.
#[derive(Drop)]
pub enum Report {
    /// A header and rows, in CSV.
    Rows(Items<u8>),
    /// A runtime error.
    Error(Kind),
    /// Bytes that tell of a rewriting, and behind them a runtime error.
    ExplainedError { told: Items<u8>, kind: Kind },
    /// The words are no command.
    Usage,
    /// The schema is refused with this number.
    SchemaRefused(u8),
    /// The body of a view is refused with this number.
    ViewRefused { view: Name, number: u8 },
    /// A record (0 for the header) of a table is refused with a number.
    DataRefused { number: u8, table: Name, row: u64 },
    /// The query is refused with this number.
    QueryRefused(u8),
}

/// A status, and what is printed.
#[derive(Drop)]
pub struct Said {
    pub status: u8,
    pub text: Items<u8>,
}

// A status and a text.
fn say(alloc: Global, status: u8, text: &str) -> Result<Said, OutOfMemory>
    ensures { IfOk result (λ said. said ≡ record { status = status; text = text.now }) }
{
    Ok(Said {
        status,
        text: Items::from_vec(text.as_bytes().to_vec(alloc)?),
    })
}

// The line of a runtime error: its SQLSTATE.
fn error_line(kind: Kind) -> &'static str
    ensures { result.now ≡ error_line kind }
{
    match kind {
        Kind::Cardinality => "ERROR 21000\n",
        Kind::Division => "ERROR 22012\n",
        Kind::Overflow => "ERROR 22003\n",
    }
}

// What is said of a runtime error behind these bytes.
fn say_behind(alloc: Global, told: Items<u8>, kind: Kind) -> Result<Said, OutOfMemory>
    ensures { IfOk result (λ said. said ≡ record { status = 1; text = told ++ error_line kind }) }
{
    let mut text = told;
    text.append(Items::from_slice(alloc, error_line(kind).as_bytes())?)?;
    Ok(Said { status: 1, text })
}

// What is said of a view that is refused.
fn say_view(alloc: Global, view: &Name, number: u8) -> Result<Said, OutOfMemory>
    ensures { IfOk result (λ said. said ≡ said_of (ViewRefused view.now number)) }
{
    let view = view.to_utf8(alloc)?;
    let line = format!(in alloc; "SCHEMA S11 {view} {number}\n")?;
    say(alloc, 5, line.as_str())
}

// What is said of a table that is refused.
fn say_data(alloc: Global, number: u8, table: &Name, row: u64) -> Result<Said, OutOfMemory>
    ensures { IfOk result (λ said. said ≡ said_of (DataRefused number table.now row)) }
{
    let table = table.to_utf8(alloc)?;
    let line = format!(in alloc; "DATA X{number} {table} {row}\n")?;
    say(alloc, 6, line.as_str())
}

/// What is said of a read that failed: the name that was asked for. It fails only for want of memory.
pub fn say_fault(alloc: Global, name: &Text) -> Result<Said, OutOfMemory>
    ensures { IfOk result (λ said. said ≡ read_failed (encode_utf8_all name.now)) }
{
    let name = name.to_utf8(alloc)?;
    let line = format!(in alloc; "READ {name}\n")?;
    say(alloc, 3, line.as_str())
}

impl Report {
    /// The status and the text of the report. It fails only for want of memory.
    pub fn said(self, alloc: Global) -> Result<Said, OutOfMemory>
        ensures { IfOk result (λ said. said ≡ said_of self) }
    {
        match self {
            Report::Rows(text) => Ok(Said { status: 0, text }),
            Report::Error(kind) => say(alloc, 1, error_line(kind)),
            Report::ExplainedError { told, kind } => say_behind(alloc, told, kind),
            Report::Usage => say(alloc, 2, "USAGE\n"),
            Report::SchemaRefused(number) => {
                let line = format!(in alloc; "SCHEMA S{number}\n")?;
                say(alloc, 5, line.as_str())
            }
            Report::ViewRefused { view, number } => say_view(alloc, &view, number),
            Report::DataRefused { number, table, row } => say_data(alloc, number, &table, row),
            Report::QueryRefused(number) => {
                let line = format!(in alloc; "QUERY Q{number}\n")?;
                say(alloc, 7, line.as_str())
            }
        }
    }
}
