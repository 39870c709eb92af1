// What a graph gives over tables.
ghost use Rattle.std.specs.Prelude.{◌≡◌, ◌<◌, OnOk};
ghost use Rattle.box_exec.specs.Ready.{AllFit};

use crate::faults::LineError;
use box_exec::{execute, execute_plain, execute_taken, execution_laws};
use qgm_check::{IllFormed, check_graph};
use qgm_core::Graph;
use qgm_edit_laws::checked_laws;
use qgm_wellformed::fault_laws;
use row_bag::{Bag, OrderedBag, Tables, Verdict, sorted, verdict};
use sql_value::{Cell, Kind};
use std::alloc::Global;
use std::marker::Brand;
use std::sync::ledger::{Blank, Ledger};
use step_count::Steps;

// It fails where a graph is ill-formed.
fn need_fit(alloc: Global, graph: &Graph) -> Result<(), LineError>
    ensures { OnOk result (AllFit graph.now.boxes) }
{
    graph.each_number_once();
    fault_laws();
    checked_laws();
    execution_laws();
    match check_graph(alloc, graph) {
        Ok(()) => Ok(()),
        Err(IllFormed::Fails(_)) => Err(LineError::Faulty("the graph is ill-formed")),
        Err(IllFormed::Memory) => Err(LineError::Memory),
    }
}

// The rows of a graph, and how many evaluations of boxes they take, by a new count of steps.
fn counted<L: Ledger>(
    alloc: Global,
    graph: &Graph,
    tables: &Tables,
    blank: Blank,
) -> Result<(Bag, u64), LineError>
    requires name { blank.name ≡ L.name }
    requires parts { blank.parts ≡ L.parts }
    requires some { 0 < blank.parts }
{
    need_fit(alloc, graph)?;
    let mut steps = Steps::<L>::new(blank);
    Ok(execute(alloc, graph, tables, &mut steps)?)
}

// The rows of a graph without indexes, by a new count of steps.
fn plain_rows<L: Ledger>(
    alloc: Global,
    graph: &Graph,
    tables: &Tables,
    blank: Blank,
) -> Result<Bag, LineError>
    requires name { blank.name ≡ L.name }
    requires parts { blank.parts ≡ L.parts }
    requires some { 0 < blank.parts }
{
    need_fit(alloc, graph)?;
    let mut steps = Steps::<L>::new(blank);
    let (bag, _count) = execute_plain(alloc, graph, tables, &mut steps)?;
    Ok(bag)
}

// How many rows a graph takes, by a new count.
fn taken_by<L: Ledger, M: Ledger>(
    alloc: Global,
    graph: &Graph,
    tables: &Tables,
    steps: &mut Steps<L>,
    blank: Blank,
) -> Result<u64, LineError>
    requires name { blank.name ≡ M.name }
    requires parts { blank.parts ≡ M.parts }
    requires some { 0 < blank.parts }
{
    need_fit(alloc, graph)?;
    let mut taken = Steps::<M>::new(blank);
    let (_bag, _count, many) = execute_taken(alloc, graph, tables, steps, &mut taken)?;
    Ok(many)
}

// How many rows a graph takes, by new counts.
fn taken_beside<L: Ledger>(
    alloc: Global,
    graph: &Graph,
    tables: &Tables,
    blank: Blank,
) -> Result<u64, LineError>
    requires name { blank.name ≡ L.name }
    requires parts { blank.parts ≡ L.parts }
    requires some { 0 < blank.parts }
{
    let mut steps = Steps::<L>::new(blank);
    taken_by::<L, Brand>(alloc, graph, tables, &mut steps, Blank::new(1))
}

/// How many evaluations of boxes the rows of a graph take.
pub fn count(alloc: Global, graph: &Graph, tables: &Tables) -> Result<String, LineError> {
    let (_bag, count) = counted::<Brand>(alloc, graph, tables, Blank::new(1))?;
    Ok(format!(in alloc; "{count}")?)
}

/// How many rows its selects take for their F quantifiers.
pub fn taken(alloc: Global, graph: &Graph, tables: &Tables) -> Result<String, LineError> {
    let many = taken_beside::<Brand>(alloc, graph, tables, Blank::new(1))?;
    Ok(format!(in alloc; "{many}")?)
}

/// What a graph gives: its rows by the keys of its order and then by all columns, parted by `|`, or
/// `none`; or the error, as `ERROR 22012`. Where it gives otherwise without indexes, both.
pub fn rows(alloc: Global, graph: &Graph, tables: &Tables) -> Result<String, LineError> {
    let (bag, _count) = counted::<Brand>(alloc, graph, tables, Blank::new(1))?;
    let text = text_of(alloc, graph, bag)?;
    let bag = plain_rows::<Brand>(alloc, graph, tables, Blank::new(1))?;
    let plain = text_of(alloc, graph, bag)?;
    if text.as_str() == plain.as_str() {
        return Ok(text);
    }
    Ok(format!(in alloc; "{text}, and without indexes {plain}")?)
}

// Rows, or the error.
fn text_of(alloc: Global, graph: &Graph, bag: Bag) -> Result<String, LineError> {
    let mut text = String::new(alloc);
    match verdict(bag) {
        Verdict::Rows(bag) => add_rows(alloc, &mut text, &sorted(bag, graph.order())?)?,
        Verdict::Error(kind) => text.push_str(error_text(kind))?,
    }
    Ok(text)
}

fn error_text(kind: Kind) -> &'static str {
    match kind {
        Kind::Cardinality => "ERROR 21000",
        Kind::Division => "ERROR 22012",
        Kind::Overflow => "ERROR 22003",
    }
}

// Appends rows.
fn add_rows(alloc: Global, text: &mut String, rows: &OrderedBag) -> Result<(), LineError> {
    if rows.len() == 0 {
        text.push_str("none")?;
    }
    for i in 0..rows.len() {
        if !text.is_empty() {
            text.push_str(" | ")?;
        }
        add_cells(alloc, text, rows.at(i).cells)?;
    }
    Ok(())
}

// Appends the cells of a row, `-` where it has none.
fn add_cells(alloc: Global, text: &mut String, cells: &[Cell]) -> Result<(), LineError> {
    if cells.is_empty() {
        text.push('-')?;
    }
    let mut first = true;
    for cell in cells {
        if !first {
            text.push(' ')?;
        }
        first = false;
        add_cell(alloc, text, cell)?;
    }
    Ok(())
}

// Appends a cell as a table writes it.
fn add_cell(alloc: Global, text: &mut String, cell: &Cell) -> Result<(), LineError> {
    match cell {
        Cell::Int(n) => {
            write!(text, "{n}")?;
            Ok(())
        }
        Cell::Text(characters) => add_quoted(text, characters.to_utf8(alloc)?.as_str()),
        Cell::Null => Ok(text.push_str("\\N")?),
        Cell::Err(kind) => Ok(text.push_str(error_text(*kind))?),
    }
}

// Appends characters in `'`, doubled within.
fn add_quoted(text: &mut String, characters: &str) -> Result<(), LineError> {
    text.push('\'')?;
    for c in characters.chars() {
        if c == '\'' {
            text.push(c)?;
        }
        text.push(c)?;
    }
    Ok(text.push('\'')?)
}
