// What is inferred of a graph.
ghost use Rattle.qgm_core.specs.Boxes.{HasBox};

use crate::faults::LineError;
use crate::known::need_box;
use qgm_core::{BoxId, BoxKind, Graph};
use qgm_props::{Props, is_calm, props};
use std::alloc::Global;

// How many columns a box has.
fn width(graph: &Graph, b: BoxId) -> usize
    requires { HasBox b graph.now }
{
    let parts = graph.parts(b);
    match &parts.kind {
        BoxKind::Base(table) => table.types.as_slice().len(),
        BoxKind::SetOp(_, types) => types.as_slice().len(),
        BoxKind::Select | BoxKind::Group(_) | BoxKind::OuterJoin => parts.head.len(),
    }
}

// Appends a word.
fn add_word(text: &mut String, word: &str) -> Result<(), LineError> {
    if !text.is_empty() {
        text.push(' ')?;
    }
    Ok(text.push_str(word)?)
}

// Appends a column, behind the word where it is the first one.
fn add_column(text: &mut String, word: &str, first: bool, k: usize) -> Result<(), LineError> {
    if first {
        add_word(text, word)?;
    }
    write!(text, " {k}")?;
    Ok(())
}

// Appends which columns hold no error.
fn add_error_free(
    text: &mut String,
    props: &Props,
    b: BoxId,
    width: usize,
) -> Result<(), LineError> {
    let mut first = true;
    for k in 0..width {
        if props.error_free(b, k + 1) {
            add_column(text, "error-free", first, k + 1)?;
            first = false;
        }
    }
    Ok(())
}

// Appends which columns hold no null.
fn add_not_null(text: &mut String, props: &Props, b: BoxId, width: usize) -> Result<(), LineError> {
    let mut first = true;
    for k in 0..width {
        if props.not_null(b, k + 1) {
            add_column(text, "not-null", first, k + 1)?;
            first = false;
        }
    }
    Ok(())
}

/// What is inferred of a box, as `clean exactly-one error-free 1 2 not-null 1`; `none` where nothing is.
/// Where it has exactly one row, `at-most-one` isn't told.
pub fn facts(alloc: Global, graph: &Graph, b: BoxId) -> Result<String, LineError> {
    need_box(graph, b)?;
    let props = props(alloc, graph)?;
    let width = width(graph, b);
    let mut text = String::new(alloc);
    if props.clean(b) {
        add_word(&mut text, "clean")?;
    }
    if props.exactly_one(b) {
        add_word(&mut text, "exactly-one")?;
    } else if props.at_most_one(b) {
        add_word(&mut text, "at-most-one")?;
    }
    add_error_free(&mut text, &props, b, width)?;
    add_not_null(&mut text, &props, b, width)?;
    if text.is_empty() {
        text.push_str("none")?;
    }
    Ok(text)
}

fn yes_or_no(alloc: Global, holds: bool) -> Result<String, LineError> {
    Ok(String::from_str(alloc, if holds { "yes" } else { "no" })?)
}

/// Whether these columns hold a key of a box.
pub fn has_key(
    alloc: Global,
    graph: &Graph,
    b: BoxId,
    columns: &[usize],
) -> Result<String, LineError> {
    need_box(graph, b)?;
    let props = props(alloc, graph)?;
    yes_or_no(alloc, props.holds_key(alloc, graph, b, columns)?)
}

/// Whether a graph is calm.
pub fn calm(alloc: Global, graph: &Graph) -> Result<String, LineError> {
    let props = props(alloc, graph)?;
    yes_or_no(alloc, is_calm(alloc, graph, &props)?)
}
