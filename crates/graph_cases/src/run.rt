// What the steps of a script come to.
use crate::answers::Question;
use crate::compare::{Difference, find_difference};
use crate::drawing::Drawing;
use crate::edits::{add_box, add_box_below, edit, put_box, substitute};
use crate::faults::LineError;
use crate::items::Rest;
use crate::known::need_box;
use crate::made::{graph_of, graph_of_one};
use crate::script::{Line, Step};
use crate::sketch::Sketch;
use crate::tables::read_tables;
use crate::told::told;
use qgm_core::{BoxId, Graph};
use row_bag::Tables;
use std::alloc::Global;

/// What a step comes to.
#[derive(Drop)]
pub enum Outcome {
    /// A graph.
    Drawn,
    /// An edit.
    Edited,
    /// What was to be so is so.
    AsWanted,
    /// What was to be so is otherwise.
    Otherwise(Other),
    /// A line, by its number, can't be read or done, and why.
    Faulty(usize, &'static str),
}

/// What is otherwise than it is to be.
#[derive(Drop)]
pub struct Other {
    /// The number of its line, from 1.
    pub line: usize,
    pub wanted: String,
    pub given: String,
}

/// What a script is at: the last graph that stands in it, as edits have made it.
#[derive(Drop)]
pub struct Setting {
    graph: Option<Graph>,
    // The last tables that stand in it.
    tables: Tables,
}

// What a box is to be, by its line.
#[derive(Clone, Copy)]
struct Mark {
    line: usize,
    id: BoxId,
    closed: bool,
}

// What boxes are to be, where it is said.
fn marks(alloc: Global, boxes: &[Sketch]) -> Result<Vec<Mark>, LineError> {
    let mut marks = Vec::new(alloc);
    for sketch in boxes {
        if let Some(closed) = sketch.closed {
            marks.push(Mark {
                line: sketch.line,
                id: sketch.id,
                closed,
            })?;
        }
    }
    Ok(marks)
}

fn closed_word(closed: bool) -> &'static str {
    if closed { "closed" } else { "open" }
}

// What is given beside what is wanted.
fn compared(alloc: Global, line: usize, wanted: &str, given: &str) -> Result<Outcome, LineError> {
    if wanted == given {
        return Ok(Outcome::AsWanted);
    }
    Ok(Outcome::Otherwise(Other {
        line,
        wanted: String::from_str(alloc, wanted)?,
        given: String::from_str(alloc, given)?,
    }))
}

// The first box that is open and to be closed, or closed and to be open.
fn marked(alloc: Global, graph: &Graph, marks: &[Mark]) -> Result<Outcome, LineError> {
    for mark in marks {
        need_box(graph, mark.id)?;
        let closed = graph.is_closed(alloc, mark.id)?;
        if closed != mark.closed {
            let wanted = closed_word(mark.closed);
            return compared(alloc, mark.line, wanted, closed_word(closed));
        }
    }
    Ok(Outcome::AsWanted)
}

// Whether a graph has the boxes that it is to have.
fn becomes(
    alloc: Global,
    graph: &Graph,
    lines: &[Line],
    at: &mut usize,
) -> Result<Outcome, LineError> {
    let line = *at;
    let drawing = Drawing::read(alloc, lines, at)?;
    let held = graph.len();
    if held != drawing.boxes.len() {
        let given = format!(in alloc; "{held} of them")?;
        return compared(alloc, line, "these boxes", given.as_str());
    }
    match find_difference(alloc, graph, &drawing.boxes)? {
        Some(Difference { line, what }) => compared(alloc, line, "this box", what),
        None => marked(alloc, graph, &marks(alloc, &drawing.boxes)?),
    }
}

// It fails where lines say more of a step that takes none.
fn need_no_more(lines: &[Line], at: &mut usize) -> Result<(), LineError> {
    match lines.first() {
        None => Ok(()),
        Some(line) => {
            *at = line.number;
            Err(LineError::Faulty("this is said of a box, and none stands above"))
        }
    }
}

// What a step comes to that is about a graph, and no question.
fn act(
    alloc: Global,
    graph: &mut Graph,
    word: &str,
    rest: Rest,
    step: &Step,
    at: &mut usize,
) -> Result<Outcome, LineError> {
    match word {
        "becomes" => return becomes(alloc, graph, &step.below, at),
        "add-box" => add_box(alloc, graph, None, rest, &step.below, at)?,
        "add-box-below" => add_box_below(alloc, graph, rest, &step.below, at)?,
        "put-box" => put_box(alloc, graph, rest, &step.below, at)?,
        word => {
            need_no_more(&step.below, at)?;
            edit_line(alloc, graph, word, rest)?;
        }
    }
    Ok(Outcome::Edited)
}

// An edit that one line says.
fn edit_line(alloc: Global, graph: &mut Graph, word: &str, rest: Rest) -> Result<(), LineError> {
    if word == "substitute" {
        return substitute(alloc, graph, rest);
    }
    let mut rest = rest;
    edit(alloc, graph, word, &mut rest)?;
    rest.end()
}

// What a step comes to, where it is a question.
fn ask(
    alloc: Global,
    graph: &Graph,
    tables: &Tables,
    line: &Line,
) -> Result<Option<Outcome>, LineError> {
    let Some((asked, wanted)) = line.text.as_str().split_once(": ") else {
        return Ok(None);
    };
    if let Some(given) = told(alloc, graph, tables, asked)? {
        return Ok(Some(compared(alloc, line.number, wanted, given.as_str())?));
    }
    let Some(question) = Question::read(asked)? else {
        return Ok(None);
    };
    let given = question.answer(alloc, graph)?;
    Ok(Some(compared(alloc, line.number, wanted, given.as_str())?))
}

// What a step comes to that is about a graph.
fn ask_or_act(
    alloc: Global,
    graph: &mut Graph,
    tables: &Tables,
    word: &str,
    rest: Rest,
    step: &Step,
    at: &mut usize,
) -> Result<Outcome, LineError> {
    match ask(alloc, graph, tables, &step.first)? {
        Some(outcome) => {
            need_no_more(&step.below, at)?;
            Ok(outcome)
        }
        None => act(alloc, graph, word, rest, step, at),
    }
}

impl Setting {
    /// No graph, and no table.
    pub fn new(alloc: Global) -> Setting {
        Setting {
            graph: None,
            tables: Tables::new(alloc),
        }
    }

    /// What a step comes to. Where a graph can't be drawn, what stands behind it is about none.
    pub fn run(&mut self, alloc: Global, step: &Step) -> Result<Outcome, LineError> {
        let mut at = step.first.number;
        match self.try_step(alloc, step, &mut at) {
            Ok(outcome) => Ok(outcome),
            Err(LineError::Faulty(why)) => Ok(Outcome::Faulty(at, why)),
            Err(LineError::Memory) => Err(LineError::Memory),
        }
    }

    fn try_step(
        &mut self,
        alloc: Global,
        step: &Step,
        at: &mut usize,
    ) -> Result<Outcome, LineError> {
        let mut rest = Rest::of_line(alloc, step.first.text.as_str())?;
        let word = rest.word()?;
        match word.as_str() {
            "graph" => {
                rest.end()?;
                self.draw(alloc, &step.below, at)
            }
            "tables" => {
                rest.end()?;
                self.tables = read_tables(alloc, &step.below, at)?;
                Ok(Outcome::Edited)
            }
            "alone" => self.draw_alone(alloc, rest, &step.below, at),
            word => match &mut self.graph {
                Some(graph) => ask_or_act(alloc, graph, &self.tables, word, rest, step, at),
                None => Err(LineError::Faulty("there is no graph")),
            },
        }
    }

    // Another graph in the place of any before.
    fn draw(
        &mut self,
        alloc: Global,
        lines: &[Line],
        at: &mut usize,
    ) -> Result<Outcome, LineError> {
        self.graph = None;
        let drawing = Drawing::read(alloc, lines, at)?;
        let marks = marks(alloc, &drawing.boxes)?;
        let graph = graph_of(alloc, drawing)?;
        let outcome = marked(alloc, &graph, &marks)?;
        self.graph = Some(graph);
        Ok(match outcome {
            Outcome::Otherwise(other) => Outcome::Otherwise(other),
            Outcome::Drawn | Outcome::Edited | Outcome::AsWanted | Outcome::Faulty(_, _) => {
                Outcome::Drawn
            }
        })
    }

    // The graph of one box in the place of any before.
    fn draw_alone(
        &mut self,
        alloc: Global,
        rest: Rest,
        lines: &[Line],
        at: &mut usize,
    ) -> Result<Outcome, LineError> {
        self.graph = None;
        let sketch = Sketch::of_lines(alloc, rest, lines, at)?;
        self.graph = Some(graph_of_one(alloc, Box::into_inner(sketch))?);
        Ok(Outcome::Drawn)
    }
}
