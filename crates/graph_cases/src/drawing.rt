// Graphs as a script writes them.
use crate::faults::LineError;
use crate::items::{Item, Rest, number};
use crate::script::Line;
use crate::sketch::Sketch;
use qgm_core::BoxId;
use sql_value::{OrderKey, OrderKeys, OutNames};
use sqlite_items::Items;
use std::alloc::Global;

/// A graph as a script writes it: its boxes by rank, and what stands beside the root.
#[derive(Drop)]
pub struct Drawing {
    /// The root, where it isn't the first box.
    pub root: Option<BoxId>,
    pub names: OutNames,
    pub order: OrderKeys,
    pub boxes: Vec<Sketch>,
}

// The names of output columns, none where `-` stands.
fn add_names(names: &mut OutNames, rest: Rest) -> Result<(), LineError> {
    for item in rest.into_items() {
        match item {
            Item::Quoted(name) => names.push(Some(name))?,
            Item::Word(_) => names.push(None)?,
            Item::Cell(_) | Item::Cond(_) => {
                return Err(LineError::Faulty("a name or - is to stand here"));
            }
        }
    }
    Ok(())
}

// Whether a key descends.
fn descends(word: &str) -> Result<bool, LineError> {
    match word {
        "asc" => Ok(false),
        "desc" => Ok(true),
        _ => Err(LineError::Faulty("a key of the order is asc or desc")),
    }
}

// The keys of an order: columns, each with `asc` or `desc`.
fn read_order(alloc: Global, rest: Rest) -> Result<OrderKeys, LineError> {
    let mut keys = Items::new(alloc);
    let mut column = None;
    for item in rest.into_items() {
        let Item::Word(word) = item else {
            return Err(LineError::Faulty("a word is to stand here"));
        };
        column = match column {
            None => Some(number(word.as_str())?),
            Some(column) => {
                let descending = descends(word.as_str())?;
                keys.push(OrderKey { column, descending })?;
                None
            }
        };
    }
    match column {
        None => Ok(keys),
        Some(_) => Err(LineError::Faulty("a key of the order is asc or desc")),
    }
}

impl Drawing {
    /// The graph that lines say. `at` is the number of the line that is read.
    pub fn read(alloc: Global, lines: &[Line], at: &mut usize) -> Result<Drawing, LineError> {
        let mut drawing = Drawing {
            root: None,
            names: Items::new(alloc),
            order: Items::new(alloc),
            boxes: Vec::new(alloc),
        };
        for line in lines {
            *at = line.number;
            drawing.add(alloc, line)?;
        }
        Ok(drawing)
    }

    // What a line more says of the graph or of its last box.
    fn add(&mut self, alloc: Global, line: &Line) -> Result<(), LineError> {
        let mut rest = Rest::of_line(alloc, line.text.as_str())?;
        let word = rest.word()?;
        match word.as_str() {
            "out" => add_names(&mut self.names, rest),
            "order" => {
                self.order = read_order(alloc, rest)?;
                Ok(())
            }
            "root" => {
                self.root = Some(rest.number()?);
                rest.end()
            }
            "box" => Ok(self.boxes.push(Sketch::read(alloc, line.number, rest)?)?),
            word => match self.boxes.last_mut() {
                Some(sketch) => sketch.add(alloc, word, rest),
                None => Err(LineError::Faulty("this is said of a box, and none stands above")),
            },
        }
    }
}
