// Tables as a script writes them.
use crate::faults::LineError;
use crate::items::{Item, Rest};
use crate::script::Line;
use row_bag::{Bag, Row, Table, Tables};
use sql_value::{Cell, CharacterString, Level};
use sqlite_items::Items;
use std::alloc::Global;

// The value that a word writes: a number, or `\N`, null.
fn value(word: &str) -> Result<Cell, LineError> {
    if word == "\\N" {
        return Ok(Cell::Null);
    }
    match word.parse::<i64>() {
        Ok(n) => Ok(Cell::Int(n)),
        Err(_) => Err(LineError::Faulty("a number of 64 bits is to stand here")),
    }
}

// The cell that an item writes.
fn cell(alloc: Global, item: Item) -> Result<Cell, LineError> {
    match item {
        Item::Quoted(text) => Ok(Cell::Text(CharacterString::from_chars(alloc, text.as_slice())?)),
        Item::Word(word) => value(word.as_str()),
        Item::Cell(_) | Item::Cond(_) => Err(LineError::Faulty("a table holds values alone")),
    }
}

// A row that is there.
fn row(alloc: Global, rest: Rest) -> Result<Row, LineError> {
    let mut cells = Items::new(alloc);
    for item in rest.into_items() {
        cells.push(cell(alloc, item)?)?;
    }
    Ok(Row {
        cells,
        level: Level::Yes,
    })
}

// A table more, or a row more of the last one.
fn add(alloc: Global, tables: &mut Vec<Table>, line: &Line) -> Result<(), LineError> {
    let mut rest = Rest::of_line(alloc, line.text.as_str())?;
    let word = rest.word()?;
    match word.as_str() {
        "table" => {
            let name = rest.quoted()?;
            let bag = Bag::new(alloc);
            tables.push(Table { name, bag })?;
            rest.end()
        }
        "row" => match tables.last_mut() {
            Some(table) => Ok(table.bag.push(row(alloc, rest)?)?),
            None => Err(LineError::Faulty("a row stands in a table, and none stands above")),
        },
        _ => Err(LineError::Faulty("a table or a row is to stand here")),
    }
}

/// The tables that lines say. `at` is the number of the line that is read.
pub fn read_tables(alloc: Global, lines: &[Line], at: &mut usize) -> Result<Tables, LineError> {
    let mut read = Vec::new(alloc);
    for line in lines {
        *at = line.number;
        add(alloc, &mut read, line)?;
    }
    let mut tables = Tables::new(alloc);
    for table in read {
        tables.push(table)?;
    }
    Ok(tables)
}
