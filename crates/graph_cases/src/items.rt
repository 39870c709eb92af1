// What a line holds: words, texts, cells and conditions.
use crate::faults::LineError;
use crate::forms::formed;
use crate::tokens::{Token, tokens};
use qgm_core::{Gc, Gx};
use qgm_terms::ROOM;
use shared_types::Text;
use std::alloc::Global;
use std::mem;
use std::vec::IntoIter;

/// What stands in a line.
#[derive(Drop)]
pub enum Item {
    Word(String),
    /// Characters in quotes.
    Quoted(Text),
    /// An expression in brackets.
    Cell(Box<Gx>),
    /// A condition in brackets.
    Cond(Box<Gc>),
}

/// What is left of a line.
#[derive(Drop)]
pub struct Rest {
    items: IntoIter<Item>,
}

// The items of a line, from the left; what stands in brackets is one of them. It goes by a stack of the
// lists that brackets are open in.
fn all_items(alloc: Global, line: &str) -> Result<Vec<Item>, LineError> {
    let mut outer: Vec<Vec<Item>> = Vec::new(alloc);
    let mut items = Vec::new(alloc);
    for token in tokens(alloc, line)? {
        match token {
            Token::Open => {
                if outer.len() > ROOM {
                    return Err(LineError::Faulty("brackets stand too deep"));
                }
                outer.push(mem::replace(&mut items, Vec::new(alloc)))?;
            }
            Token::Close => {
                let Some(before) = outer.pop() else {
                    return Err(LineError::Faulty("a bracket has no beginning"));
                };
                let within = mem::replace(&mut items, before);
                items.push(formed(alloc, within)?)?;
            }
            Token::Word(word) => items.push(Item::Word(word))?,
            Token::Quoted(text) => items.push(Item::Quoted(text))?,
        }
    }
    if outer.is_empty() {
        Ok(items)
    } else {
        Err(LineError::Faulty("a bracket has no end"))
    }
}

/// A number that a word writes.
pub fn number(word: &str) -> Result<usize, LineError> {
    match word.parse::<usize>() {
        Ok(n) => Ok(n),
        Err(_) => Err(LineError::Faulty("a number is to stand here")),
    }
}

impl Rest {
    /// A whole line.
    pub fn of_line(alloc: Global, line: &str) -> Result<Rest, LineError> {
        Ok(Rest {
            items: all_items(alloc, line)?.into_iter(),
        })
    }

    /// The next item, if there is one.
    pub fn next(&mut self) -> Option<Item> {
        self.items.next()
    }

    /// The next item, which is a word.
    pub fn word(&mut self) -> Result<String, LineError> {
        match self.items.next() {
            Some(Item::Word(word)) => Ok(word),
            None | Some(Item::Quoted(_) | Item::Cell(_) | Item::Cond(_)) => {
                Err(LineError::Faulty("a word is missing"))
            }
        }
    }

    /// The next item, which is a number.
    pub fn number(&mut self) -> Result<usize, LineError> {
        number(self.word()?.as_str())
    }

    /// The next item, which is a text in quotes.
    pub fn quoted(&mut self) -> Result<Text, LineError> {
        match self.items.next() {
            Some(Item::Quoted(text)) => Ok(text),
            None | Some(Item::Word(_) | Item::Cell(_) | Item::Cond(_)) => {
                Err(LineError::Faulty("a text in quotes is missing"))
            }
        }
    }

    /// The next item, which is a condition.
    pub fn cond(&mut self) -> Result<Box<Gc>, LineError> {
        match self.items.next() {
            Some(Item::Cond(c)) => Ok(c),
            None | Some(Item::Word(_) | Item::Quoted(_) | Item::Cell(_)) => {
                Err(LineError::Faulty("a condition is missing"))
            }
        }
    }

    /// The line ends here.
    pub fn end(&mut self) -> Result<(), LineError> {
        match self.items.next() {
            None => Ok(()),
            Some(_) => Err(LineError::Faulty("more stands in the line than is to")),
        }
    }

    /// Numbers up to the end of the line.
    pub fn numbers(self, alloc: Global) -> Result<Vec<usize>, LineError> {
        let mut numbers = Vec::new(alloc);
        for item in self.items {
            match item {
                Item::Word(word) => numbers.push(number(word.as_str())?)?,
                Item::Quoted(_) | Item::Cell(_) | Item::Cond(_) => {
                    return Err(LineError::Faulty("a number is to stand here"));
                }
            }
        }
        Ok(numbers)
    }

    /// The items that are left.
    pub fn into_items(self) -> IntoIter<Item> {
        self.items
    }
}
