// The tokens of a line.
use crate::faults::LineError;
use shared_types::Text;
use std::alloc::Global;
use std::mem;

/// A token of a line.
#[derive(Drop)]
pub enum Token {
    /// `(`
    Open,
    /// `)`
    Close,
    /// Characters in `'` or in `"`; the sign that they stand in is doubled within.
    Quoted(Text),
    /// Other characters up to a blank, a bracket or a quote.
    Word(String),
}

// Where a reader of tokens stands.
#[derive(Clone, Copy)]
enum Position {
    /// In no quotes.
    Outside,
    /// Behind this sign.
    Within(char),
    /// Behind the second of two such signs, or the first of a doubled one.
    Behind(char),
}

// A reader of tokens: those that it has read, and what it has read of the next one.
#[derive(Drop)]
struct Reader {
    tokens: Vec<Token>,
    position: Position,
    word: String,
    quoted: Text,
}

impl Reader {
    fn new(alloc: Global) -> Result<Reader, LineError> {
        Ok(Reader {
            tokens: Vec::new(alloc),
            position: Position::Outside,
            word: String::new(alloc),
            quoted: Text::new(alloc)?,
        })
    }

    // The next character.
    fn add(&mut self, alloc: Global, c: char) -> Result<(), LineError> {
        match self.position {
            Position::Outside => self.add_outside(alloc, c),
            Position::Within(sign) if c == sign => {
                self.position = Position::Behind(sign);
                Ok(())
            }
            Position::Within(_) => Ok(self.quoted.push(c)?),
            Position::Behind(sign) if c == sign => {
                self.position = Position::Within(sign);
                Ok(self.quoted.push(c)?)
            }
            Position::Behind(_) => {
                self.end_quoted(alloc)?;
                self.add_outside(alloc, c)
            }
        }
    }

    // The next character, where it isn't in quotes.
    fn add_outside(&mut self, alloc: Global, c: char) -> Result<(), LineError> {
        match c {
            ' ' => self.end_word(alloc),
            '(' => {
                self.end_word(alloc)?;
                Ok(self.tokens.push(Token::Open)?)
            }
            ')' => {
                self.end_word(alloc)?;
                Ok(self.tokens.push(Token::Close)?)
            }
            '\'' | '"' => {
                self.end_word(alloc)?;
                self.position = Position::Within(c);
                Ok(())
            }
            _ => Ok(self.word.push(c)?),
        }
    }

    // A word ends here, if there is one.
    fn end_word(&mut self, alloc: Global) -> Result<(), LineError> {
        if self.word.is_empty() {
            return Ok(());
        }
        let word = mem::replace(&mut self.word, String::new(alloc));
        Ok(self.tokens.push(Token::Word(word))?)
    }

    // Quotes end here.
    fn end_quoted(&mut self, alloc: Global) -> Result<(), LineError> {
        let next = Text::new(alloc)?;
        let quoted = mem::replace(&mut self.quoted, next);
        self.position = Position::Outside;
        Ok(self.tokens.push(Token::Quoted(quoted))?)
    }

    // The line ends here.
    fn end(&mut self, alloc: Global) -> Result<(), LineError> {
        match self.position {
            Position::Outside => self.end_word(alloc),
            Position::Within(_) => Err(LineError::Faulty("a quote has no end")),
            Position::Behind(_) => self.end_quoted(alloc),
        }
    }
}

/// The tokens of a line.
pub fn tokens(alloc: Global, line: &str) -> Result<Vec<Token>, LineError> {
    let mut reader = Reader::new(alloc)?;
    for c in line.chars() {
        reader.add(alloc, c)?;
    }
    reader.end(alloc)?;
    let Reader { tokens, .. } = reader;
    Ok(tokens)
}
