// Boxes as a script writes them.
use crate::faults::LineError;
use crate::items::{Item, Rest};
use crate::script::Line;
use qgm_core::{
    BaseTable, BoxId, BoxKind, BoxParts, Conds, Distinct, Head, Owned, OwnedQuant, QuantKind, Role,
    SetOperator,
};
use sql_value::SqlType;
use sqlite_items::Items;
use std::alloc::Global;

/// A box as a script writes it.
#[derive(Drop)]
pub struct Sketch {
    /// The number of its line, from 1.
    pub line: usize,
    pub id: BoxId,
    pub parts: BoxParts,
    pub quants: Owned,
    /// Whether no quantifier is to be free in it, where that is said.
    pub closed: Option<bool>,
}

// The kind that a line says.
fn kind(alloc: Global, rest: &mut Rest) -> Result<BoxKind, LineError> {
    let word = rest.word()?;
    Ok(match word.as_str() {
        "base" => BoxKind::Base(BaseTable {
            name: rest.quoted()?,
            types: Items::new(alloc),
            keys: Items::new(alloc),
            not_null: Items::new(alloc),
        }),
        "select" => BoxKind::Select,
        "group" => BoxKind::Group(rest.number()?),
        "setop" => BoxKind::SetOp(set_operator(rest.word()?.as_str())?, Items::new(alloc)),
        "outerjoin" => BoxKind::OuterJoin,
        _ => return Err(LineError::Faulty("no kind of a box")),
    })
}

fn set_operator(word: &str) -> Result<SetOperator, LineError> {
    match word {
        "union" => Ok(SetOperator::Union),
        "union-all" => Ok(SetOperator::UnionAll),
        "intersect" => Ok(SetOperator::Intersect),
        "intersect-all" => Ok(SetOperator::IntersectAll),
        "except" => Ok(SetOperator::Except),
        "except-all" => Ok(SetOperator::ExceptAll),
        _ => Err(LineError::Faulty("no set operator")),
    }
}

/// What a quantifier ranges for.
pub fn quant_kind(word: &str) -> Result<QuantKind, LineError> {
    match word {
        "F" => Ok(QuantKind::F),
        "E" => Ok(QuantKind::E),
        "A" => Ok(QuantKind::A),
        "S" => Ok(QuantKind::S),
        _ => Err(LineError::Faulty("a quantifier is F, E, A or S")),
    }
}

/// Whether a box gives rows more than once.
pub fn distinctness(word: &str) -> Result<Distinct, LineError> {
    match word {
        "enforce" => Ok(Distinct::Enforce),
        "preserve" => Ok(Distinct::Preserve),
        "permit" => Ok(Distinct::Permit),
        _ => Err(LineError::Faulty("nothing that is said behind a kind")),
    }
}

// A column more of a base or a set operation.
fn add_column(kind: &mut BoxKind, word: &str) -> Result<(), LineError> {
    let column = match word {
        "int" => SqlType::Integer,
        "text" => SqlType::Varchar,
        _ => return Err(LineError::Faulty("a type is int or text")),
    };
    match kind {
        BoxKind::Base(table) => Ok(table.types.push(column)?),
        BoxKind::SetOp(_, types) => Ok(types.push(column)?),
        BoxKind::Select | BoxKind::Group(_) | BoxKind::OuterJoin => {
            Err(LineError::Faulty("a cell is to stand here"))
        }
    }
}

// A key more, or the columns that hold no null.
fn add_facts(kind: &mut BoxKind, word: &str, columns: Items<usize>) -> Result<(), LineError> {
    match kind {
        BoxKind::Base(table) => {
            if word == "key" {
                table.keys.push(columns)?;
            } else {
                table.not_null = columns;
            }
            Ok(())
        }
        BoxKind::Select | BoxKind::Group(_) | BoxKind::SetOp(_, _) | BoxKind::OuterJoin => {
            Err(LineError::Faulty("this is said of a base alone"))
        }
    }
}

impl Sketch {
    /// The box of a line, behind its first word: its number, its kind, and then in any order its
    /// distinctness (`preserve` where none is said), its role (`plain`), and whether it is to be closed.
    pub fn read(alloc: Global, line: usize, rest: Rest) -> Result<Sketch, LineError> {
        let mut rest = rest;
        let id = rest.number()?;
        let parts = BoxParts {
            kind: kind(alloc, &mut rest)?,
            distinct: Distinct::Preserve,
            role: Role::Plain,
            conds: Conds::new(alloc),
            head: Head::new(alloc),
        };
        let mut sketch = Sketch {
            line,
            id,
            parts,
            quants: Owned::new(alloc),
            closed: None,
        };
        for item in rest.into_items() {
            sketch.qualify(&item)?;
        }
        Ok(sketch)
    }

    // A word behind the kind.
    fn qualify(&mut self, item: &Item) -> Result<(), LineError> {
        let Item::Word(word) = item else {
            return Err(LineError::Faulty("a word is to stand here"));
        };
        match word.as_str() {
            "plain" => self.parts.role = Role::Plain,
            "magic" => self.parts.role = Role::Magic,
            "fed" => self.parts.role = Role::Fed,
            "closed" => self.closed = Some(true),
            "open" => self.closed = Some(false),
            word => self.parts.distinct = distinctness(word)?,
        }
        Ok(())
    }

    /// The box of a line, behind its first word, and of the lines below it. `at` is the number of the line
    /// that is read.
    pub fn of_lines(
        alloc: Global,
        rest: Rest,
        lines: &[Line],
        at: &mut usize,
    ) -> Result<Box<Sketch>, LineError> {
        let mut sketch = Box::new(alloc, Sketch::read(alloc, *at, rest)?)?;
        sketch.add_lines(alloc, lines, at)?;
        Ok(sketch)
    }

    /// What the graph holds of it.
    pub fn into_parts(self: Box<Sketch>) -> BoxParts {
        Box::into_inner(self).parts
    }

    // What lines below that of the box say of it. `at` is the number of the line that is read.
    fn add_lines(
        &mut self,
        alloc: Global,
        lines: &[Line],
        at: &mut usize,
    ) -> Result<(), LineError> {
        for line in lines {
            *at = line.number;
            let mut rest = Rest::of_line(alloc, line.text.as_str())?;
            let word = rest.word()?;
            self.add(alloc, word.as_str(), rest)?;
        }
        Ok(())
    }

    /// What a line below that of the box says of it, by its first word.
    pub fn add(&mut self, alloc: Global, word: &str, rest: Rest) -> Result<(), LineError> {
        let mut rest = rest;
        match word {
            "quant" => self.add_quant(&mut rest)?,
            "head" => self.add_head(&mut rest)?,
            "on" | "where" => self.parts.conds.add(Box::into_inner(rest.cond()?))?,
            "key" | "not-null" => {
                let columns = Items::from_vec(rest.numbers(alloc)?);
                return add_facts(&mut self.parts.kind, word, columns);
            }
            _ => return Err(LineError::Faulty("nothing that is said of a box")),
        }
        rest.end()
    }

    fn add_quant(&mut self, rest: &mut Rest) -> Result<(), LineError> {
        let id = rest.number()?;
        let kind = quant_kind(rest.word()?.as_str())?;
        let over = rest.number()?;
        Ok(self.quants.push(OwnedQuant { id, kind, over })?)
    }

    fn add_head(&mut self, rest: &mut Rest) -> Result<(), LineError> {
        match rest.next() {
            Some(Item::Cell(x)) => Ok(self.parts.head.push(Box::into_inner(x))?),
            Some(Item::Word(word)) => add_column(&mut self.parts.kind, word.as_str()),
            None | Some(Item::Quoted(_) | Item::Cond(_)) => {
                Err(LineError::Faulty("a cell is to stand here"))
            }
        }
    }
}
