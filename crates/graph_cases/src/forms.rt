// Expressions and conditions, by the word that their brackets begin with.
use crate::faults::LineError;
use crate::items::{Item, number};
use qgm_core::{Arm, Gc, Gx, Op};
use qgm_terms::{Aggregate, Sign, Taken, anded, chained, negated, ored};
use shared_types::Text;
use std::alloc::Global;
use std::vec::IntoIter;

// What no form is.
fn no_form() -> LineError {
    LineError::Faulty("no form of a cell or a condition")
}

// An expression.
fn cell(alloc: Global, x: Gx) -> Result<Item, LineError> {
    Ok(Item::Cell(Box::new(alloc, x)?))
}

// A condition.
fn cond(alloc: Global, c: Gc) -> Result<Item, LineError> {
    Ok(Item::Cond(Box::new(alloc, c)?))
}

/// What stands in brackets, from the left: a word, and what it is of.
pub fn formed(alloc: Global, within: Vec<Item>) -> Result<Item, LineError> {
    let mut items = within.into_iter();
    let Some(Item::Word(word)) = items.next() else {
        return Err(no_form());
    };
    if word.as_str() == "case" {
        return case_of(alloc, items);
    }
    formed_of(alloc, word.as_str(), items)
}

// What a word is of no, one or two items.
fn formed_of(alloc: Global, word: &str, mut items: IntoIter<Item>) -> Result<Item, LineError> {
    let formed = match items.next() {
        None => of_none(alloc, word),
        Some(Item::Quoted(text)) => of_text(alloc, word, text),
        Some(Item::Word(first)) => of_word(alloc, word, first.as_str(), items.next()),
        Some(Item::Cell(x)) => of_cell(alloc, word, x, items.next()),
        Some(Item::Cond(c)) => of_cond(alloc, word, c, items.next()),
    }?;
    match items.next() {
        None => Ok(formed),
        Some(_) => Err(no_form()),
    }
}

// `(count-all)` and `(true)`.
fn of_none(alloc: Global, word: &str) -> Result<Item, LineError> {
    match word {
        "count-all" => cell(alloc, Gx::CountAll),
        "true" => cond(alloc, Gc::True),
        _ => Err(no_form()),
    }
}

// `(text 's')`.
fn of_text(alloc: Global, word: &str, text: Text) -> Result<Item, LineError> {
    match word {
        "text" => cell(alloc, Gx::Text(text)),
        _ => Err(no_form()),
    }
}

// What begins with a word behind its own.
fn of_word(
    alloc: Global,
    word: &str,
    first: &str,
    second: Option<Item>,
) -> Result<Item, LineError> {
    match second {
        None => of_one_word(alloc, word, first),
        Some(Item::Word(second)) => of_column(
            alloc,
            word,
            number(first)?,
            number(second.as_str())?,
        ),
        Some(Item::Cond(c)) => of_rows(alloc, word, number(first)?, c),
        Some(Item::Quoted(_) | Item::Cell(_)) => Err(no_form()),
    }
}

// `(col q k)`.
fn of_column(alloc: Global, word: &str, q: usize, k: usize) -> Result<Item, LineError> {
    match word {
        "col" => cell(alloc, Gx::Col(q, k)),
        _ => Err(no_form()),
    }
}

// `(int n)`, `(null int)`, `(null text)`, `(scalar q)`.
fn of_one_word(alloc: Global, word: &str, first: &str) -> Result<Item, LineError> {
    match (word, first) {
        ("int", _) => match first.parse::<i64>() {
            Ok(n) => cell(alloc, Gx::Int(n)),
            Err(_) => Err(no_form()),
        },
        ("null", "int") => cell(alloc, Gx::NullInt),
        ("null", "text") => cell(alloc, Gx::NullText),
        ("scalar", _) => cell(alloc, Gx::Scalar(number(first)?)),
        (_, _) => Err(no_form()),
    }
}

// What begins with a cell behind its word.
fn of_cell(alloc: Global, word: &str, x: Box<Gx>, second: Option<Item>) -> Result<Item, LineError> {
    match second {
        None => of_one_cell(alloc, word, x),
        Some(Item::Cell(y)) => of_cells(alloc, word, x, y),
        Some(Item::Word(_) | Item::Quoted(_) | Item::Cond(_)) => Err(no_form()),
    }
}

// What begins with a condition behind its word.
fn of_cond(alloc: Global, word: &str, c: Box<Gc>, second: Option<Item>) -> Result<Item, LineError> {
    match second {
        None => of_one_cond(alloc, word, c),
        Some(Item::Cond(d)) => of_conds(alloc, word, c, d),
        Some(Item::Word(_) | Item::Quoted(_) | Item::Cell(_)) => Err(no_form()),
    }
}

// `(not c)`.
fn of_one_cond(alloc: Global, word: &str, c: Box<Gc>) -> Result<Item, LineError> {
    match word {
        "not" => cond(alloc, negated(alloc, Box::into_inner(c))?),
        _ => Err(no_form()),
    }
}

// `(and c d)`.
fn both_conds(alloc: Global, c: Box<Gc>, d: Box<Gc>) -> Result<Item, LineError> {
    cond(alloc, anded(alloc, Box::into_inner(c), Box::into_inner(d))?)
}

// One of two conditions, or both.
fn either_cond(alloc: Global, c: Box<Gc>, d: Box<Gc>) -> Result<Item, LineError> {
    cond(alloc, ored(alloc, Box::into_inner(c), Box::into_inner(d))?)
}

// `(and c d)`, `(or c d)`.
fn of_conds(alloc: Global, word: &str, c: Box<Gc>, d: Box<Gc>) -> Result<Item, LineError> {
    match word {
        "and" => both_conds(alloc, c, d),
        "or" => either_cond(alloc, c, d),
        _ => Err(no_form()),
    }
}

// The aggregate that a word names.
fn aggregate(word: &str) -> Option<(Aggregate, Taken)> {
    match word {
        "single" => Some((Aggregate::Single, Taken::All)),
        "count" => Some((Aggregate::Count, Taken::All)),
        "sum" => Some((Aggregate::Sum, Taken::All)),
        "avg" => Some((Aggregate::Avg, Taken::All)),
        "min" => Some((Aggregate::Min, Taken::All)),
        "max" => Some((Aggregate::Max, Taken::All)),
        "count-distinct" => Some((Aggregate::Count, Taken::Once)),
        "sum-distinct" => Some((Aggregate::Sum, Taken::Once)),
        "avg-distinct" => Some((Aggregate::Avg, Taken::Once)),
        "min-distinct" => Some((Aggregate::Min, Taken::Once)),
        "max-distinct" => Some((Aggregate::Max, Taken::Once)),
        _ => None,
    }
}

// `(neg x)`, the aggregates of a cell, `(isnull x)`.
fn of_one_cell(alloc: Global, word: &str, x: Box<Gx>) -> Result<Item, LineError> {
    if let Some((f, each)) = aggregate(word) {
        return cell(alloc, Gx::Fold(f, each, x));
    }
    let made = match word {
        "neg" => Gx::Neg(x),
        "isnull" => return cond(alloc, Gc::IsNull(x)),
        _ => return Err(no_form()),
    };
    cell(alloc, made)
}

// The operation on two values that a word names.
fn operation(word: &str) -> Option<Op> {
    match word {
        "add" => Some(Op::Add),
        "sub" => Some(Op::Sub),
        "mul" => Some(Op::Mul),
        "div" => Some(Op::Div),
        "cat" => Some(Op::Cat),
        _ => None,
    }
}

// The comparison that a word names.
fn comparison(word: &str) -> Option<Sign> {
    match word {
        "eq" => Some(Sign::Eq),
        "ne" => Some(Sign::Ne),
        "lt" => Some(Sign::Lt),
        "le" => Some(Sign::Le),
        "gt" => Some(Sign::Gt),
        "ge" => Some(Sign::Ge),
        "same" => Some(Sign::Same),
        "like" => Some(Sign::Like),
        _ => None,
    }
}

// An operation on two values.
fn operated(alloc: Global, x: Box<Gx>, op: Op, y: Box<Gx>) -> Result<Item, LineError> {
    cell(
        alloc,
        chained(alloc, Box::into_inner(x), op, Box::into_inner(y))?,
    )
}

// `(add x y)` and the like, `(eq x y)` and the like.
fn of_cells(alloc: Global, word: &str, x: Box<Gx>, y: Box<Gx>) -> Result<Item, LineError> {
    if let Some(op) = operation(word) {
        return operated(alloc, x, op, y);
    }
    match comparison(word) {
        Some(s) => cond(alloc, Gc::Compare(s, x, y)),
        None => Err(no_form()),
    }
}

// `(some q c)`, `(every q c)`.
fn of_rows(alloc: Global, word: &str, q: usize, c: Box<Gc>) -> Result<Item, LineError> {
    match word {
        "some" => cond(alloc, Gc::Some(q, c)),
        "every" => cond(alloc, Gc::Every(q, c)),
        _ => Err(no_form()),
    }
}

// How far a CASE is read.
#[derive(Drop)]
enum Awaited {
    /// A condition is to come, or `else`.
    When,
    /// The result of this condition is to come.
    Then(Box<Gc>),
    /// The last value is to come.
    Last,
    /// Nothing is to come behind this last value.
    End(Box<Gx>),
}

impl Awaited {
    // A condition comes.
    fn cond(self, c: Box<Gc>) -> Result<Awaited, LineError> {
        match self {
            Awaited::When => Ok(Awaited::Then(c)),
            Awaited::Then(_) | Awaited::Last | Awaited::End(_) => Err(no_form()),
        }
    }

    // A word comes.
    fn word(self, word: &str) -> Result<Awaited, LineError> {
        match self {
            Awaited::When if word == "else" => Ok(Awaited::Last),
            Awaited::When | Awaited::Then(_) | Awaited::Last | Awaited::End(_) => Err(no_form()),
        }
    }

    // A cell comes.
    fn cell(self, x: Box<Gx>, arms: &mut Vec<Arm>) -> Result<Awaited, LineError> {
        match self {
            Awaited::Then(when) => {
                arms.push(Arm {
                    when: Box::into_inner(when),
                    then: Box::into_inner(x),
                })?;
                Ok(Awaited::When)
            }
            Awaited::Last => Ok(Awaited::End(x)),
            Awaited::When | Awaited::End(_) => Err(no_form()),
        }
    }
}

// `(case c x .. else x)`, of what stands behind its word.
fn case_of(alloc: Global, items: IntoIter<Item>) -> Result<Item, LineError> {
    let mut arms = Vec::new(alloc);
    let mut awaited = Awaited::When;
    for item in items {
        awaited = match item {
            Item::Cond(c) => awaited.cond(c)?,
            Item::Word(word) => awaited.word(word.as_str())?,
            Item::Cell(x) => awaited.cell(x, &mut arms)?,
            Item::Quoted(_) => return Err(no_form()),
        };
    }
    match awaited {
        Awaited::End(x) => cell(alloc, Gx::Case(arms, x)),
        Awaited::When | Awaited::Then(_) | Awaited::Last => Err(no_form()),
    }
}
