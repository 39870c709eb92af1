// What a script asks of a graph, and the answers as text. A further kind of question is a variant of
// `Question`, and a function of a graph that gives a text.
use crate::faults::LineError;
use crate::items::number;
use crate::known::{need, need_box, need_quant};
use qgm_check::{IllFormed, check_graph};
use qgm_core::{BoxId, Graph, Quant, QuantId, QuantKind, Walk};
use qgm_wellformed::{Clause, Fault};
use sql_value::OrderKey;
use std::alloc::Global;
use std::str::SplitWhitespace;

/// What is asked of a graph. An empty list is answered by `none`.
#[derive(Clone, Copy)]
pub enum Question {
    /// `check`: `ok`, or the clause that fails and its box, as `I3 2`.
    Check,
    /// `walk depth`, `walk breadth`: the boxes, in order.
    Walk(Walk),
    /// `free B`: the quantifiers that are free in a box.
    Free(BoxId),
    /// `uses B`: how many quantifiers range over a box.
    Uses(BoxId),
    /// `rank B`
    Rank(BoxId),
    /// `root`
    Root,
    /// `len`: how many boxes there are.
    Len,
    Slots,
    /// `names`: the output columns, each its name or `-`.
    Names,
    /// `keys`: the keys of the order, as `1 asc 2 desc`.
    Keys,
    /// `quantifiers B`: those that a box owns.
    Quants(BoxId),
    /// `quantifier Q`: its owner, what it ranges for, and the box that it ranges over, as `2 F 1`.
    Quant(QuantId),
    /// `quantifier-at B K`: the same of the quantifier of a box at a place, from 1.
    QuantAt(BoxId, usize),
}

impl Question {
    /// The question that a text is, if it is one by its first word.
    pub fn read(text: &str) -> Result<Option<Question>, LineError> {
        let mut words = text.split_whitespace();
        let question = match words.next() {
            Some(word) => next_question(word, &mut words),
            None => Ok(None),
        };
        whole(question, words.next())
    }

    /// The answer.
    pub fn answer(self, alloc: Global, graph: &Graph) -> Result<String, LineError> {
        match self {
            Question::Check => checked(alloc, graph),
            Question::Walk(walk) => listed(alloc, &graph.walk(alloc, walk)?),
            Question::Free(b) => free(alloc, graph, b),
            Question::Uses(b) => one(alloc, graph.uses(b)),
            Question::Rank(b) => rank(alloc, graph, b),
            Question::Root => one(alloc, graph.root()),
            Question::Len => one(alloc, graph.len()),
            Question::Slots => one(alloc, graph.slots()),
            Question::Names => named(alloc, graph),
            Question::Keys => keyed(alloc, graph.order().as_slice()),
            Question::Quants(b) => owned(alloc, graph, b),
            Question::Quant(q) => quant(alloc, graph, q),
            Question::QuantAt(b, k) => quant_at(alloc, graph, b, k),
        }
    }
}

// A question that no word may stand behind.
fn whole(
    question: Result<Option<Question>, LineError>,
    more: Option<&str>,
) -> Result<Option<Question>, LineError> {
    match (question?, more) {
        (Some(_), Some(_)) => Err(LineError::Faulty("more is asked than can be")),
        (question, _) => Ok(question),
    }
}

// A question, by its first word and those behind it.
fn next_question(
    word: &str,
    words: &mut SplitWhitespace<'_>,
) -> Result<Option<Question>, LineError> {
    match word {
        "walk" => walk_by(next_walk(words)),
        "quantifier-at" => quant_of(next_number(words), next_number(words)),
        word => match of_word(word) {
            None => Ok(of_next(word, words.next())),
            asked => Ok(asked),
        },
    }
}

// The question of a walk.
fn walk_by(walk: Result<Walk, LineError>) -> Result<Option<Question>, LineError> {
    Ok(Some(Question::Walk(walk?)))
}

// The question of a quantifier at a place of a box.
fn quant_of(
    b: Result<BoxId, LineError>,
    k: Result<usize, LineError>,
) -> Result<Option<Question>, LineError> {
    Ok(Some(Question::QuantAt(b?, k?)))
}

// A question of one word.
fn of_word(word: &str) -> Option<Question> {
    match word {
        "check" => Some(Question::Check),
        "root" => Some(Question::Root),
        "len" => Some(Question::Len),
        "slots" => Some(Question::Slots),
        "names" => Some(Question::Names),
        "keys" => Some(Question::Keys),
        _ => None,
    }
}

// A question of a number, by its first word and the next one.
fn of_next(word: &str, next: Option<&str>) -> Option<Question> {
    match next?.parse::<usize>() {
        Ok(n) => of_number(word, n),
        Err(_) => None,
    }
}

// A question of a number, by its first word.
fn of_number(word: &str, n: usize) -> Option<Question> {
    match word {
        "free" => Some(Question::Free(n)),
        "uses" => Some(Question::Uses(n)),
        "rank" => Some(Question::Rank(n)),
        "quantifiers" => Some(Question::Quants(n)),
        "quantifier" => Some(Question::Quant(n)),
        _ => None,
    }
}

// The number that stands next.
fn next_number(words: &mut SplitWhitespace<'_>) -> Result<usize, LineError> {
    match words.next() {
        Some(word) => number(word),
        None => Err(LineError::Faulty("a number is missing")),
    }
}

// The order that a walk goes by.
fn next_walk(words: &mut SplitWhitespace<'_>) -> Result<Walk, LineError> {
    match words.next() {
        Some("depth") => Ok(Walk::Depth),
        Some("breadth") => Ok(Walk::Breadth),
        _ => Err(LineError::Faulty("a walk is depth or breadth")),
    }
}

fn free(alloc: Global, graph: &Graph, b: BoxId) -> Result<String, LineError> {
    need_box(graph, b)?;
    listed(alloc, &graph.free(alloc, b)?)
}

fn rank(alloc: Global, graph: &Graph, b: BoxId) -> Result<String, LineError> {
    need_box(graph, b)?;
    one(alloc, graph.rank(b))
}

fn owned(alloc: Global, graph: &Graph, b: BoxId) -> Result<String, LineError> {
    need_box(graph, b)?;
    listed(alloc, graph.quants(b).as_slice())
}

fn quant(alloc: Global, graph: &Graph, q: QuantId) -> Result<String, LineError> {
    need_quant(graph, q)?;
    quant_text(alloc, graph.quant(q))
}

fn quant_at(alloc: Global, graph: &Graph, b: BoxId, k: usize) -> Result<String, LineError> {
    need_box(graph, b)?;
    let owned = graph.quants(b).as_slice().len();
    need(1 <= k && k <= owned, "the box has no such quantifier")?;
    quant_text(alloc, graph.quant_at(b, k))
}

fn one(alloc: Global, number: usize) -> Result<String, LineError> {
    Ok(format!(in alloc; "{number}")?)
}

// A list, `none` where nothing stands in it.
fn or_none(list: String) -> Result<String, LineError> {
    let mut text = list;
    if text.is_empty() {
        text.push_str("none")?;
    }
    Ok(text)
}

// Numbers parted by blanks.
fn listed(alloc: Global, numbers: &[usize]) -> Result<String, LineError> {
    let mut text = String::new(alloc);
    for number in numbers {
        if !text.is_empty() {
            text.push(' ')?;
        }
        write!(text, "{number}")?;
    }
    or_none(text)
}

// The names of the output columns.
fn named(alloc: Global, graph: &Graph) -> Result<String, LineError> {
    let mut text = String::new(alloc);
    for name in graph.names().as_slice() {
        if !text.is_empty() {
            text.push(' ')?;
        }
        match name {
            Some(name) => text.push_str(name.to_utf8(alloc)?.as_str())?,
            None => text.push('-')?,
        }
    }
    or_none(text)
}

// The keys of an order.
fn keyed(alloc: Global, keys: &[OrderKey]) -> Result<String, LineError> {
    let mut text = String::new(alloc);
    for key in keys {
        if !text.is_empty() {
            text.push(' ')?;
        }
        let column = key.column;
        let direction = if key.descending { "desc" } else { "asc" };
        write!(text, "{column} {direction}")?;
    }
    or_none(text)
}

// A quantifier, behind its number.
fn quant_text(alloc: Global, quant: Quant) -> Result<String, LineError> {
    let owner = quant.owner;
    let kind = match quant.kind {
        QuantKind::F => "F",
        QuantKind::E => "E",
        QuantKind::A => "A",
        QuantKind::S => "S",
    };
    let over = quant.over;
    Ok(format!(in alloc; "{owner} {kind} {over}")?)
}

fn clause_name(clause: Clause) -> &'static str {
    match clause {
        Clause::I1 => "I1",
        Clause::I2 => "I2",
        Clause::I3 => "I3",
        Clause::I4 => "I4",
        Clause::I5 => "I5",
        Clause::I6 => "I6",
        Clause::I7 => "I7",
        Clause::I8 => "I8",
        Clause::I9 => "I9",
    }
}

// What `check_graph` says.
fn checked(alloc: Global, graph: &Graph) -> Result<String, LineError> {
    match check_graph(alloc, graph) {
        Ok(()) => Ok(String::from_str(alloc, "ok")?),
        Err(IllFormed::Fails(Fault { clause, at })) => {
            let clause = clause_name(clause);
            Ok(format!(in alloc; "{clause} {at}")?)
        }
        Err(IllFormed::Memory) => Err(LineError::Memory),
    }
}
