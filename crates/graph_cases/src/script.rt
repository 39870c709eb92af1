// The steps of a script.
use crate::faults::LineError;
use std::alloc::Global;

/// A line of a script.
#[derive(Drop)]
pub struct Line {
    /// Its number, from 1.
    pub number: usize,
    pub text: String,
}

/// A line, with the lines below it that say more of it.
#[derive(Drop)]
pub struct Step {
    pub first: Line,
    pub below: Vec<Line>,
}

// The first words of lines that say more of one above them.
const WORDS_OF_MORE: [&str; 12] = [
    "out", "order", "root", "box", "quant", "head", "on", "where", "key", "not-null", "table",
    "row",
];

// Whether a line says more of one above it.
fn says_more(text: &str) -> bool {
    match text.split_whitespace().next() {
        Some(word) => WORDS_OF_MORE.contains(&word),
        None => false,
    }
}

/// The steps of a script, in order. Blank lines and those that begin with `#` are left out.
pub fn steps(alloc: Global, script: &str) -> Result<Vec<Step>, LineError> {
    let mut steps: Vec<Step> = Vec::new(alloc);
    for (place, text) in script.lines().enumerate() {
        if text.is_empty() || text.starts_with('#') {
            continue;
        }
        let line = Line {
            number: place.saturating_add(1),
            text: String::from_str(alloc, text)?,
        };
        if says_more(text) && !steps.is_empty() {
            if let Some(step) = steps.last_mut() {
                step.below.push(line)?;
            }
        } else {
            steps.push(Step {
                first: line,
                below: Vec::new(alloc),
            })?;
        }
    }
    Ok(steps)
}
