// How many steps came to what.
use crate::run::Outcome;

/// How many steps came to what. Each number stays at the greatest u64.
#[derive(Clone, Copy)]
pub struct Tally {
    /// The graphs.
    pub graphs: u64,
    /// What is to be so, of them and of what edits make of them.
    pub answers: u64,
    /// What is otherwise.
    pub others: u64,
    /// What can't be read or done.
    pub faults: u64,
}

impl Tally {
    /// Nothing so far.
    pub fn new() -> Self {
        Tally {
            graphs: 0,
            answers: 0,
            others: 0,
            faults: 0,
        }
    }

    /// A step more.
    pub fn add(&mut self, outcome: &Outcome) {
        match outcome {
            Outcome::Drawn => self.graphs = self.graphs.saturating_add(1),
            Outcome::Edited => {}
            Outcome::AsWanted => self.answers = self.answers.saturating_add(1),
            Outcome::Otherwise(_) => self.others = self.others.saturating_add(1),
            Outcome::Faulty(_, _) => self.faults = self.faults.saturating_add(1),
        }
    }

    /// The numbers of another script more.
    pub fn add_all(&mut self, other: Tally) {
        self.graphs = self.graphs.saturating_add(other.graphs);
        self.answers = self.answers.saturating_add(other.answers);
        self.others = self.others.saturating_add(other.others);
        self.faults = self.faults.saturating_add(other.faults);
    }

    /// The exit status: 2 where something can't be read or done, else 1 where something is otherwise,
    /// else 0.
    pub fn status(&self) -> u8 {
        if self.faults > 0 {
            2
        } else if self.others > 0 {
            1
        } else {
            0
        }
    }
}
