// How many sections came to what.
ghost use Rattle.std.specs.Prelude.{◌≡◌};
ghost use Rattle.sql_cases.specs.Tallies.{cases_after, others_after, faults_after, status_by};

use crate::cases::Outcome;

/// How many sections came to what. Each number stays at the greatest u64.
#[derive(Clone, Copy)]
pub struct Tally {
    /// The cases.
    pub cases: u64,
    /// Those of them that are answered otherwise.
    pub others: u64,
    /// What can't be read.
    pub faults: u64,
}

impl Tally {
    /// Nothing so far.
    pub fn new() -> Self
        ensures cases { result.cases ≡ 0 }
        ensures others { result.others ≡ 0 }
        ensures faults { result.faults ≡ 0 }
    {
        Tally {
            cases: 0,
            others: 0,
            faults: 0,
        }
    }

    /// A section more. A case is counted once, however it is answered.
    pub fn add(&mut self, outcome: &Outcome)
        ensures cases { self.new.cases ≡ cases_after outcome.now self.old.cases }
        ensures others { self.new.others ≡ others_after outcome.now self.old.others }
        ensures faults { self.new.faults ≡ faults_after outcome.now self.old.faults }
    {
        match outcome {
            Outcome::Taken => {}
            Outcome::AsWanted => self.cases = self.cases.saturating_add(1),
            Outcome::Otherwise(_) => {
                self.cases = self.cases.saturating_add(1);
                self.others = self.others.saturating_add(1);
            }
            Outcome::Faulty(_) => self.faults = self.faults.saturating_add(1),
        }
    }

    /// The numbers of another script more.
    pub fn add_all(&mut self, other: Tally) {
        self.cases = self.cases.saturating_add(other.cases);
        self.others = self.others.saturating_add(other.others);
        self.faults = self.faults.saturating_add(other.faults);
    }

    /// The exit status: 2 where something can't be read, else 1 where a case is answered otherwise, else 0.
    pub fn status(&self) -> u8
        ensures { result ≡ status_by self.now.faults self.now.others }
    {
        if self.faults > 0 {
            2
        } else if self.others > 0 {
            1
        } else {
            0
        }
    }
}
