// The rules by name: the word, the class and the rank of each, said once.
ghost use Rattle.std.specs.Prelude.{◌≡◌};
ghost use Rattle.rule_api.specs.RuleIds as spec;

use rule_plan::Class;

/// A rewrite rule, in the order in which `Order::Priority` takes them.
#[derive(Clone, Copy, PartialEq, Eq)]
pub enum RuleId {
    /// A select is merged into the select that reads it.
    M1,
    /// A box that gives what the box under it gives goes.
    M2,
    /// EXISTS becomes a join.
    U1,
    /// A scalar subquery becomes a group that tells whether there is one row.
    U2,
    /// A scalar subquery of exactly one row becomes a join.
    U3,
    /// INTERSECT and EXCEPT become EXISTS and NOT EXISTS.
    U4,
    /// DISTINCT over a key goes.
    L1,
    /// DISTINCT may go under EXISTS.
    L2,
    /// DISTINCT under UNION goes.
    L3,
    /// A predicate moves into a select.
    P1,
    /// A predicate on keys moves through a GROUP BY.
    P2,
    /// A predicate moves into both arms of a set operation.
    P3,
    /// A predicate moves into the left arm of an outer join.
    P4,
    /// An equality follows from two of columns.
    J1,
    /// An equality with a literal follows from one of columns.
    J2,
    /// A column that nothing reads goes.
    N1,
    /// A quantifier over one row that nothing reads goes.
    N2,
    /// A correlated box is fed with the bindings that its reader asks for.
    G1,
    /// A select takes the bindings that it is fed with.
    G2,
    /// A group takes them.
    G3,
    /// A set operation takes them.
    G4,
    /// An outer join takes them.
    G5,
}

/// What is known of a rule by its name.
#[derive(Clone, Copy)]
pub struct RuleEntry {
    /// Its name as it is printed.
    pub word: &'static [u8],
    /// The class that it is of.
    pub class: Class,
    /// Its place among all rules, from 0.
    pub rank: u8,
}

impl RuleId {
    /// All rules, by rank.
    pub fn all() -> [RuleId; 22]
        ensures { result ≡ spec.all_rules }
    {
        [
            RuleId::M1,
            RuleId::M2,
            RuleId::U1,
            RuleId::U2,
            RuleId::U3,
            RuleId::U4,
            RuleId::L1,
            RuleId::L2,
            RuleId::L3,
            RuleId::P1,
            RuleId::P2,
            RuleId::P3,
            RuleId::P4,
            RuleId::J1,
            RuleId::J2,
            RuleId::N1,
            RuleId::N2,
            RuleId::G1,
            RuleId::G2,
            RuleId::G3,
            RuleId::G4,
            RuleId::G5,
        ]
    }

    /// What is known of it.
    pub fn entry(self) -> RuleEntry
        ensures word { result.word.now ≡ (spec.entry_of self).word }
        ensures class { result.class ≡ (spec.entry_of self).class }
        ensures rank { result.rank ≡ (spec.entry_of self).rank }
    {
        let (word, class, rank): (&'static [u8], Class, u8) = match self {
            RuleId::M1 => (b"M1", Class::Merge, 0),
            RuleId::M2 => (b"M2", Class::Merge, 1),
            RuleId::U1 => (b"U1", Class::Subquery, 2),
            RuleId::U2 => (b"U2", Class::Subquery, 3),
            RuleId::U3 => (b"U3", Class::Subquery, 4),
            RuleId::U4 => (b"U4", Class::Subquery, 5),
            RuleId::L1 => (b"L1", Class::Distinct, 6),
            RuleId::L2 => (b"L2", Class::Distinct, 7),
            RuleId::L3 => (b"L3", Class::Distinct, 8),
            RuleId::P1 => (b"P1", Class::Push, 9),
            RuleId::P2 => (b"P2", Class::Push, 10),
            RuleId::P3 => (b"P3", Class::Push, 11),
            RuleId::P4 => (b"P4", Class::Push, 12),
            RuleId::J1 => (b"J1", Class::Trans, 13),
            RuleId::J2 => (b"J2", Class::Trans, 14),
            RuleId::N1 => (b"N1", Class::Prune, 15),
            RuleId::N2 => (b"N2", Class::Prune, 16),
            RuleId::G1 => (b"G1", Class::Magic, 17),
            RuleId::G2 => (b"G2", Class::Magic, 18),
            RuleId::G3 => (b"G3", Class::Magic, 19),
            RuleId::G4 => (b"G4", Class::Magic, 20),
            RuleId::G5 => (b"G5", Class::Magic, 21),
        };
        RuleEntry { word, class, rank }
    }

    /// Its place among all rules, from 0.
    pub fn rank(self) -> u8
        ensures { result ≡ spec.rank_of self }
    {
        self.entry().rank
    }

    /// Whether it is of a class. U2 is of two: subquery, and magic, which it serves first.
    pub fn is_of(self, class: Class) -> bool
        ensures { result ≡ spec.is_of class self }
    {
        let entry = self.entry();
        class == entry.class || (Class::Magic == class && self.rank() == RuleId::U2.rank())
    }
}
