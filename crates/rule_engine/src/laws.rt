// Candidates and the choice among them, as theorems.
ghost use Rattle.rule_engine.specs.Examples.{DrawsOfSeven, MagicFirst, SecondIsEarliest};
ghost use Rattle.rule_engine.specs.Laws.{CandidatesAreExact, EnabledAreExact, NextIsCandidate, NoneLeft, WalksTheGraph};

/// The candidates are exactly the places of enabled rules at the boxes of the walk, which the graph has; what is next is a candidate, and there is none only where there is no candidate. It does nothing.
pub fn control_laws()
    ensures enabled { EnabledAreExact }
    ensures exact { CandidatesAreExact }
    ensures walk { WalksTheGraph }
    ensures next { NextIsCandidate }
    ensures none { NoneLeft }
{}

/// What is drawn, which rules are enabled and which candidate is the earliest, by example. It does nothing.
pub fn control_examples()
    ensures draws { DrawsOfSeven }
    ensures enabled { MagicFirst }
    ensures earliest { SecondIsEarliest }
{}
