// The laws, as theorems.
ghost use Rattle.rule_alike.specs.FiringLaws.{CandidatesAlike, LeadAlike, NextAlike};
ghost use Rattle.rule_alike.specs.Firings.{ActsAlike, PairsAlike};

use rule_engine::Rules;

/// Of graphs that differ in numbers alone, under any rules that have the same places in such graphs, the
/// candidates are alike, and the next of them. It does nothing.
pub fn rule_alike_laws()
    ensures candidates { CandidatesAlike }
    ensures next { NextAlike }
{}

/// As many firings of these rules lead from such graphs to such graphs, where the rules have the same
/// places in them, and each action leads to such graphs. It does nothing.
pub fn leads_alike<R: Rules>(rules: &R)
    ensures { PairsAlike (R.pairs rules.now) → ActsAlike (R.act rules.now) → LeadAlike (R.pairs rules.now) (R.may rules.now) (R.act rules.now) }
{
    let _rules = rules;
}
