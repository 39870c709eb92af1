// The laws, as theorems.
ghost use Rattle.rule_facts.specs.FactsWithoutDistinct.{FactsWithoutDistinct};
ghost use Rattle.rule_facts.specs.Laws.{WellFormedHolds, WellFormedMeets};

/// A graph in which the check finds nothing meets what inference asks, over all tables that satisfy
/// its bases, and what is inferred of it holds there; no fact but a key hangs on the distinctness of a box. It
/// does nothing.
pub fn premise_laws()
    ensures premises { WellFormedMeets }
    ensures holds { WellFormedHolds }
    ensures without_distinct { FactsWithoutDistinct }
{}
