// The laws, as theorems.
ghost use Rattle.qgm_props.specs.Examples.{OfExpressions, OfConditions, OfAggregates, OfBoxes, OfRows, OfNulls, OfKeys, OfCalm, OfScalars};
ghost use Rattle.qgm_props.specs.Laws.{AllTold, ArmsFit, CleanFits, FactsFit, Founded, InferredHolds, JoinedFits, KeysExact, KeysHold, Least, StepHolds};
ghost use Rattle.qgm_props.specs.Lowering.{AbsorbLowers, FeedLowers, SingleLowers};
ghost use Rattle.qgm_props.specs.Measure.{MeasureBound, MeasureFalls, NeverNegative};

/// What is inferred of boxes is the least set of facts that the sentences give, and it holds. A box that is inferred to be clean is so, with or without DISTINCT, in each environment that fits. It does nothing.
pub fn fact_laws()
    ensures least { Least }
    ensures step { StepHolds }
    ensures facts { InferredHolds }
    ensures clean { CleanFits }
    ensures told { AllTold }
    ensures founded { Founded }
    ensures keys { KeysHold }
    ensures exact { KeysExact }
    ensures fit { FactsFit }
    ensures arms { ArmsFit }
    ensures joined { JoinedFits }
{}

/// What is inferred of small graphs, sentence by sentence. It does nothing.
pub fn examples()
    ensures expressions { OfExpressions }
    ensures conditions { OfConditions }
    ensures aggregates { OfAggregates }
    ensures boxes { OfBoxes }
    ensures rows { OfRows }
    ensures nulls { OfNulls }
    ensures keys { OfKeys }
    ensures calm { OfCalm }
    ensures scalars { OfScalars }
{}

/// A well-formed graph has no more fed boxes than open ones, so the measure is never negative and falls where it is lowered; it is bounded by boxes and quantifiers; and what decorrelation does to open boxes, fed boxes and scalar subqueries lowers it. It does nothing.
pub fn measure_laws()
    ensures never_negative { NeverNegative }
    ensures falls { MeasureFalls }
    ensures bound { MeasureBound }
    ensures fed { FeedLowers }
    ensures absorbed { AbsorbLowers }
    ensures singled { SingleLowers }
{}
