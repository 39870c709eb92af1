// What holds of rewritings by the rules that are built, as theorems.
ghost use Rattle.rule_set.specs.BoxLimit.{FiringsKeepLimit, StepsKeepLimit};
ghost use Rattle.rule_set.specs.MagicEnds.{MagicEnds, MagicLowers};

/// Class magic ends: each firing of a rule of the class lowers the measure (`lowers`), so boxes and quantifiers bound how many fire by that class alone (`ends`). It does nothing.
pub fn magic_laws()
    ensures lowers { MagicLowers }
    ensures ends { MagicEnds }
{}

/// A graph of fewer than 65,536 boxes has fewer than 65,536 after a firing (`firings`), and so after a step (`steps`). It does nothing.
pub fn box_limit_laws()
    ensures firings { FiringsKeepLimit }
    ensures steps { StepsKeepLimit }
{}
