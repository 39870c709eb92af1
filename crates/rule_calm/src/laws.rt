// The laws, as theorems.
ghost use Rattle.rule_api.specs.declared.rule_id.RuleId.TheVariants.{U2, G1, G2, G3, G4, G5};
ghost use Rattle.rule_calm.specs.CalmCloses.{CalmCloses, CalmRewritesClose};
ghost use Rattle.rule_calm.specs.Decorrelated.{MagicAddsFew, MagicDecorrelates, MagicKeepsSettled};
ghost use Rattle.rule_calm.specs.SettledCloses.{SettledCloses};
ghost use Rattle.rule_calm.specs.SettledKept.{KeepsSettled};
ghost use Rattle.rule_calm.specs.SettledSample.{SettledSample};

/// In a calm graph of at most 65,530 boxes, where no rule of class magic has a place, each box that the root reaches is closed (`closes`). So it is where a rewriting with that class ends in such a graph before its budget is spent (`rewrites`). It does nothing.
pub fn calm_graph_laws()
    ensures closes { CalmCloses }
    ensures rewrites { CalmRewritesClose }
{}

/// A firing on a settled graph leaves a settled graph: of U2, which has no place there (`scalar`), of G1 (`feed`), G2 (`select`), G3 (`group`), G4 (`set`) and G5 (`outer`), so of each rule of class magic (`magic`). So class magic alone closes a settled graph, where the budget is twice its boxes and three times its quantifiers, and the graph after has at most 65,530 boxes (`closes`). A firing of the class adds at most three boxes (`grows`), so the graph after has no more where the one before has room (`decorrelates`). There are settled graphs with open boxes (`sample`). It does nothing.
pub fn settled_graph_laws()
    ensures scalar { KeepsSettled U2 }
    ensures feed { KeepsSettled G1 }
    ensures select { KeepsSettled G2 }
    ensures group { KeepsSettled G3 }
    ensures set { KeepsSettled G4 }
    ensures outer { KeepsSettled G5 }
    ensures magic { MagicKeepsSettled }
    ensures closes { SettledCloses }
    ensures grows { MagicAddsFew }
    ensures decorrelates { MagicDecorrelates }
    ensures sample { SettledSample }
{}
