// What the definition of the text comes to.
ghost use Rattle.graph_print.specs.Examples.{OfGraphs, OfTerms};

/// Graphs, expressions and conditions have these texts. It does nothing.
pub fn examples()
    ensures graphs { OfGraphs }
    ensures terms { OfTerms }
{}
