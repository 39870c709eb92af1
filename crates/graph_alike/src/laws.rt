// The laws, as theorems.
ghost use Rattle.graph_alike.specs.AlikeLaws.{OneText, WalksMeet};

/// Well-formed graphs that differ in numbers alone, one to one, print one text, and their walks meet box
/// by box. It does nothing.
pub fn alike_laws()
    ensures text { OneText }
    ensures walks { WalksMeet }
{}
