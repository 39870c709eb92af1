// What the definition of the text comes to.
ghost use Rattle.qgm_run.specs.Examples.{OfMerge};

/// A rewriting has this text. It does nothing.
pub fn examples()
    ensures { OfMerge }
{}
