// What is closed and what is counted, as theorems.
ghost use Rattle.box_exec.specs.Closed.{ClosedAlike, PlainOfClosed};
ghost use Rattle.box_exec.specs.Settled.{BoundIfTouched, FitIfSettled};

/// A box that the root reaches is closed exactly where no quantifier is free in it; where all are, loops that skip nothing evaluate each of them once; boxes of a graph in which nothing is looked up but where it is bound are fit to be executed, and no quantifier is named beyond a root that looks nothing up. It does nothing.
pub fn execution_laws()
    ensures closed { ClosedAlike }
    ensures plain { PlainOfClosed }
    ensures fit { FitIfSettled }
    ensures bound { BoundIfTouched }
{}
