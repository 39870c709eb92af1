// What the passes over boxes compute, as theorems.
ghost use Rattle.qgm_wellformed.specs.Laws.{AddedGoes, FindsAlone, FindsFault, FindsFree, FindsNone, FindsView, FindsViewers, FreeAscends, MarksReached, OrderedIfWell};
ghost use Rattle.qgm_wellformed.specs.Walked.{ListsEachOnce, ListsReached};

/// Of boxes in order: the pass from a box marks what the box reaches, what is found free is free and ascends, who is found to see a quantifier sees it, and what is found in view is in view. It does nothing.
pub fn view_laws()
    ensures reaches { MarksReached }
    ensures free { FindsFree }
    ensures ascends { FreeAscends }
    ensures alone { FindsAlone }
    ensures sees { FindsViewers }
    ensures in_view { FindsView }
{}

/// No fault is found where a graph is well-formed, and the fault that is found is the least; the boxes of a well-formed graph are in order. It does nothing.
pub fn fault_laws()
    ensures none { FindsNone }
    ensures fault { FindsFault }
    ensures ordered { OrderedIfWell }
{}

/// A box that is added to a graph goes when the graph is compacted, if the root reached all boxes before: the graph is as it was. It does nothing.
pub fn compact_laws()
    ensures { AddedGoes }
{}

/// Both walks of a graph list exactly the boxes that the root reaches, each once. It does nothing.
pub fn walk_laws()
    ensures reached { ListsReached }
    ensures once { ListsEachOnce }
{}
