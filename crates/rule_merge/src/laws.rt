// The laws, as theorems.
ghost use Rattle.rule_merge.specs.DropLaws.{DropKeeps, DropShaped, DropTyped, DropWellFormed};
ghost use Rattle.rule_merge.specs.Examples.{Dropped, Same};
ghost use Rattle.rule_merge.specs.MergeLaws.{MergeDistinctTyped, MergeKeeps, MergeTyped};
ghost use Rattle.rule_merge.specs.MergeSelectBounds.{MergeFew, MergeLevels};
ghost use Rattle.rule_merge.specs.MergeShapes.{MergeDistinctShaped, MergeDistinctWellFormed, MergeShaped, MergeWellFormed};
ghost use Rattle.rule_merge.specs.MergesDistinct.{MergeDistinctKeeps};
ghost use Rattle.rule_merge.specs.MergesPermit.{ClosedMerges, MergeAny, MergePermitKeeps};

/// M1 keeps all: the root's bag, soundness, shapes and types, and the check finds nothing more; at an ENFORCE box over an ENFORCE box too, and at a PERMIT box where rows are clean; it adds few nodes, and no level that is too deep; of a small graph the rows stay. It does nothing.
pub fn merge_laws()
    ensures keeps { MergeKeeps }
    ensures distinct { MergeDistinctKeeps }
    ensures permit { MergePermitKeeps }
    ensures closed { ClosedMerges }
    ensures shaped { MergeShaped }
    ensures typed { MergeTyped }
    ensures formed { MergeWellFormed }
    ensures distinct_shaped { MergeDistinctShaped }
    ensures distinct_typed { MergeDistinctTyped }
    ensures distinct_formed { MergeDistinctWellFormed }
    ensures any { MergeAny }
    ensures few { MergeFew }
    ensures levels { MergeLevels }
    ensures same { Same }
{}

/// M2 keeps all: the root's bag, soundness, shapes and types, and the check finds nothing more; it may fire on a small graph. It does nothing.
pub fn drop_laws()
    ensures keeps { DropKeeps }
    ensures shaped { DropShaped }
    ensures typed { DropTyped }
    ensures formed { DropWellFormed }
    ensures dropped { Dropped }
{}
