// The laws, as theorems.
ghost use Rattle.qgm_size_laws.specs.SizeLaws.{CellCounted, CondCounted, LaidSize};

/// The nodes of a cell and of a condition are those that are counted for the expression and the
/// condition of the query; the boxes of a query have no more nodes than are counted for it, and one for
/// each column of them. It does nothing.
pub fn laid_size_laws()
    ensures cell { CellCounted }
    ensures cond { CondCounted }
    ensures laid { LaidSize }
{}
