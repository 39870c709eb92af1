// The clauses that a graph keeps.
use qgm_core::BoxId;

/// What a graph must keep.
#[derive(Clone, Copy, Debug, PartialEq, Eq)]
pub enum Clause {
    /// Each number that is named is that of a box or a quantifier of the graph.
    I1,
    /// Each quantifier has one owner.
    I2,
    /// Each quantifier ranges over a box of lower rank than its owner.
    I3,
    /// Each column that is named is there.
    I4,
    /// Types agree.
    I5,
    /// Each name is in view, and the root has no free quantifier.
    I6,
    /// Each open box has one quantifier over it, and the root has none.
    I7,
    /// A PERMIT box isn't the root and has no F or S quantifier over it.
    I8,
    /// Each box has the shape of its kind and role.
    I9,
}

/// A clause that fails, and the least box at which it does; the greatest `usize` for a root that
/// the graph lacks.
#[derive(Clone, Copy, Debug, PartialEq, Eq)]
pub struct Fault {
    pub clause: Clause,
    pub at: BoxId,
}
