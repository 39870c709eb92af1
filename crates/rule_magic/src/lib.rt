//! Magic decorrelation: the box under a fed one absorbs the bindings that it is fed with. Rules G2 to G5, and laws of the measure and calm graphs.
#![tactic(auto)]

mod absorb_group;
mod absorb_outer;
mod absorb_select;
mod absorb_set;
mod fed;
mod heads;
mod laws;
mod operands;
mod parts;
mod renamed;
mod tags;

pub use absorb_group::AbsorbGroup;
pub use absorb_outer::AbsorbOuterJoin;
pub use absorb_select::AbsorbSelect;
pub use absorb_set::AbsorbSetOperation;
pub use laws::{absorbing_laws, calm_laws, measure_laws, row_laws};
