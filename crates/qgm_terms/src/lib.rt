//! Expressions and conditions, and the heads and condition lists of boxes
//! (Pirahesh, Hellerstein and Hasan 1992, 2.1).
#![tactic(auto)]

mod chains;
mod connectives;
mod copies;
mod depths;
mod named;
mod names;
mod parts;
mod rebuilt;
mod shifts;
mod sought;
mod substitution;
mod tree;

pub use chains::{anded, chained, negated, ored};
pub use connectives::{both, either};
pub use copies::{copy, copy_cond, copy_conds, copy_head};
pub use depths::{fits, fits_cond};
pub use named::{Column, QuantId, QuantNode};
pub use names::{add_names, add_names_of_cells, add_names_of_cond, add_names_of_conds};
pub use parts::{Conds, Head};
pub use shifts::{shift, shift_cells, shift_cond, shift_conds};
pub use sought::Sought;
pub use substitution::{substitute, substitute_cond, substitute_conds, substitute_head};
pub use tree::{Aggregate, Arm, Gc, Gx, Link, Op, ROOM, Sign, Taken};
