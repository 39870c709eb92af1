//! What every layer stands on: want of memory, characters in a row, the signs of comparison, and the
//! orders in which boxes are listed.
#![tactic(auto)]

mod compare;
mod memory;
mod text;
mod walk;

pub use compare::CmpOp;
pub use memory::OutOfMemory;
pub use text::Text;
pub use walk::Walk;
