//! Cells, their operations and order, truth, aggregates, and the names of columns.
#![tactic(auto)]

mod aggregate;
mod arithmetic;
mod cell;
mod character_string;
mod characters;
mod comparison;
mod level;
mod order_key;
mod pattern;
mod truth;

pub use aggregate::{Aggregate, Taken};
pub use arithmetic::{add, concat, div, mul, neg, sub};
pub use cell::{Cell, Kind, OutNames, cell_order, copy};
pub use character_string::CharacterString;
pub use comparison::{compare, is_null, same};
pub use level::{Level, greatest, least, level_of};
pub use order_key::{OrderKey, OrderKeys, SqlType};
pub use pattern::like;
pub use shared_types::{CmpOp, Text};
pub use truth::{Truth, and, decided, keep, not, or};
