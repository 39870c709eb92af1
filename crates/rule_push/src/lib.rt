//! The rules that push a conjunct down.
#![tactic(auto)]

mod decided;
mod laws;
mod leaving;
mod moves;
mod push_into_arms;
mod push_into_left;
mod push_into_select;
mod push_places;
mod push_through_group;
mod small;
mod through;

pub use laws::push_laws;
pub use push_into_arms::PushIntoArms;
pub use push_into_left::PushIntoLeft;
pub use push_into_select::PushIntoSelect;
pub use push_through_group::PushThroughGroup;
