//! The cells and conditions that are made of the values and tests of a query, the boxes that are made so
//! far, and what is seen at a place of a query.
#![tactic(auto)]

mod boxes;
mod folds;
mod frames;
mod groups;
mod heads;
mod left;
mod made;
mod ons;
mod parts;
mod seen;
mod setting;
mod slots;
mod store;
mod terms;
mod types;

pub use boxes::push_boxed;
pub use folds::{Fold, list_folds, test_folds};
pub use frames::{Ranges, frame, frame_all, from_width, next_id, push_refs};
pub use groups::{after, fold_terms, group_cells, key_frame, ungrouped_cells};
pub use heads::{add_boxed, head_of};
pub use made::{Shared, Store, most_nodes};
pub use ons::{all_on_conds, all_on_folds, joined_frame, on_conds, on_folds};
pub use parts::seen_term;
pub use seen::{Scopes, Seen, in_frame};
pub use setting::{Ground, Known, Named, Names, Seat, Setting, Site, setting_of, site_of};
pub use slots::Slots;
pub use store::{draw, number, number_named, put, row_type};
pub use terms::{test, value, values};
