//! The query graph: boxes that stand in one list, and the quantifiers that they own.
#![tactic(auto)]

mod absorbed;
mod box_places;
mod copies;
mod counts;
mod flags;
mod free;
mod graph;
mod kinds;
mod made;
mod marks;
mod moves;
mod node;
mod owned;
mod parts;
mod places;
mod quants;
mod shifted;
mod slots;
mod tables;
mod uses;
mod walks;

pub use box_places::{Places, node_at};
pub use counts::{Counts, uses_of};
pub use free::{add_names_of_node, free_in, is_marked, mark_each, owned_by, reached};
pub use graph::Graph;
pub use kinds::{BaseTable, BoxId, BoxKind, Distinct, QuantKind, Role, SetOperator};
pub use made::NewBox;
pub use marks::{Marks, mark_ids, mark_overs};
pub use node::Node;
pub use owned::{Owned, OwnedQuant, Quant, has_range};
pub use parts::BoxParts;
pub use places::{has_box, has_quant};
pub use qgm_terms::{Arm, Column, Conds, Gc, Gx, Head, Link, Op, QuantId, QuantNode};
pub use quants::Quants;
pub use shared_types::Walk;
