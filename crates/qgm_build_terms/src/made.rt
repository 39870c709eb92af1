// The boxes that were made so far, and how many nodes they may have.
ghost use Rattle.std.specs.Prelude.{◌≡◌, ◌+◌, ◌≤◌};
ghost use Rattle.qgm_box_size.specs.Nodes.{boxes_size};
ghost use Rattle.qgm_build_terms.specs.Most as spec;
ghost use Rattle.qgm_core.specs.Made.{boxes_of};

use qgm_core::{BoxId, NewBox, QuantId};
use shared_types::Text;
use sql_value::SqlType;
use sqlite_items::Items;

/// How many nodes the cells and conditions of the boxes of a graph may have. Past them the answer is
/// want of memory.
pub fn most_nodes() -> usize
    ensures { result ≡ spec.most_nodes }
{
    4_194_304
}

/// The box that all share who name a table or a view.
#[derive(Drop)]
pub struct Shared {
    pub name: Text,
    pub number: BoxId,
}

/// The boxes so far, each with a number that is its place, and the next number of a quantifier; the
/// types of the columns of boxes and of quantifiers, by their numbers, and the boxes of tables and views;
/// and how many nodes of cells and conditions may still be made. Contracts see it as the `Boxes` that it
/// is.
#[derive(Drop)]
pub struct Store {
    pub made: Vec<NewBox>,
    pub next_quant: QuantId,
    pub types: Vec<Items<SqlType>>,
    pub rows: Vec<Items<SqlType>>,
    pub shared: Vec<Shared>,
    pub left: usize,
    pub ghost counted: { boxes_size (boxes_of made.items) + left ≤ spec.most_nodes },
}
