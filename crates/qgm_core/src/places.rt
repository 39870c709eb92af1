// Where boxes stand among those of a graph.
ghost use Rattle.std.specs.Prelude.{◌≡◌, ◌<◌, Some, IfSome, position, true};
ghost use Rattle.std.specs.List.{list_any};
ghost use Rattle.qgm_core.specs.Boxes.{IsNewPlace, has_box, is_box, owns};
ghost use Rattle.list_laws.specs.Lists.{IsFirst};

use crate::kinds::BoxId;
use crate::node::Node;
use crate::owned::has_range;
use qgm_terms::QuantId;

// Where a box stands, if it does.
pub fn find_box(nodes: &[Node], b: BoxId) -> Option<usize>
    ensures { result ≡ position (is_box b) nodes.now }
{
    nodes.iter().position(|n| n.id == b)
}

// Where a box stands.
pub fn box_place(nodes: &[Node], b: BoxId) -> usize
    requires { list_any (is_box b) nodes.now ≡ true }
    ensures at { Some result ≡ position (is_box b) nodes.now }
    ensures first { IsFirst (is_box b) nodes.now result }
{
    find_box(nodes, b).unwrap()
}

// Where a new box goes: last, or just below the named one.
pub fn new_place(nodes: &[Node], below: Option<BoxId>) -> usize
    requires { IfSome below (λ c. list_any (is_box c) nodes.now ≡ true) }
    ensures { IsNewPlace below nodes.now result }
{
    match below {
        Some(c) => box_place(nodes, c) + 1,
        None => nodes.len(),
    }
}

// Where the owner of a quantifier stands, if it has one.
fn find_owner(nodes: &[Node], q: QuantId) -> Option<usize>
    ensures { result ≡ position (owns q) nodes.now }
{
    nodes.iter().position(|n| has_range(n.quants.as_slice(), q))
}

// Where the owner of a quantifier stands.
pub fn owner_place(nodes: &[Node], q: QuantId) -> usize
    requires { list_any (owns q) nodes.now ≡ true }
    ensures { IsFirst (owns q) nodes.now result }
{
    find_owner(nodes, q).unwrap()
}

/// Whether one of the boxes has the number.
pub fn has_box(nodes: &[Node], b: BoxId) -> bool
    ensures { result ≡ has_box nodes.now b }
{
    find_box(nodes, b).is_some()
}

/// Whether one of the boxes owns the quantifier.
pub fn has_quant(nodes: &[Node], q: QuantId) -> bool
    ensures { result ≡ list_any (owns q) nodes.now }
{
    find_owner(nodes, q).is_some()
}
