// Boxes and quantifiers that go to another place.
ghost use Rattle.std.specs.Prelude.{◌≡◌, ◌≤◌, ◌+◌, ◌==◌, OnOk, OnErr, length, true, false};
ghost use Rattle.std.specs.List.{list_any};
ghost use Rattle.qgm_core.specs.Boxes.{has_box, is_box, owns, quants_in};
ghost use Rattle.qgm_core.specs.Edits.{moved_below, quant_moved, without_quant};
ghost use Rattle.list_laws.specs.Lists.{change, first};

use crate::kinds::BoxId;
use crate::node::Node;
use crate::owned::range_of;
use crate::places::{box_place, owner_place};
use qgm_terms::QuantId;
use shared_types::OutOfMemory;

// Moves a box just below another one.
pub fn move_below(nodes: &mut Vec<Node>, c: BoxId, d: BoxId)
    requires moved { has_box nodes.old.items c ≡ true }
    requires below { has_box nodes.old.items d ≡ true }
    requires apart { (c == d) ≡ false }
    ensures { nodes.new.items ≡ moved_below c d nodes.old.items }
{
    let i = box_place(nodes, c);
    let node = nodes.remove(i);
    let k = box_place(nodes, d);
    let _ = nodes.insert(k + 1, node);
}

// At how many places a box can own a quantifier.
pub fn places_for(nodes: &[Node], q: QuantId, b: BoxId) -> usize
    requires quant { list_any (owns q) nodes.now ≡ true }
    requires owner { has_box nodes.now b ≡ true }
    ensures { result ≡ length (quants_in (first (is_box b) (change (owns q) (without_quant q) nodes.now))) + 1 }
{
    let from = owner_place(nodes, q);
    let to = box_place(nodes, b);
    let owned = nodes[to].quants.as_slice().len();
    if from == to { owned } else { owned + 1 }
}

// Moves a quantifier to a place, from 0, of a box.
pub fn move_quant(nodes: &mut Vec<Node>, q: QuantId, b: BoxId, i: usize) -> Result<(), OutOfMemory>
    requires quant { list_any (owns q) nodes.old.items ≡ true }
    requires owner { has_box nodes.old.items b ≡ true }
    requires within { i ≤ length (quants_in (first (is_box b) (change (owns q) (without_quant q) nodes.old.items))) }
    ensures ok { OnOk result (nodes.new.items ≡ quant_moved q b i nodes.old.items) }
    ensures err { OnErr result (nodes.new.items ≡ nodes.old.items) }
{
    let from = owner_place(nodes, q);
    let to = box_place(nodes, b);
    if from == to {
        nodes[from].quants.move_to(q, i);
        return Ok(());
    }
    let range = range_of(nodes[from].quants.as_slice(), q);
    nodes[to].quants.insert(i, range)?;
    nodes[from].quants.remove(q);
    Ok(())
}
