// A box whose quantifiers stand in another box in the place of one of its own.
ghost use Rattle.std.specs.Prelude.{◌≡◌, ◌<◌, ◌==◌, length, true, false, IfOk, OnOk, OnErr};
ghost use Rattle.qgm_core.specs.Boxes.{has_box, is_box, quants_in};
ghost use Rattle.qgm_core.specs.Edits.{absorbed, spliced_at};
ghost use Rattle.list_laws.specs.Lists.{first};

use crate::kinds::BoxId;
use crate::node::Node;
use crate::owned::{Owned, OwnedQuant};
use crate::places::box_place;
use shared_types::OutOfMemory;
use std::alloc::Global;

// Quantifiers with others in the place, from 0, of one of them.
fn spliced(
    alloc: Global,
    own: &[OwnedQuant],
    i: usize,
    others: &[OwnedQuant],
) -> Result<Owned, OutOfMemory>
    requires { i < length own.now }
    ensures { IfOk result (λ o. o ≡ spliced_at i others.now own.now) }
{
    let mut out = Owned::new(alloc);
    out.append(&own[..i])?;
    out.append(others)?;
    out.append(&own[i + 1..])?;
    Ok(out)
}

// Puts the quantifiers of box c into box b in the place, from 0, of one of b's, and drops c.
pub fn absorb_box(nodes: &mut Vec<Node>, b: BoxId, i: usize, c: BoxId) -> Result<(), OutOfMemory>
    requires owner { has_box nodes.old.items b ≡ true }
    requires other { has_box nodes.old.items c ≡ true }
    requires apart { (b == c) ≡ false }
    requires within { i < length (quants_in (first (is_box b) nodes.old.items)) }
    ensures ok { OnOk result (nodes.new.items ≡ absorbed b i c nodes.old.items) }
    ensures err { OnErr result (nodes.new.items ≡ nodes.old.items) }
{
    let alloc = *nodes.allocator();
    let to = box_place(nodes, b);
    let from = box_place(nodes, c);
    let quants = spliced(
        alloc,
        nodes[to].quants.as_slice(),
        i,
        nodes[from].quants.as_slice(),
    )?;
    nodes[to].quants = quants;
    let _dropped = nodes.remove(from);
    Ok(())
}
