// How often boxes are used.
ghost use Rattle.std.specs.Prelude.{◌≡◌, ◌≤◌, ◌<◌, ◌+◌, ◌∷◌, [], ℕ, length, map, slice_index_or};
ghost use Rattle.qgm_core.specs.Boxes.{ids_in, overs_in};
ghost use Rattle.qgm_core.specs.Slots.{CountsUses};
ghost use Rattle.list_laws.specs.Lists.{times};

use crate::kinds::BoxId;
use crate::node::Node;
use crate::owned::OwnedQuant;

// How many quantifiers of the boxes range over a box, where there are so many at most.
pub fn uses_in(nodes: &[Node], b: BoxId, most: usize) -> usize
    requires { length (ids_in nodes.now) ≤ most }
    ensures { result ≡ times b (overs_in nodes.now) }
{
    let mut total = 0;
    for node in nodes {
        for range in node.quants.as_slice() {
            if range.over == b {
                total += 1;
            }
        }
    }
    total
}

// One more quantifier ranges over a box, where it has a number. It takes no memory.
pub fn add_use(uses: &mut Vec<usize>, b: BoxId)
    requires { b < length uses.old.items → slice_index_or uses.old.items b 0 < 18446744073709551615 }
    ensures long { length uses.new.items ≡ length uses.old.items }
    ensures counted { (x : ℕ) → x < length uses.old.items → slice_index_or uses.new.items x 0 ≡ slice_index_or uses.old.items x 0 + times x (b ∷ []) }
{
    if b < uses.len() {
        uses[b] += 1;
    }
}

// One less does. It takes no memory.
pub fn drop_use(uses: &mut Vec<usize>, b: BoxId)
    requires { b < length uses.old.items → 1 ≤ slice_index_or uses.old.items b 0 }
    ensures long { length uses.new.items ≡ length uses.old.items }
    ensures counted { (x : ℕ) → x < length uses.old.items → slice_index_or uses.new.items x 0 + times x (b ∷ []) ≡ slice_index_or uses.old.items x 0 }
{
    if b < uses.len() {
        uses[b] -= 1;
    }
}

// Adds a use of each box that these quantifiers range over, where there are so many at most.
fn count_each(uses: &mut Vec<usize>, ranges: &[OwnedQuant], most: usize)
    requires { (x : ℕ) → x < length uses.old.items → slice_index_or uses.old.items x 0 + times x (map (λ r. r.over) ranges.now) ≤ most }
    ensures long { length uses.new.items ≡ length uses.old.items }
    ensures counted { (x : ℕ) → x < length uses.old.items → slice_index_or uses.new.items x 0 ≡ slice_index_or uses.old.items x 0 + times x (map (λ r. r.over) ranges.now) }
{
    for range in ranges {
        add_use(uses, range.over);
    }
}

// Counts the uses of boxes anew, where there are so many at most. It takes no memory.
pub fn recount(uses: &mut Vec<usize>, nodes: &[Node], most: usize)
    requires { length (ids_in nodes.now) ≤ most }
    ensures long { length uses.new.items ≡ length uses.old.items }
    ensures counted { CountsUses uses.new.items nodes.now }
{
    uses.fill(0);
    for node in nodes {
        count_each(uses, node.quants.as_slice(), most);
    }
}
