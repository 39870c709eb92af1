// Boxes that are flagged, and those from which they are reached.
ghost use Rattle.std.specs.Prelude.{◌≡◌, ◌<◌, ◌∷◌, [], ℕ, List, None, false, if◌then◌else◌, filter, not, length, slice_index_or};
ghost use Rattle.std.specs.List.{list_any};
ghost use Rattle.qgm_core.specs.Boxes.{numbers};
ghost use Rattle.qgm_core.specs.Free.{reached};
ghost use Rattle.qgm_core.specs.Numbered.{Under};
ghost use Rattle.qgm_core.specs.Slots.{meets};
ghost use Rattle.list_laws.specs.Lists.{holds};

use crate::kinds::BoxId;
use crate::marks::Marks;
use crate::node::Node;
use crate::owned::OwnedQuant;
use qgm_terms::QuantId;
use sqlite_items::Items;

// The flag of a number, if there is one.
fn flag_at(flags: &[bool], x: usize) -> bool
    ensures { result ≡ slice_index_or flags.now x false }
{
    if x < flags.len() { flags[x] } else { false }
}

// Whether one of the quantifiers ranges over a flagged box.
fn ranges_over(flags: &[bool], ranges: &[OwnedQuant]) -> bool
    ensures { result ≡ list_any (λ r. slice_index_or flags.now r.over false) ranges.now }
{
    for range in ranges {
        if flag_at(flags, range.over) {
            return true;
        }
    }
    false
}

// Flags also each box from which a flagged one is reached, and no other, by one pass from the last rank
// to the first. It takes no memory.
pub fn spread(flags: &mut Vec<bool>, nodes: &[Node])
    requires { Under (length flags.old.items) (numbers nodes.now) }
    ensures long { length flags.new.items ≡ length flags.old.items }
    ensures flags { (cs : List ℕ) → ((x : ℕ) → slice_index_or flags.old.items x false ≡ holds x cs) → (x : ℕ) → slice_index_or flags.new.items x false ≡ meets cs (reached (x ∷ []) nodes.now) }
{
    let mut i = nodes.len();
    'boxes: while i > 0 {
        i -= 1;
        let node = &nodes[i];
        if ranges_over(flags, node.quants.as_slice()) {
            flags[node.id] = true;
        }
    }
}

// Flags the boxes from which box c is reached, and no other. It takes no memory.
pub fn flag_reaching(flags: &mut Vec<bool>, nodes: &[Node], c: BoxId)
    requires below { c < length flags.old.items }
    requires numbers { Under (length flags.old.items) (numbers nodes.now) }
    ensures long { length flags.new.items ≡ length flags.old.items }
    ensures flags { (x : ℕ) → slice_index_or flags.new.items x false ≡ holds c (reached (x ∷ []) nodes.now) }
{
    flags.fill(false);
    flags[c] = true;
    spread(flags, nodes);
}

// Flags the boxes that aren't marked, and no other. It takes no memory.
pub fn flag_unmarked(flags: &mut Vec<bool>, nodes: &[Node], marks: &Marks)
    requires { Under (length flags.old.items) (numbers nodes.now) }
    ensures long { length flags.new.items ≡ length flags.old.items }
    ensures flags { (x : ℕ) → slice_index_or flags.new.items x false ≡ holds x (numbers (filter (λ n. not (holds n.id marks.now)) nodes.now)) }
{
    flags.fill(false);
    for node in nodes {
        if !marks.has(node.id) {
            flags[node.id] = true;
        }
    }
}

// Drops the flagged lists. It takes no memory.
pub fn drop_flagged(lists: &mut Vec<Option<Items<QuantId>>>, flags: &[bool])
    requires { length flags.now ≡ length lists.old.items }
    ensures long { length lists.new.items ≡ length lists.old.items }
    ensures lists { (x : ℕ) → slice_index_or lists.new.items x None ≡ (if slice_index_or flags.now x false then None else slice_index_or lists.old.items x None) }
{
    for i in 0..lists.len() {
        if flags[i] {
            lists[i] = None;
        }
    }
}
