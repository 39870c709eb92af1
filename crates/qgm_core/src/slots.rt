// The slots of boxes: a box's number is its slot.
ghost use Rattle.std.specs.Prelude.{◌≡◌, ◌==◌, false, true, if◌then◌else◌, ◌<◌, ◌≤◌, ◌+◌, ◌++◌, ◌∷◌, [], ℕ, List, Some, None, length, map, filter, not, option_map, replicate, slice_get, slice_index_or, OnOk, OnErr, IfOk, IfSome};
ghost use Rattle.std.specs.List.{flat_map, list_all, list_any};
ghost use Rattle.qgm_core.specs.Boxes.{ids_in, ids_of, numbers, overs_in};
ghost use Rattle.qgm_core.specs.Free.{free_in, put_each};
ghost use Rattle.qgm_core.specs.Numbered.{Under};
ghost use Rattle.qgm_core.specs.Slots as spec;
ghost use Rattle.list_laws.specs.Lists.{EachOnce, holds, times};

use crate::flags::{drop_flagged, flag_reaching, flag_unmarked, spread};
use crate::free::{add_names_of_node, free_in, not_owned};
use crate::kinds::BoxId;
use crate::marks::{Marks, mark_ids};
use crate::node::Node;
use crate::owned::OwnedQuant;
use crate::uses::{add_use, drop_use, recount, uses_in};
use qgm_terms::QuantId;
use shared_types::OutOfMemory;
use sqlite_items::Items;
use std::alloc::Global;
use std::marker::Model;
use std::sync::ledger::Ledger;
use step_count::Steps;

/// By slot, how many quantifiers range over the box, and its free quantifiers where they are kept; and
/// the slots that no box has.
pub struct Slots {
    uses: Vec<usize>,
    lists: Vec<Option<Items<QuantId>>>,
    // What a pass over the boxes marks.
    flags: Vec<bool>,
    // It has room for all slots.
    vacant: Vec<BoxId>,
}

// By hand, so that what lets slots go cites this function.
impl Drop for Slots {
    fn drop(self) {
        let Slots {
            uses,
            lists,
            flags,
            vacant,
        } = self;
        drop(uses);
        drop(lists);
        drop(flags);
        drop(vacant);
    }
}

impl Model for Slots {
    ghost use Rattle.std.specs.Prelude.{◌≡◌, ◌≤◌, length, vec_capacity};
    ghost use Rattle.qgm_core.specs.Slots.{SlotTable};

    ghost Value = { SlotTable };

    ghost view = { λ s. record { uses = s.uses.items; lists = s.lists.items; vacant = s.vacant.items } };

    ghost invariant = { λ s. (length s.uses.items ≡ length s.lists.items) × (length s.flags.items ≡ length s.lists.items) × (length s.lists.items ≤ vec_capacity s.vacant) };
}

impl Slots {
    /// So many slots, each used by no quantifier, without lists.
    pub fn new(alloc: Global, n: usize) -> Result<Slots, OutOfMemory>
        ensures { IfOk result (λ s. spec.Cleared n s) }
    {
        let mut uses = Vec::new(alloc);
        uses.resize(n, 0)?;
        let mut flags = Vec::new(alloc);
        flags.resize(n, false)?;
        let mut vacant = Vec::new(alloc);
        vacant.reserve(n)?;
        Ok(Slots {
            uses,
            lists: no_lists(alloc, n)?,
            flags,
            vacant,
        })
    }

    /// A copy.
    pub fn copy(&self, alloc: Global) -> Result<Slots, OutOfMemory>
        ensures { IfOk result (λ s. s ≡ self.now) }
    {
        let n = self.lists.len();
        let uses = Vec::from_slice(alloc, &self.uses)?;
        let lists = copy_lists(alloc, &self.lists)?;
        let mut flags = Vec::new(alloc);
        flags.resize(n, false)?;
        let mut vacant = Vec::new(alloc);
        vacant.reserve(n)?;
        vacant.extend_from_slice(&self.vacant)?;
        Ok(Slots {
            uses,
            lists,
            flags,
            vacant,
        })
    }

    /// How many slots there are.
    pub fn len(&self) -> usize
        ensures { result ≡ length self.now.lists }
    {
        self.lists.len()
    }

    /// How many quantifiers range over the box of a slot, if there is such a slot.
    pub fn uses(&self, b: BoxId) -> Option<usize>
        ensures { result ≡ slice_get self.now.uses b }
    {
        if b < self.uses.len() {
            Some(self.uses[b])
        } else {
            None
        }
    }

    /// The free quantifiers of a box, where they are kept.
    pub fn kept(&self, b: BoxId) -> Option<&Items<QuantId>>
        ensures { option_map (λ qs. qs.now) result ≡ spec.kept b self.now }
    {
        match self.lists.get(b) {
            Some(list) => list.as_ref(),
            None => None,
        }
    }

    /// One more quantifier ranges over a box. It takes no memory.
    pub fn add_use(&mut self, b: BoxId)
        requires { b < length self.old.uses → slice_index_or self.old.uses b 0 < 18446744073709551615 }
        ensures rest { (self.new.vacant ≡ self.old.vacant) × (self.new.lists ≡ self.old.lists) × (length self.new.uses ≡ length self.old.uses) }
        ensures counted { (x : ℕ) → x < length self.old.uses → slice_index_or self.new.uses x 0 ≡ slice_index_or self.old.uses x 0 + times x (b ∷ []) }
    {
        add_use(&mut self.uses, b);
    }

    /// One less does. It takes no memory.
    pub fn drop_use(&mut self, b: BoxId)
        requires { b < length self.old.uses → 1 ≤ slice_index_or self.old.uses b 0 }
        ensures rest { (self.new.vacant ≡ self.old.vacant) × (self.new.lists ≡ self.old.lists) × (length self.new.uses ≡ length self.old.uses) }
        ensures counted { (x : ℕ) → x < length self.old.uses → slice_index_or self.new.uses x 0 + times x (b ∷ []) ≡ slice_index_or self.old.uses x 0 }
    {
        drop_use(&mut self.uses, b);
    }

    /// Counts the uses anew, where there are so many at most. It takes no memory.
    pub fn recount(&mut self, nodes: &[Node], most: usize)
        requires { length (ids_in nodes.now) ≤ most }
        ensures { spec.Recounted nodes.now self.old self.new }
    {
        recount(&mut self.uses, nodes, most);
    }

    /// Drops the lists of all boxes from which box c is reached. It takes no memory.
    pub fn mark(&mut self, nodes: &[Node], c: BoxId)
        requires below { c < length self.old.lists }
        requires numbers { Under (length self.old.lists) (numbers nodes.now) }
        ensures { spec.Marked c nodes.now self.old self.new }
    {
        flag_reaching(&mut self.flags, nodes, c);
        drop_flagged(&mut self.lists, &self.flags);
    }

    /// Drops the lists of all boxes from which one is reached that isn't marked. It takes no memory.
    pub fn mark_unmarked(&mut self, nodes: &[Node], marks: &Marks)
        requires { Under (length self.old.lists) (numbers nodes.now) }
        ensures { spec.EachMarked (numbers (filter (λ n. not (holds n.id marks.now)) nodes.now)) nodes.now self.old self.new }
    {
        flag_unmarked(&mut self.flags, nodes, marks);
        spread(&mut self.flags, nodes);
        drop_flagged(&mut self.lists, &self.flags);
    }

    // Appends the lists that are kept of the boxes that these quantifiers range over, and says whether each
    // is marked and its list is kept.
    fn add_kept(
        &self,
        ranges: &[OwnedQuant],
        behind: &Marks,
        out: &mut Vec<QuantId>,
    ) -> Result<bool, OutOfMemory>
        ensures marked { IfOk result (λ all. all ≡ true → list_all (λ r. spec.is_kept_behind self.now behind.now r) ranges.now ≡ true) }
        ensures names { IfOk result (λ all. all ≡ true → out.new.items ≡ out.old.items ++ flat_map (λ r. spec.list_or [] (spec.kept r.over self.now)) ranges.now) }
    {
        for r in ranges {
            if !behind.has(r.over) {
                return Ok(false);
            }
            match self.kept(r.over) {
                Some(list) => out.extend_from_slice(list.as_slice())?,
                None => return Ok(false),
            }
        }
        Ok(true)
    }

    // What is free in a box, where what it names and the lists that are kept under it tell this.
    fn told(
        &self,
        alloc: Global,
        node: &Node,
        behind: &Marks,
        owned: &Marks,
    ) -> Result<Option<Vec<QuantId>>, OutOfMemory>
        ensures told { IfOk result (λ o. IfSome o (λ qs. spec.is_told self.now behind.now owned.now node.now ≡ true)) }
        ensures free { IfOk result (λ o. IfSome o (λ qs. qs.items ≡ spec.told self.now node.now)) }
    {
        let mut names = Vec::new(alloc);
        add_names_of_node(node, &mut names)?;
        let all = self.add_kept(node.quants.as_slice(), behind, &mut names)?;
        if !all || has_marked(owned, &names) {
            return Ok(None);
        }
        Ok(Some(less_own(alloc, &names, node)?))
    }

    // The same for a box whose list is stale.
    fn told_stale(
        &self,
        alloc: Global,
        node: &Node,
        behind: &Marks,
        owned: &Marks,
    ) -> Result<Option<Vec<QuantId>>, OutOfMemory>
        ensures told { IfOk result (λ o. IfSome o (λ qs. spec.is_told self.now behind.now owned.now node.now ≡ true)) }
        ensures free { IfOk result (λ o. IfSome o (λ qs. qs.items ≡ spec.told self.now node.now)) }
    {
        if self.kept(node.id).is_some() {
            return Ok(None);
        }
        self.told(alloc, node, behind, owned)
    }

    /// Computes the stale lists of these boxes, by rank from the last, and adds a step for each that is
    /// computed. Where there is no memory, those that were computed stay.
    pub fn refresh<L: Ledger>(
        &mut self,
        alloc: Global,
        nodes: &[Node],
        steps: &mut Steps<L>,
    ) -> Result<(), OutOfMemory>
        requires right { spec.KeepsFree self.old nodes.now }
        requires numbers { Under (length self.old.lists) (numbers nodes.now) }
        requires once { EachOnce (numbers nodes.now) }
        ensures rest { spec.Refreshed self.old self.new }
        ensures right { spec.KeepsFree self.new nodes.now }
        ensures fresh { OnOk result (spec.stale_in self.new nodes.now ≡ 0) }
        ensures exact { OnOk result (steps.new ≡ steps.old + spec.stale_in self.old nodes.now) }
        ensures counted { steps.new + spec.stale_in self.new nodes.now ≡ steps.old + spec.stale_in self.old nodes.now }
    {
        let mut behind = Marks::new(alloc);
        let mut owned = Marks::new(alloc);
        let mut i = nodes.len();
        'boxes: while i > 0 {
            i -= 1;
            let node = &nodes[i];
            let told = self.told_stale(alloc, node, &behind, &owned)?;
            pass(node, &mut behind, &mut owned)?;
            self.refresh_box(alloc, nodes, node.id, told, steps)?;
        }
        Ok(())
    }

    // Computes the list of a box, if it is stale; it is this one, where one is told.
    fn refresh_box<L: Ledger>(
        &mut self,
        alloc: Global,
        nodes: &[Node],
        b: BoxId,
        told: Option<Vec<QuantId>>,
        steps: &mut Steps<L>,
    ) -> Result<(), OutOfMemory>
        requires within { b < length self.old.lists }
        requires told { IfSome told (λ qs. free_in nodes.now b ≡ qs.items) }
        ensures rest { spec.Refreshed self.old self.new }
        ensures others { (x : ℕ) → (b == x) ≡ false → spec.kept x self.new ≡ spec.kept x self.old }
        ensures ok { OnOk result (spec.kept b self.new ≡ Some (spec.list_or (free_in nodes.now b) (spec.kept b self.old))) }
        ensures steps_ok { OnOk result (steps.new ≡ steps.old + (if spec.is_stale (spec.kept b self.old) then 1 else 0)) }
        ensures err { OnErr result (self.new ≡ self.old) }
        ensures steps_err { OnErr result (steps.new ≡ steps.old) }
    {
        if self.lists[b].is_some() {
            return Ok(());
        }
        let qs = match told {
            Some(qs) => qs,
            None => free_in(alloc, nodes, b)?,
        };
        self.lists[b] = Some(Items::from_vec(qs));
        steps.tick();
        Ok(())
    }

    /// A slot for a new box: the last vacant one, and where there is none a new one, behind all others.
    pub fn take(&mut self, nodes: &[Node], most: usize) -> Result<BoxId, OutOfMemory>
        requires most { length (ids_in nodes.now) ≤ most }
        requires once { spec.EachSlotOnce self.old nodes.now }
        ensures within { IfOk result (λ b. b < length self.new.lists) }
        ensures vacant { (x : ℕ) → IfOk result (λ b. times x self.old.vacant + spec.slot_times x self.new ≡ times x (b ∷ []) + (times x self.new.vacant + spec.slot_times x self.old)) }
        ensures uses { OnOk result (spec.CountsUses self.old.uses nodes.now → spec.CountsUses self.new.uses nodes.now) }
        ensures lists { (x : ℕ) → OnOk result (spec.kept x self.new ≡ spec.kept x self.old) }
        ensures more { OnOk result (length self.old.lists ≤ length self.new.lists) }
        ensures reused { OnOk result (0 < length self.old.vacant → length self.new.lists ≡ length self.old.lists) }
        ensures err { OnErr result (self.new ≡ self.old) }
    {
        if let Some(b) = self.vacant.pop() {
            return Ok(b);
        }
        let uses = uses_in(nodes, self.lists.len(), most);
        self.grow(uses)
    }

    // A new slot, behind all others, over whose number so many quantifiers range.
    fn grow(&mut self, uses: usize) -> Result<BoxId, OutOfMemory>
        ensures number { IfOk result (λ b. b ≡ length self.old.lists) }
        ensures uses { OnOk result (self.new.uses ≡ self.old.uses ++ uses ∷ []) }
        ensures lists { OnOk result (self.new.lists ≡ self.old.lists ++ None ∷ []) }
        ensures vacant { self.new.vacant ≡ self.old.vacant }
        ensures long { length self.old.uses ≡ length self.old.lists }
        ensures err { OnErr result (self.new ≡ self.old) }
    {
        let n = self.lists.len();
        self.uses.reserve(1)?;
        self.lists.reserve(1)?;
        self.flags.reserve(1)?;
        self.vacant.reserve(n + 1)?;
        let _ = self.uses.push(uses);
        let _ = self.lists.push(None);
        let _ = self.flags.push(false);
        Ok(n)
    }

    /// A slot becomes vacant. It takes no memory.
    pub fn give_back(&mut self, b: BoxId)
        requires { length self.old.vacant < length self.old.lists }
        ensures vacant { self.new.vacant ≡ self.old.vacant ++ b ∷ [] }
        ensures rest { (self.new.uses ≡ self.old.uses) × (self.new.lists ≡ self.old.lists) }
    {
        let _ = self.vacant.push(b);
    }

    /// The slots of the boxes that aren't marked become vacant. It takes no memory.
    pub fn give_back_unmarked(&mut self, nodes: &[Node], marks: &Marks)
        requires { spec.EachSlotOnce self.old nodes.now }
        ensures vacant { self.new.vacant ≡ self.old.vacant ++ numbers (filter (λ n. not (holds n.id marks.now)) nodes.now) }
        ensures rest { (self.new.uses ≡ self.old.uses) × (self.new.lists ≡ self.old.lists) }
    {
        for node in nodes {
            if !marks.has(node.id) {
                self.give_back(node.id);
            }
        }
    }
}

// Whether one of these is marked.
fn has_marked(marks: &Marks, qs: &[QuantId]) -> bool
    ensures { result ≡ list_any (λ q. holds q marks.now) qs.now }
{
    for q in qs {
        if marks.has(*q) {
            return true;
        }
    }
    false
}

// Those of these that a box doesn't own, ascending, each once.
fn less_own(alloc: Global, names: &[QuantId], node: &Node) -> Result<Vec<QuantId>, OutOfMemory>
    ensures { IfOk result (λ qs. qs.items ≡ put_each [] (filter (λ q. not (holds q (ids_of node.now))) names.now)) }
{
    let mut own = Marks::new(alloc);
    mark_ids(node.quants.as_slice(), &mut own)?;
    not_owned(alloc, names, &own)
}

// Whether the boxes that these quantifiers range over are marked.
fn are_marked(ranges: &[OwnedQuant], marks: &Marks) -> bool
    ensures { result ≡ list_all (λ r. holds r.over marks.now) ranges.now }
{
    for r in ranges {
        if !marks.has(r.over) {
            return false;
        }
    }
    true
}

// Marks a box and its quantifiers, if the boxes that they range over are marked.
fn pass(node: &Node, behind: &mut Marks, owned: &mut Marks) -> Result<(), OutOfMemory>
    ensures behind { OnOk result (behind.new ≡ spec.behind_with node.now behind.old) }
    ensures owned { OnOk result (owned.new ≡ spec.owned_with node.now behind.old owned.old) }
{
    if are_marked(node.quants.as_slice(), behind) {
        behind.push(node.id)?;
        mark_ids(node.quants.as_slice(), owned)?;
    }
    Ok(())
}

// A copy of a list, if it is kept.
fn copy_list(
    alloc: Global,
    list: &Option<Items<QuantId>>,
) -> Result<Option<Items<QuantId>>, OutOfMemory>
    ensures { IfOk result (λ o. o ≡ list.now) }
{
    match list {
        Some(qs) => match Items::from_slice(alloc, qs.as_slice()) {
            Ok(copied) => Ok(Some(copied)),
            Err(_) => Err(OutOfMemory),
        },
        None => Ok(None),
    }
}

// Copies of lists.
fn copy_lists(
    alloc: Global,
    lists: &[Option<Items<QuantId>>],
) -> Result<Vec<Option<Items<QuantId>>>, OutOfMemory>
    ensures { IfOk result (λ all. all.items ≡ lists.now) }
{
    let mut all = Vec::with_capacity(alloc, lists.len())?;
    for list in lists {
        let copied = copy_list(alloc, list)?;
        all.push(copied)?;
    }
    Ok(all)
}

// So many boxes without list.
fn no_lists(alloc: Global, n: usize) -> Result<Vec<Option<Items<QuantId>>>, OutOfMemory>
    ensures { IfOk result (λ all. all.items ≡ replicate n None) }
{
    let mut all = Vec::new(alloc);
    for _slot in 0..n {
        all.push(None)?;
    }
    Ok(all)
}
