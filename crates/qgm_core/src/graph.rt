// The graph: its boxes in one list, each with the quantifiers that it owns.
ghost use Rattle.std.specs.Prelude.{ℕ, ◌≡◌, ◌≤◌, ◌<◌, ◌+◌, ◌-◌, [], OnOk, OnErr, IfOk, IfSome, length, map, position, slice_get, Some, option_map, false, ◌==◌, IsTrue, ◌↔◌};
ghost use Rattle.qgm_core.specs.Boxes as spec;
ghost use Rattle.qgm_core.specs.Edits as edits;
ghost use Rattle.qgm_core.specs.Free.{free};
ghost use Rattle.qgm_core.specs.Held.{HasAll};
ghost use Rattle.list_laws.specs.Lists.{EachOnce, times};
ghost use Rattle.qgm_core.specs.Made.{boxes_of, graph_of};
ghost use Rattle.qgm_core.specs.Numbered.{Under};
ghost use Rattle.qgm_core.specs.Walk.{walk};

use crate::absorbed::absorb_box;
use crate::copies::{copy_names, copy_nodes, copy_order};
use crate::free::{free_in, reached};
use crate::kinds::{BoxId, BoxKind, Distinct, QuantKind, Role};
use crate::made::{NewBox, numbered};
use crate::marks::Marks;
use crate::moves::{move_below, move_quant, places_for};
use crate::node::Node;
use crate::owned::{Owned, OwnedQuant, Quant, range_of};
use crate::parts::BoxParts;
use crate::places::{box_place, new_place, owner_place};
use crate::quants::Quants;
use crate::shifted::shift_over;
use crate::slots::Slots;
use crate::uses::uses_in;
use crate::walks::{by_levels, depth_first};
use qgm_terms::{Conds, Head, QuantId, ROOM, substitute_conds, substitute_head};
use shared_types::{OutOfMemory, Walk};
use sql_value::{OrderKeys, OutNames};
use std::alloc::Global;
use std::marker::Model;
use std::sync::ledger::Ledger;
use step_count::Steps;

/// A query as a graph of boxes (Pirahesh, Hellerstein and Hasan 1992, 2). Contracts see it as the
/// list of its boxes by rank, each with its quantifiers by place, the number of its root, the names
/// of its columns, and the keys of its order.
pub struct Graph {
    nodes: Vec<Node>,
    root: BoxId,
    names: OutNames,
    order: OrderKeys,
    slots: Slots,
    // Above the numbers of all quantifiers.
    next_quant: QuantId,
}

// By hand, so that crates above cite this function: a derived one is proved in each of them, with those
// of all cells and conditions.
impl Drop for Graph {
    fn drop(self) {
        let Graph {
            nodes,
            root: _,
            names,
            order,
            slots,
            next_quant: _,
        } = self;
        drop(nodes);
        drop(names);
        drop(order);
        drop(slots);
    }
}

impl Model for Graph {
    ghost use Rattle.std.specs.Coded.{codes};
    ghost use Rattle.qgm_core.specs.Boxes.{QueryGraph};
    ghost use Rattle.qgm_core.specs.Slots.{Sound};
    ghost use Rattle.qgm_terms.specs.TermCodes.{coded_term, coded_cond};

    ghost Value = { QueryGraph };

    ghost coded = { Prim.hlevel (codes, coded_term, coded_cond) };

    ghost view = { λ g. record { boxes = g.nodes.items; root = g.root; names = g.names; order = g.order } };

    ghost invariant = { λ g. Sound g.slots g.next_quant g.nodes.items };
}

impl Graph {
    /// The graph of one box, its root.
    pub fn new(
        alloc: Global,
        root: BoxParts,
        names: OutNames,
        order: OrderKeys,
    ) -> Result<Graph, OutOfMemory>
        ensures graph { IfOk result (λ g. g ≡ spec.graph_of_one g.root root names order) }
        ensures held { IfOk result (λ g. spec.HasBox g.root g) }
    {
        let mut nodes = Vec::new(alloc);
        nodes.push(bare(alloc, 0, root))?;
        let mut slots = Slots::new(alloc, 1)?;
        slots.recount(&nodes, 0);
        Ok(Graph {
            nodes,
            root: 0,
            names,
            order,
            slots,
            next_quant: 0,
        })
    }

    /// The graph of boxes that were made in turn: the first has number 0, and each has a higher rank
    /// than those before it. All quantifiers have numbers of their own below `next_quant`. It fails
    /// where there is no memory.
    pub fn of_boxes(
        alloc: Global,
        made: Vec<NewBox>,
        root: BoxId,
        names: OutNames,
        order: OrderKeys,
        next_quant: QuantId,
    ) -> Result<Graph, OutOfMemory>
        requires once { EachOnce (spec.ids_in (boxes_of made.items)) }
        requires under { Under next_quant (spec.ids_in (boxes_of made.items)) }
        ensures { IfOk result (λ g. g ≡ graph_of made.items root names order) }
    {
        let next_box = made.len();
        let nodes = numbered(alloc, made)?;
        let mut slots = Slots::new(alloc, next_box)?;
        slots.recount(&nodes, next_quant);
        Ok(Graph {
            nodes,
            root,
            names,
            order,
            slots,
            next_quant,
        })
    }

    /// A copy.
    pub fn copy(&self, alloc: Global) -> Result<Graph, OutOfMemory>
        ensures { IfOk result (λ g. g ≡ self.now) }
    {
        let nodes = copy_nodes(alloc, &self.nodes)?;
        let names = copy_names(alloc, self.names.as_slice())?;
        let order = copy_order(alloc, &self.order)?;
        let slots = self.slots.copy(alloc)?;
        Ok(Graph {
            nodes,
            root: self.root,
            names,
            order,
            slots,
            next_quant: self.next_quant,
        })
    }

    /// The root, which stays for good.
    pub fn root(&self) -> BoxId
        ensures { result ≡ self.now.root }
    {
        self.root
    }

    /// The names of the output columns.
    pub fn names(&self) -> &OutNames
        ensures { result.now ≡ self.now.names }
    {
        &self.names
    }

    /// The keys of the order.
    pub fn order(&self) -> &OrderKeys
        ensures { result.now ≡ self.now.order }
    {
        &self.order
    }

    /// How many boxes the graph holds.
    pub fn len(&self) -> usize
        ensures { result ≡ length self.now.boxes }
    {
        self.nodes.len()
    }

    /// A box's rank: its place, from 0, among the boxes.
    pub fn rank(&self, b: BoxId) -> usize
        requires { spec.HasBox b self.now }
        ensures { Some result ≡ position (spec.is_box b) self.now.boxes }
    {
        box_place(&self.nodes, b)
    }

    /// The boxes, by rank.
    pub fn nodes(&self) -> &[Node]
        ensures { result.now ≡ self.now.boxes }
    {
        &self.nodes
    }

    /// No two boxes have one number. It does nothing.
    pub fn each_number_once(&self)
        ensures { EachOnce (spec.numbers self.now.boxes) }
    {
        let _root = self.root;
    }

    /// The parts of a box.
    pub fn parts(&self, b: BoxId) -> &BoxParts
        requires { spec.HasBox b self.now }
        ensures { Some result.now ≡ option_map (λ n. n.parts) (spec.box_of b self.now) }
    {
        let k = box_place(&self.nodes, b);
        &self.nodes[k].parts
    }

    /// The quantifiers that a box owns, by place.
    pub fn quants(&self, b: BoxId) -> &Quants
        requires { spec.HasBox b self.now }
        ensures { result.now ≡ map (λ r. r.id) (spec.quants_of b self.now) }
    {
        let k = box_place(&self.nodes, b);
        self.nodes[k].quants.ids()
    }

    /// A quantifier.
    pub fn quant(&self, q: QuantId) -> Quant
        requires { spec.HasQuant q self.now }
        ensures { Some result ≡ spec.quant_of q self.now }
    {
        let k = owner_place(&self.nodes, q);
        let node = &self.nodes[k];
        let range = range_of(node.quants.as_slice(), q);
        Quant {
            owner: node.id,
            kind: range.kind,
            over: range.over,
        }
    }

    /// A quantifier that a box owns, by its place from 1.
    pub fn quant_at(&self, b: BoxId, place: usize) -> Quant
        requires held { spec.HasBox b self.now }
        requires from_one { 1 ≤ place }
        requires within { place ≤ length (spec.quants_of b self.now) }
        ensures { Some result ≡ spec.quant_by b (slice_get (spec.quants_of b self.now) (place - 1)) }
    {
        let k = box_place(&self.nodes, b);
        let range = self.nodes[k].quants.as_slice()[place - 1];
        Quant {
            owner: b,
            kind: range.kind,
            over: range.over,
        }
    }

    /// At how many places a box can own a quantifier: one more than it owns beside it. It takes no
    /// memory.
    pub fn places_for(&self, q: QuantId, b: BoxId) -> usize
        requires quant { spec.HasQuant q self.now }
        requires held { spec.HasBox b self.now }
        ensures { result ≡ length (spec.quants_of b (edits.drop_quant q self.now)) + 1 }
    {
        places_for(&self.nodes, q, b)
    }

    /// How many quantifiers range over a box. It takes no memory.
    pub fn uses(&self, b: BoxId) -> usize
        ensures { result ≡ times b (spec.overs_in self.now.boxes) }
    {
        match self.slots.uses(b) {
            Some(uses) => uses,
            None => uses_in(&self.nodes, b, self.next_quant),
        }
    }

    /// How many slots there are for boxes. Each box's number is one of them, and those that `compact`
    /// and other calls free serve new boxes. It takes no memory.
    pub fn slots(&self) -> usize
        ensures boxes { length self.now.boxes ≤ result }
        ensures numbers { (b : ℕ) → spec.HasBox b self.now → b < result }
    {
        self.slots.len()
    }

    /// Computes the free quantifiers of each box for which they aren't kept, by rank, and adds a step for
    /// each. Where there is no memory, what was computed is kept.
    pub fn refresh<L: Ledger>(
        &mut self,
        alloc: Global,
        steps: &mut Steps<L>,
    ) -> Result<(), OutOfMemory>
        ensures same { self.new ≡ self.old }
        ensures never_less { steps.old ≤ steps.new }
        ensures most { steps.new ≤ steps.old + length self.old.boxes }
    {
        self.slots.refresh(alloc, &self.nodes, steps)
    }

    /// What is free in the box, where it is kept.
    pub fn kept_free(&self, b: BoxId) -> Option<&[QuantId]>
        ensures { IfSome result (λ qs. qs.now ≡ free b self.now) }
    {
        match self.slots.kept(b) {
            Some(qs) => Some(qs.as_slice()),
            None => None,
        }
    }

    /// The quantifiers that are named in the box or below it, and owned neither there nor below, in
    /// ascending order. Nothing is free in a box that the graph hasn't.
    pub fn free(&self, alloc: Global, b: BoxId) -> Result<Vec<QuantId>, OutOfMemory>
        ensures { IfOk result (λ qs. qs.items ≡ free b self.now) }
    {
        match self.slots.kept(b) {
            Some(qs) => Ok(Vec::from_slice(alloc, qs.as_slice())?),
            None => free_in(alloc, &self.nodes, b),
        }
    }

    /// Whether no quantifier is free in the box.
    pub fn is_closed(&self, alloc: Global, b: BoxId) -> Result<bool, OutOfMemory>
        ensures { IfOk result (λ closed. IsTrue closed ↔ (free b self.now ≡ [])) }
    {
        if let Some(qs) = self.slots.kept(b) {
            return Ok(qs.is_empty());
        }
        let free = free_in(alloc, &self.nodes, b)?;
        Ok(free.is_empty())
    }

    /// The boxes that the root reaches, each at its first visit: depth first, with the boxes under a
    /// box in the order of its quantifiers, or level by level.
    pub fn walk(&self, alloc: Global, w: Walk) -> Result<Vec<BoxId>, OutOfMemory>
        ensures { IfOk result (λ v. v.items ≡ walk w self.now) }
    {
        match w {
            Walk::Depth => depth_first(alloc, &self.nodes, self.root),
            Walk::Breadth => by_levels(alloc, &self.nodes, self.root),
        }
    }

    /// Adds a box that owns no quantifier: last, or just below the named one.
    pub fn add_box(
        &mut self,
        alloc: Global,
        parts: BoxParts,
        below: Option<BoxId>,
    ) -> Result<BoxId, OutOfMemory>
        requires { IfSome below (λ c. spec.HasBox c self.old) }
        ensures fresh { IfOk result (λ b. spec.HasBox b self.old → ⊥) }
        ensures ok { IfOk result (λ b. self.new ≡ edits.with_box below (spec.bare_box b parts) self.old) }
        ensures err { OnErr result (self.new ≡ self.old) }
        ensures held { IfOk result (λ b. spec.HasBox b self.new) }
        ensures kept { HasAll self.old self.new }
    {
        self.nodes.reserve(1)?;
        let id = self.slots.take(&self.nodes, self.next_quant)?;
        let node = bare(alloc, id, parts);
        let i = new_place(&self.nodes, below);
        let _ = self.nodes.insert(i, node);
        self.slots.mark(&self.nodes, id);
        Ok(id)
    }

    /// Adds a quantifier to a box, at a place from 1.
    pub fn add_quant(
        &mut self,
        owner: BoxId,
        place: usize,
        kind: QuantKind,
        over: BoxId,
    ) -> Result<QuantId, OutOfMemory>
        requires owner { spec.HasBox owner self.old }
        requires over { spec.HasBox over self.old }
        requires from_one { 1 ≤ place }
        requires within { place ≤ length (spec.quants_of owner self.old) + 1 }
        ensures fresh { IfOk result (λ q. spec.HasQuant q self.old → ⊥) }
        ensures ok { IfOk result (λ q. self.new ≡ edits.with_quant owner (place - 1) (edits.range q kind over) self.old) }
        ensures err { OnErr result (self.new ≡ self.old) }
        ensures held { IfOk result (λ q. spec.HasQuant q self.new) }
        ensures kept { HasAll self.old self.new }
    {
        let id = self.next_quant;
        if id == usize::MAX {
            return Err(OutOfMemory);
        }
        let k = box_place(&self.nodes, owner);
        self.nodes[k]
            .quants
            .insert(place - 1, OwnedQuant { id, kind, over })?;
        self.next_quant = id + 1;
        self.slots.mark(&self.nodes, owner);
        self.slots.add_use(over);
        Ok(id)
    }

    /// Drops the boxes that the root doesn't reach. The others keep their numbers and their order.
    pub fn compact(&mut self, alloc: Global) -> Result<(), OutOfMemory>
        ensures ok { OnOk result (self.new ≡ edits.compact self.old) }
        ensures err { OnErr result (self.new ≡ self.old) }
        ensures root { spec.HasBox self.old.root self.old → spec.HasBox self.new.root self.new }
    {
        let marks = reached(alloc, &self.nodes, self.root)?;
        self.keep(&marks);
        Ok(())
    }

    /// Drops the boxes that aren't marked. It takes no memory.
    pub fn keep(&mut self, marks: &Marks)
        ensures { self.new ≡ edits.keep marks.now self.old }
    {
        self.slots.mark_unmarked(&self.nodes, marks);
        self.slots.give_back_unmarked(&self.nodes, marks);
        self.nodes.retain(|n| marks.has(n.id));
        self.slots.recount(&self.nodes, self.next_quant);
    }

    /// Moves a box just below another one. It takes no memory.
    pub fn move_below(&mut self, c: BoxId, d: BoxId)
        requires moved { spec.HasBox c self.old }
        requires below { spec.HasBox d self.old }
        requires apart { (c == d) ≡ false }
        ensures graph { self.new ≡ edits.move_below c d self.old }
        ensures kept { HasAll self.old self.new }
    {
        self.slots.mark(&self.nodes, c);
        move_below(&mut self.nodes, c, d);
    }

    /// Gives a box another kind, role, conditions and head. It takes no memory.
    pub fn put_box(&mut self, b: BoxId, kind: BoxKind, role: Role, conds: Conds, head: Head)
        requires { spec.HasBox b self.old }
        ensures graph { self.new ≡ edits.put_box b kind role conds head self.old }
        ensures kept { HasAll self.old self.new }
    {
        self.slots.mark(&self.nodes, b);
        let k = box_place(&self.nodes, b);
        let parts = &mut self.nodes[k].parts;
        parts.kind = kind;
        parts.role = role;
        parts.conds = conds;
        parts.head = head;
    }

    /// Gives a box other conditions and another head. It takes no memory.
    pub fn put_terms(&mut self, b: BoxId, conds: Conds, head: Head)
        requires { spec.HasBox b self.old }
        ensures graph { self.new ≡ edits.put_terms b conds head self.old }
        ensures kept { HasAll self.old self.new }
    {
        self.slots.mark(&self.nodes, b);
        let k = box_place(&self.nodes, b);
        let parts = &mut self.nodes[k].parts;
        parts.conds = conds;
        parts.head = head;
    }

    /// Drops a box, with its quantifiers. It takes no memory.
    pub fn drop_box(&mut self, b: BoxId)
        requires { spec.HasBox b self.old }
        ensures { self.new ≡ edits.drop_box b self.old }
    {
        self.slots.mark(&self.nodes, b);
        let k = box_place(&self.nodes, b);
        let _dropped = self.nodes.remove(k);
        self.slots.give_back(b);
        self.slots.recount(&self.nodes, self.next_quant);
    }

    /// Puts the quantifiers of box c into box b, in the place, from 1, of one of b's, and drops box c.
    /// It fails where there is no memory.
    pub fn absorb(&mut self, b: BoxId, place: usize, c: BoxId) -> Result<(), OutOfMemory>
        requires owner { spec.HasBox b self.old }
        requires other { spec.HasBox c self.old }
        requires apart { (b == c) ≡ false }
        requires from_one { 1 ≤ place }
        requires within { place ≤ length (spec.quants_of b self.old) }
        ensures ok { OnOk result (self.new ≡ edits.absorb b (place - 1) c self.old) }
        ensures err { OnErr result (self.new ≡ self.old) }
    {
        absorb_box(&mut self.nodes, b, place - 1, c)?;
        self.slots.give_back(c);
        self.slots.mark(&self.nodes, c);
        self.slots.mark(&self.nodes, b);
        self.slots.recount(&self.nodes, self.next_quant);
        Ok(())
    }

    /// Sets whether a box gives rows more than once. It takes no memory.
    pub fn set_distinct(&mut self, b: BoxId, distinct: Distinct)
        requires { spec.HasBox b self.old }
        ensures graph { self.new ≡ edits.set_distinct b distinct self.old }
        ensures kept { HasAll self.old self.new }
    {
        self.slots.mark(&self.nodes, b);
        let k = box_place(&self.nodes, b);
        self.nodes[k].parts.distinct = distinct;
    }

    /// Makes room for n more conditions of a box.
    pub fn reserve(&mut self, b: BoxId, n: usize) -> Result<(), OutOfMemory>
        requires { spec.HasBox b self.old }
        ensures ok { OnOk result (self.new ≡ edits.reserve b n self.old) }
        ensures err { OnErr result (self.new ≡ self.old) }
        ensures kept { HasAll self.old self.new }
    {
        let k = box_place(&self.nodes, b);
        self.nodes[k].parts.conds.reserve(n)?;
        self.slots.mark(&self.nodes, b);
        Ok(())
    }

    /// Drops a quantifier. It takes no memory.
    pub fn drop_quant(&mut self, q: QuantId)
        requires { spec.HasQuant q self.old }
        ensures graph { self.new ≡ edits.drop_quant q self.old }
        ensures boxes { (b : ℕ) → spec.HasBox b self.old → spec.HasBox b self.new }
        ensures others { (r : ℕ) → (r == q) ≡ false → spec.HasQuant r self.old → spec.HasQuant r self.new }
    {
        let k = owner_place(&self.nodes, q);
        let owner = self.nodes[k].id;
        let was = range_of(self.nodes[k].quants.as_slice(), q).over;
        self.slots.mark(&self.nodes, owner);
        self.nodes[k].quants.remove(q);
        self.slots.drop_use(was);
    }

    /// Moves a quantifier to a box, at a place, from 1, among those that the box then owns beside it.
    /// It fails where there is no memory.
    pub fn move_quant(&mut self, q: QuantId, owner: BoxId, place: usize) -> Result<(), OutOfMemory>
        requires quant { spec.HasQuant q self.old }
        requires owner { spec.HasBox owner self.old }
        requires from_one { 1 ≤ place }
        requires within { place ≤ length (spec.quants_of owner (edits.drop_quant q self.old)) + 1 }
        ensures ok { OnOk result (self.new ≡ edits.move_quant q owner (place - 1) self.old) }
        ensures err { OnErr result (self.new ≡ self.old) }
        ensures kept { HasAll self.old self.new }
    {
        let k = owner_place(&self.nodes, q);
        let from = self.nodes[k].id;
        move_quant(&mut self.nodes, q, owner, place - 1)?;
        self.slots.mark(&self.nodes, from);
        self.slots.mark(&self.nodes, owner);
        Ok(())
    }

    /// Sets what a quantifier ranges for. It takes no memory.
    pub fn put_quant(&mut self, q: QuantId, kind: QuantKind)
        requires { spec.HasQuant q self.old }
        ensures graph { self.new ≡ edits.put_quant q kind self.old }
        ensures kept { HasAll self.old self.new }
    {
        let k = owner_place(&self.nodes, q);
        let owner = self.nodes[k].id;
        self.slots.mark(&self.nodes, owner);
        self.nodes[k].quants.put_kind(q, kind);
    }

    /// Sets the box that a quantifier ranges over. It takes no memory.
    pub fn redirect(&mut self, q: QuantId, over: BoxId)
        requires quant { spec.HasQuant q self.old }
        requires over { spec.HasBox over self.old }
        ensures graph { self.new ≡ edits.redirect q over self.old }
        ensures kept { HasAll self.old self.new }
    {
        let k = owner_place(&self.nodes, q);
        let owner = self.nodes[k].id;
        let before = range_of(self.nodes[k].quants.as_slice(), q).over;
        self.slots.mark(&self.nodes, owner);
        self.nodes[k].quants.put_over(q, over);
        self.slots.drop_use(before);
        self.slots.add_use(over);
    }

    /// Moves a condition, by its place from 1, to the end of those of another box, where there is
    /// room for it. It takes no memory.
    pub fn move_conjunct(&mut self, b: BoxId, i: usize, to: BoxId)
        requires from { spec.HasBox b self.old }
        requires to { spec.HasBox to self.old }
        requires from_one { 1 ≤ i }
        requires within { i ≤ length (edits.conds_in (spec.box_of b self.old)) }
        requires room { 1 ≤ edits.spare_in (spec.box_of to self.old) }
        ensures graph { self.new ≡ edits.move_conjunct b (i - 1) to self.old }
        ensures kept { HasAll self.old self.new }
    {
        self.slots.mark(&self.nodes, b);
        self.slots.mark(&self.nodes, to);
        let from = box_place(&self.nodes, b);
        let c = self.nodes[from].parts.conds.remove(i);
        let k = box_place(&self.nodes, to);
        self.nodes[k].parts.conds.push(c);
    }

    /// Drops a column of a box's head, by its place from 1. Names of later columns of the quantifiers
    /// over the box go down by one. It takes no memory.
    pub fn drop_column(&mut self, b: BoxId, k: usize)
        requires held { spec.HasBox b self.old }
        requires from_one { 1 ≤ k }
        requires within { k ≤ length (edits.head_in (spec.box_of b self.old)) }
        ensures graph { self.new ≡ edits.drop_column b k self.old }
        ensures kept { HasAll self.old self.new }
    {
        self.slots.mark(&self.nodes, b);
        let i = box_place(&self.nodes, b);
        self.nodes[i].parts.head.remove(k);
        shift_over(&mut self.nodes, b, k);
    }

    /// Puts cells in place of a quantifier's columns, in a box's own cells and conditions.
    pub fn substitute(
        &mut self,
        alloc: Global,
        b: BoxId,
        q: QuantId,
        cells: &Head,
    ) -> Result<(), OutOfMemory>
        requires { spec.HasBox b self.old }
        ensures ok { OnOk result (self.new ≡ edits.substitute b q cells.now self.old) }
        ensures err { OnErr result (self.new ≡ self.old) }
        ensures kept { HasAll self.old self.new }
    {
        let parts = self.parts(b);
        let head = substitute_head(alloc, &parts.head, q, cells, ROOM)?;
        let conds = substitute_conds(alloc, &parts.conds, q, cells, ROOM)?;
        self.put_terms(b, conds, head);
        Ok(())
    }
}

// A box that owns no quantifier.
fn bare(alloc: Global, id: BoxId, parts: BoxParts) -> Node
    ensures { result ≡ spec.bare_box id parts }
{
    Node {
        id,
        parts,
        quants: Owned::new(alloc),
    }
}
