// Those that feed go into a select of their own.
ghost use Rattle.std.specs.Prelude.{ℕ, ◌≡◌, ◌≤◌, IfOk, filter, length};
ghost use Rattle.std.specs.List.{list_all, list_any};
ghost use Rattle.list_laws.specs.Lists.{EachOnce, In};
ghost use Rattle.qgm_core.specs.Boxes.{HasBox, HasQuant, is_quant, numbers, quants_of};
ghost use Rattle.qgm_core.specs.Held.{HasAll};
ghost use Rattle.qgm_core.specs.declared.owned.OwnedQuant.{OwnedQuant};
ghost use Rattle.qgm_props.specs.Laws.{Tells};
ghost use Rattle.qgm_props.specs.Table.{facts_of};
ghost use Rattle.qgm_terms.specs.Shown.{cond};
ghost use Rattle.qgm_terms.specs.declared.named.Column.{Column};
ghost use Rattle.rule_feed.specs.FeedActs as act;
ghost use Rattle.rule_feed.specs.FeedCode as code;
ghost use Rattle.rule_feed.specs.FeedSteps as spec;
ghost use Rattle.rule_feed.specs.Turn.{before_first};

use crate::feed::condition::feeds;
use crate::feed::edits::{all_columns, move_all, rename_all};
use qgm_core::{
    BoxId, BoxKind, BoxParts, Column, Conds, Distinct, Gc, Graph, Head, Node, OwnedQuant, QuantId,
    QuantKind, Role, has_range,
};
use qgm_props::Props;
use qgm_term_search::{add_columns_of_cond, is_node_free_cond};
use qgm_terms::{ROOM, copy_cond, copy_head};
use shared_types::OutOfMemory;
use std::alloc::Global;

/// The new select, and the quantifier over it.
#[derive(Clone, Copy)]
pub struct Split {
    pub s: BoxId,
    pub q: QuantId,
}

/// What is made of the box.
#[derive(Drop)]
pub struct Parts {
    pub place: usize,
    pub feeders: Vec<OwnedQuant>,
    pub taken: Conds,
    pub head: Head,
    pub staying: Conds,
    pub own: Head,
}

// Those that feed a box in which those are free.
fn feeders(
    alloc: Global,
    free: &[QuantId],
    list: &[OwnedQuant],
) -> Result<Vec<OwnedQuant>, OutOfMemory>
    ensures { IfOk result (λ v. v.items ≡ filter (code.feeds_by free.now) list.now) }
{
    let mut out = Vec::new(alloc);
    for r in list {
        if feeds(free, *r) {
            out.push(*r)?;
        }
    }
    Ok(out)
}

// How many stand before the first that feeds.
fn before(free: &[QuantId], list: &[OwnedQuant]) -> usize
    ensures { result ≡ length (before_first (code.feeds_by free.now) list.now) }
{
    for k in 0..list.len() {
        if feeds(free, list[k]) {
            return k;
        }
    }
    list.len()
}

// Whether each of these columns is one of those quantifiers.
fn are_of(list: &[OwnedQuant], columns: &[Column]) -> bool
    ensures { result ≡ list_all (λ (x : Column). list_any (is_quant x.quant) list.now) columns.now }
{
    for x in columns {
        if !has_range(list, x.quant) {
            return false;
        }
    }
    true
}

// Whether a condition goes along with these, by what is inferred of the graph.
fn goes(
    alloc: Global,
    graph: &Graph,
    facts: &Props,
    list: &[OwnedQuant],
    c: &Gc,
) -> Result<bool, OutOfMemory>
    ensures { IfOk result (λ v. v ≡ act.takes graph.now.boxes (facts_of facts.now) list.now (cond c.now)) }
{
    if !is_node_free_cond(c) {
        return Ok(false);
    }
    let mut columns = Vec::new(alloc);
    add_columns_of_cond(c, &mut columns)?;
    if columns.is_empty() || !are_of(list, &columns) {
        return Ok(false);
    }
    facts.cond_error_free(alloc, graph, c)
}

// Whether it doesn't.
#[tactic(auto, unfolding(crate::specs::FeedCode::stays_by))]
fn stays(
    alloc: Global,
    graph: &Graph,
    facts: &Props,
    list: &[OwnedQuant],
    c: &Gc,
) -> Result<bool, OutOfMemory>
    ensures { IfOk result (λ v. v ≡ code.stays_by graph.now.boxes (facts_of facts.now) list.now (cond c.now)) }
{
    let goes = goes(alloc, graph, facts, list, c)?;
    Ok(!goes)
}

// The conditions that go along.
fn taken(
    alloc: Global,
    graph: &Graph,
    facts: &Props,
    list: &[OwnedQuant],
    conds: &Conds,
) -> Result<Conds, OutOfMemory>
    ensures items { IfOk result (λ a. a.items ≡ filter (act.takes graph.now.boxes (facts_of facts.now) list.now) conds.now.items) }
    ensures spare { IfOk result (λ a. a.spare ≡ 0) }
{
    let mut all = Conds::new(alloc);
    for c in conds.as_slice() {
        if goes(alloc, graph, facts, list, c)? {
            all.add(copy_cond(alloc, c, ROOM)?)?;
        }
    }
    Ok(all)
}

// The others, with as much room for more.
fn staying(
    alloc: Global,
    graph: &Graph,
    facts: &Props,
    list: &[OwnedQuant],
    conds: &Conds,
) -> Result<Conds, OutOfMemory>
    ensures { IfOk result (λ a. a ≡ record conds.now { items = filter (code.stays_by graph.now.boxes (facts_of facts.now) list.now) conds.now.items }) }
{
    let mut all = Conds::new(alloc);
    for c in conds.as_slice() {
        if stays(alloc, graph, facts, list, c)? {
            all.add(copy_cond(alloc, c, ROOM)?)?;
        }
    }
    all.reserve(conds.spare())?;
    Ok(all)
}

/// What is made of box b, where box c is fed, by what is inferred of the graph.
pub fn part(
    alloc: Global,
    graph: &Graph,
    facts: &Props,
    b: &Node,
    c: BoxId,
) -> Result<Parts, OutOfMemory>
    requires { Tells (facts_of facts.now) graph.now.boxes }
    ensures { IfOk result (λ x. code.IsParted graph.now.boxes b.now c x) }
{
    graph.each_number_once();
    let free = graph.free(alloc, c)?;
    let list = feeders(alloc, &free, b.quants.as_slice())?;
    let head = all_columns(alloc, graph.nodes(), &list)?;
    let taken = taken(alloc, graph, facts, &list, &b.parts.conds)?;
    let staying = staying(alloc, graph, facts, &list, &b.parts.conds)?;
    let own = copy_head(alloc, &b.parts.head, ROOM)?;
    Ok(Parts {
        place: before(&free, b.quants.as_slice()),
        feeders: list,
        taken,
        head,
        staying,
        own,
    })
}

/// Makes the new select of these parts of box b, in a graph whose boxes have these numbers.
pub fn make_split(
    alloc: Global,
    graph: &mut Graph,
    nodes: &[Node],
    ids: &[BoxId],
    b: BoxId,
    x: Parts,
) -> Result<Split, OutOfMemory>
    requires once { EachOnce (numbers nodes.now) }
    requires held { HasBox b graph.old }
    requires all { (y : ℕ) → In y ids.now → HasBox y graph.old }
    requires owned { (r : OwnedQuant) → In r x.feeders.items → HasQuant r.id graph.old }
    requires within { x.place ≤ length (quants_of b graph.old) }
    ensures kept { HasAll graph.old graph.new }
    ensures held { IfOk result (λ y. HasBox y.s graph.new) }
    ensures new_s { IfOk result (λ y. HasBox y.s graph.old → ⊥) }
    ensures new_q { IfOk result (λ y. HasQuant y.q graph.old → ⊥) }
    ensures graph { IfOk result (λ y. graph.new ≡ spec.split_edits ids.now nodes.now b (code.as_parted x) y.s y.q graph.old) }
{
    let Parts {
        place,
        feeders,
        taken,
        head,
        staying,
        own,
    } = x;
    let parts = BoxParts {
        kind: BoxKind::Select,
        distinct: Distinct::Preserve,
        role: Role::Plain,
        conds: taken,
        head,
    };
    let Some(at) = place.checked_add(1) else {
        return Err(OutOfMemory);
    };
    let s = graph.add_box(alloc, parts, Some(b))?;
    let q = graph.add_quant(b, at, QuantKind::F, s)?;
    graph.put_terms(b, staying, own);
    move_all(graph, &feeders, s)?;
    rename_all(alloc, graph, nodes, ids, q, &feeders)?;
    Ok(Split { s, q })
}
