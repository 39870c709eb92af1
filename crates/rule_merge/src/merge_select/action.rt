// A box stands in the place of the quantifier over it.
ghost use Rattle.std.specs.Prelude.{ℕ, ◌≡◌, ◌++◌, ◌∷◌, [], IfOk, OnErr, OnOk};
ghost use Rattle.qgm_wellformed.specs.Sentences.{WellFormed};
ghost use Rattle.qgm_core.specs.Boxes.{HasBox};
ghost use Rattle.qgm_core.specs.Edits.{on_boxes};
ghost use Rattle.list_laws.specs.Lists.{In};
ghost use Rattle.qgm_terms.specs.Shown.{conds};
ghost use Rattle.rule_merge.specs.MergeSelect.{merged_with};
ghost use Rattle.rule_merge.specs.MergeSelectSteps as spec;
ghost use Rattle.rule_merge.specs.declared.merge_select.action.NewTerms.{NewTerms};

use qgm_core::{BoxId, BoxParts, Conds, Gc, Graph, Head, Node, OwnedQuant, QuantId, reached};
use qgm_term_search::{stands_in_cells, stands_in_conds};
use qgm_terms::{ROOM, Sought, copy_cond, substitute_conds, substitute_head};
use shared_types::OutOfMemory;
use std::alloc::Global;

/// The conditions and the head that a box gets.
#[derive(Drop)]
pub struct NewTerms {
    pub at: BoxId,
    pub conds: Conds,
    pub head: Head,
}

/// What M1 does at a place: the quantifiers of box c stand in box b in the place, from 1, of the one
/// over c, and these boxes get other terms.
#[derive(Drop)]
pub struct MergePlan {
    pub b: BoxId,
    pub place: usize,
    pub c: BoxId,
    pub terms: Vec<NewTerms>,
}

// Whether a box reads a column of q.
fn reads_any(parts: &BoxParts, q: QuantId) -> bool
    ensures { result ≡ spec.reads_any q parts.now }
{
    stands_in_cells(parts.head.as_slice(), Sought::Row(q))
        || stands_in_conds(parts.conds.as_slice(), Sought::Row(q))
}

// Whether a box, not c, is b or reads a column of q.
fn is_changed(node: &Node, b: BoxId, q: QuantId, c: BoxId) -> bool
    ensures { result ≡ spec.is_changed b q c node.now }
{
    node.id != c && (node.id == b || reads_any(&node.parts, q))
}

// Adds copies of conditions.
fn add_each(alloc: Global, all: &mut Conds, list: &[Gc]) -> Result<(), OutOfMemory>
    ensures items { OnOk result (all.new.items ≡ all.old.items ++ conds list.now) }
    ensures spare { all.new.spare ≡ all.old.spare }
{
    for c in list {
        let p = copy_cond(alloc, c, ROOM)?;
        all.add(p)?;
    }
    Ok(())
}

// The conditions of a box with c's cells for the columns of q, and of b with c's behind its own.
fn conds_for(
    alloc: Global,
    node: &Node,
    b: BoxId,
    q: QuantId,
    c: &Node,
) -> Result<Conds, OutOfMemory>
    ensures { IfOk result (λ a. a ≡ record node.now.parts.conds { items = spec.conds_for b q c.now node.now }) }
{
    let mut all = substitute_conds(alloc, &node.parts.conds, q, &c.parts.head, ROOM)?;
    if node.id == b {
        add_each(alloc, &mut all, c.parts.conds.as_slice())?;
    }
    Ok(all)
}

// What a box becomes.
fn terms_for(
    alloc: Global,
    node: &Node,
    b: BoxId,
    q: QuantId,
    c: &Node,
) -> Result<NewTerms, OutOfMemory>
    ensures { IfOk result (λ t. t ≡ spec.terms_for b q c.now node.now) }
{
    let conds = conds_for(alloc, node, b, q, c)?;
    let head = substitute_head(alloc, &node.parts.head, q, &c.parts.head, ROOM)?;
    Ok(NewTerms {
        at: node.id,
        conds,
        head,
    })
}

// What the boxes become that are changed.
fn new_terms(
    alloc: Global,
    nodes: &[Node],
    b: BoxId,
    q: QuantId,
    c: &Node,
) -> Result<Vec<NewTerms>, OutOfMemory>
    ensures { IfOk result (λ v. v.items ≡ spec.new_terms b q c.now nodes.now) }
{
    let mut out = Vec::new(alloc);
    for node in nodes {
        if is_changed(node, b, q, c.id) {
            let terms = terms_for(alloc, node, b, q, c)?;
            out.push(terms)?;
        }
    }
    Ok(out)
}

/// What M1 does where r, the quantifier of b at this place, from 1, ranges over c.
pub fn plan(
    alloc: Global,
    graph: &Graph,
    b: &Node,
    place: usize,
    r: OwnedQuant,
    c: &Node,
) -> Result<MergePlan, OutOfMemory>
    ensures { IfOk result (λ m. spec.Plans graph.now b.now place r c.now m) }
{
    let terms = new_terms(alloc, graph.nodes(), b.id, r.id, c)?;
    Ok(MergePlan {
        b: b.id,
        place,
        c: c.id,
        terms,
    })
}

// Boxes get other terms.
fn put_all(graph: &mut Graph, terms: Vec<NewTerms>)
    requires { (t : NewTerms) → In t terms.items → HasBox t.at graph.old }
    ensures { graph.new ≡ on_boxes (spec.put_all terms.items) graph.old }
{
    let mut left = terms;
    while let Some(t) = left.pop() {
        graph.put_terms(t.at, t.conds, t.head);
    }
}

/// Does it. Where there is no memory it fails, and the graph is as before.
pub fn merge(alloc: Global, graph: &mut Graph, steps: MergePlan) -> Result<(), OutOfMemory>
    requires { spec.MayStep graph.old steps }
    ensures ok { OnOk result (graph.new ≡ spec.merge_steps steps graph.old) }
    ensures err { OnErr result (graph.new ≡ graph.old) }
{
    let marks = reached(alloc, graph.nodes(), graph.root())?;
    graph.absorb(steps.b, steps.place, steps.c)?;
    put_all(graph, steps.terms);
    graph.keep(&marks);
    Ok(())
}

/// The graph where c stands in the place of quantifier r of b, without what the root doesn't reach.
pub fn merged(
    alloc: Global,
    graph: &Graph,
    b: &Node,
    place: usize,
    r: OwnedQuant,
    c: &Node,
) -> Result<Graph, OutOfMemory>
    requires formed { WellFormed graph.now }
    requires stands { spec.Stands graph.now b.now place r c.now }
    ensures { IfOk result (λ h. h ≡ merged_with graph.now b.now c.now r.id) }
{
    graph.each_number_once();
    let steps = plan(alloc, graph, b, place, r, c)?;
    let mut after = graph.copy(alloc)?;
    merge(alloc, &mut after, steps)?;
    Ok(after)
}
