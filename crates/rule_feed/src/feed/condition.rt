// Where G1 may fire.
ghost use Rattle.std.specs.Prelude.{◌≡◌, ◌&&◌, [], IfOk};
ghost use Rattle.qgm_core.specs.Boxes.{width};
ghost use Rattle.qgm_edit_laws.specs.Graph.{reads_in};
ghost use Rattle.qgm_props.specs.Laws.{KeptOf};
ghost use Rattle.qgm_props.specs.Table.{facts_of};
ghost use Rattle.qgm_props.specs.Under.{all_places};
ghost use Rattle.rule_feed.specs.FeedMay as spec;
ghost use Rattle.rule_feed.specs.FeedCode as code;
ghost use Rattle.list_laws.specs.Lists.{EachOnce};
ghost use Rattle.qgm_core.specs.Boxes.{numbers};

use qgm_core::{BoxId, BoxKind, Graph, Marks, Node, OwnedQuant, QuantId, reached};
use qgm_props::{Inference, Props};
use qgm_term_search::{stands_in_cells, stands_in_conds};
use qgm_terms::Sought;
use rule_facts::{box_at, is_closed};
use shared_types::OutOfMemory;
use std::alloc::Global;

// How many boxes a graph may have, where new ones are added.
const MOST_BOXES: usize = 65_530;

/// How many columns a box has.
fn width(node: &Node) -> usize
    ensures { result ≡ width node.now }
{
    match &node.parts.kind {
        BoxKind::Base(base) => base.types.len(),
        BoxKind::SetOp(_, types) => types.len(),
        BoxKind::Select | BoxKind::Group(_) | BoxKind::OuterJoin => node.parts.head.len(),
    }
}

/// How many columns the box of a number has; none where there is no such box.
pub fn width_of(nodes: &[Node], b: BoxId) -> usize
    requires { EachOnce (numbers nodes.now) }
    ensures { result ≡ spec.width_of nodes.now b }
{
    match box_at(nodes, b) {
        Some(node) => width(node),
        None => 0,
    }
}

/// Whether a box is a plain select, of a graph to which boxes may be added.
pub fn may_grow(nodes: &[Node], node: &Node) -> bool
    ensures { result ≡ code.may_grow nodes.now node.now }
{
    node.parts.kind.is_select() && node.parts.role.is_plain() && nodes.len() <= MOST_BOXES
}

/// Whether a quantifier is an F among those that are free in a box.
pub fn feeds(free: &[QuantId], r: OwnedQuant) -> bool
    ensures { result ≡ code.feeds_by free.now r }
{
    r.kind.is_f() && free.contains(&r.id)
}

// Whether a box reads column k of q.
fn reads(node: &Node, q: QuantId, k: usize) -> bool
    ensures { result ≡ reads_in q k node.now }
{
    stands_in_cells(node.parts.head.as_slice(), Sought::Cell(q, k))
        || stands_in_conds(node.parts.conds.as_slice(), Sought::Cell(q, k))
}

/// Whether a marked box reads column k of q.
pub fn is_named(nodes: &[Node], marks: &Marks, q: QuantId, k: usize) -> bool
    ensures { result ≡ code.named_among marks.now q k nodes.now }
{
    for node in nodes {
        if marks.has(node.id) && reads(node, q, k) {
            return true;
        }
    }
    false
}

// Whether column k of q isn't named in a marked box, or is no error.
fn is_column_ready(nodes: &[Node], marks: &Marks, facts: &Props, q: OwnedQuant, k: usize) -> bool
    ensures { result ≡ code.column_ready marks.now nodes.now (facts_of facts.now) q k }
{
    !is_named(nodes, marks, q.id, k) || facts.error_free(q.over, k)
}

// Whether no column of q, of w columns, is named in box c or below and may be an error.
fn are_columns_ready(nodes: &[Node], marks: &Marks, facts: &Props, q: OwnedQuant, w: usize) -> bool
    ensures { result ≡ all_places w (code.column_ready marks.now nodes.now (facts_of facts.now) q) }
{
    for j in 0..w {
        if !is_column_ready(nodes, marks, facts, q, w - j) {
            return false;
        }
    }
    true
}

// Whether no column of q, of w columns, may be an error.
fn are_error_free(facts: &Props, q: OwnedQuant, w: usize) -> bool
    ensures { result ≡ all_places w ((facts_of facts.now).error_free q.over) }
{
    for j in 0..w {
        if !facts.error_free(q.over, w - j) {
            return false;
        }
    }
    true
}

// Whether the columns of q that are named in box c or below are no errors.
fn are_all_ready(
    alloc: Global,
    nodes: &[Node],
    facts: &Props,
    c: BoxId,
    q: OwnedQuant,
) -> Result<bool, OutOfMemory>
    requires { EachOnce (numbers nodes.now) }
    ensures { IfOk result (λ v. v ≡ all_places (spec.width_of nodes.now q.over) (spec.is_column_ready nodes.now (facts_of facts.now) c q)) }
{
    let w = width_of(nodes, q.over);
    if are_error_free(facts, q, w) {
        return Ok(true);
    }
    let marks = reached(alloc, nodes, c)?;
    Ok(are_columns_ready(nodes, &marks, facts, q, w))
}

// Whether q may feed box c.
fn is_ready(
    alloc: Global,
    graph: &Graph,
    facts: &Props,
    c: BoxId,
    q: OwnedQuant,
) -> Result<bool, OutOfMemory>
    ensures { IfOk result (λ v. v ≡ spec.is_ready graph.now.boxes (facts_of facts.now) c q) }
{
    graph.each_number_once();
    if !facts.clean(q.over) || !is_closed(alloc, graph, q.over)? {
        return Ok(false);
    }
    are_all_ready(alloc, graph.nodes(), facts, c, q)
}

// Whether all of these that feed box c, in which those are free, may do so.
fn are_ready(
    alloc: Global,
    graph: &Graph,
    facts: &Props,
    free: &[QuantId],
    c: BoxId,
    list: &[OwnedQuant],
) -> Result<bool, OutOfMemory>
    ensures { IfOk result (λ v. v ≡ code.all_ready graph.now.boxes (facts_of facts.now) c free.now list.now) }
{
    for q in list {
        if feeds(free, *q) && !is_ready(alloc, graph, facts, c, *q)? {
            return Ok(false);
        }
    }
    Ok(true)
}

// What is asked of an S over a box.
fn is_single(facts: &Props, c: BoxId, r: OwnedQuant) -> bool
    ensures { result ≡ spec.is_single [] (facts_of facts.now) c r }
{
    !r.kind.is_s() || (facts.clean(c) && facts.exactly_one(c))
}

/// The F of these quantifiers.
pub fn fs_of(alloc: Global, list: &[OwnedQuant]) -> Result<Vec<OwnedQuant>, OutOfMemory>
    ensures { IfOk result (λ v. v.items ≡ code.fs list.now) }
{
    let mut out = Vec::new(alloc);
    for q in list {
        if q.kind.is_f() {
            out.push(*q)?;
        }
    }
    Ok(out)
}

// Whether the box under r, in which those are free, may be fed by these quantifiers, by these facts.
fn passes(
    alloc: Global,
    graph: &Graph,
    facts: &Props,
    free: &[QuantId],
    fs: &[OwnedQuant],
    r: OwnedQuant,
) -> Result<bool, OutOfMemory>
    ensures { IfOk result (λ v. v ≡ (spec.is_single [] (facts_of facts.now) r.over r && code.all_ready graph.now.boxes (facts_of facts.now) r.over free.now fs.now)) }
{
    if !is_single(facts, r.over, r) {
        return Ok(false);
    }
    are_ready(alloc, graph, facts, free, r.over, fs)
}

// Whether it may be, by what is inferred.
fn told(
    alloc: Global,
    graph: &Graph,
    known: &mut Inference,
    free: &[QuantId],
    fs: &[OwnedQuant],
    r: OwnedQuant,
) -> Result<bool, OutOfMemory>
    requires { KeptOf known.old graph.now.boxes }
    ensures known { KeptOf known.new graph.now.boxes }
    ensures test { IfOk result (λ v. v ≡ code.told graph.now.boxes fs.now r free.now) }
{
    let facts = known.take(alloc, graph)?;
    let passes = passes(alloc, graph, &facts, free, fs, r)?;
    known.put(facts);
    Ok(passes)
}

/// Whether the box under r may be fed by these quantifiers: the F of the box that owns r are enough.
pub fn may_feed(
    alloc: Global,
    graph: &Graph,
    known: &mut Inference,
    fs: &[OwnedQuant],
    r: OwnedQuant,
) -> Result<bool, OutOfMemory>
    requires { KeptOf known.old graph.now.boxes }
    ensures known { KeptOf known.new graph.now.boxes }
    ensures test { IfOk result (λ v. v ≡ code.may_feed graph.now.boxes fs.now r) }
{
    if is_closed(alloc, graph, r.over)? {
        return Ok(false);
    }
    let free = graph.free(alloc, r.over)?;
    told(alloc, graph, known, &free, fs, r)
}
