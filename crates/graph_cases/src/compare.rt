// Whether a graph has the boxes that a script writes.
use crate::faults::LineError;
use crate::sketch::Sketch;
use qgm_core::{BaseTable, BoxKind, Gc, Graph, Gx, Node, OwnedQuant};
use qgm_term_search::{same_cond, same_term};
use sqlite_items::Items;
use std::alloc::Global;

// Whether two lists of expressions are the same.
fn same_cells(alloc: Global, xs: &[Gx], ys: &[Gx]) -> Result<bool, LineError> {
    if xs.len() != ys.len() {
        return Ok(false);
    }
    for (x, y) in xs.iter().zip(ys) {
        if !same_term(alloc, x, y)? {
            return Ok(false);
        }
    }
    Ok(true)
}

// Whether two lists of conditions are the same.
fn same_conds(alloc: Global, cs: &[Gc], ds: &[Gc]) -> Result<bool, LineError> {
    if cs.len() != ds.len() {
        return Ok(false);
    }
    for (c, d) in cs.iter().zip(ds) {
        if !same_cond(alloc, c, d)? {
            return Ok(false);
        }
    }
    Ok(true)
}

// Whether two lists of quantifiers are the same.
fn same_quants(rs: &[OwnedQuant], ss: &[OwnedQuant]) -> bool {
    if rs.len() != ss.len() {
        return false;
    }
    for (r, s) in rs.iter().zip(ss) {
        if r.id != s.id || r.kind != s.kind || r.over != s.over {
            return false;
        }
    }
    true
}

// Whether two lists of keys are the same.
fn same_keys(js: &[Items<usize>], ks: &[Items<usize>]) -> bool {
    if js.len() != ks.len() {
        return false;
    }
    for (j, k) in js.iter().zip(ks) {
        if j.as_slice() != k.as_slice() {
            return false;
        }
    }
    true
}

fn same_table(a: &BaseTable, b: &BaseTable) -> bool {
    a.name == b.name
        && a.types.as_slice() == b.types.as_slice()
        && a.not_null.as_slice() == b.not_null.as_slice()
        && same_keys(a.keys.as_slice(), b.keys.as_slice())
}

fn same_kind(a: &BoxKind, b: &BoxKind) -> bool {
    match (a, b) {
        (BoxKind::Base(s), BoxKind::Base(t)) => same_table(s, t),
        (BoxKind::Select, BoxKind::Select) | (BoxKind::OuterJoin, BoxKind::OuterJoin) => true,
        (BoxKind::Group(j), BoxKind::Group(k)) => j == k,
        (BoxKind::SetOp(o, s), BoxKind::SetOp(p, t)) => o == p && s.as_slice() == t.as_slice(),
        (_, _) => false,
    }
}

// What of a box isn't as it is to be.
fn difference_in(
    alloc: Global,
    node: &Node,
    sketch: &Sketch,
) -> Result<Option<&'static str>, LineError> {
    let a = &node.parts;
    let b = &sketch.parts;
    Ok(if node.id != sketch.id {
        Some("another number")
    } else if !same_kind(&a.kind, &b.kind) {
        Some("another kind")
    } else if a.distinct != b.distinct {
        Some("another distinctness")
    } else if a.role != b.role {
        Some("another role")
    } else if !same_quants(node.quants.as_slice(), sketch.quants.as_slice()) {
        Some("other quantifiers")
    } else if !same_conds(alloc, a.conds.as_slice(), b.conds.as_slice())? {
        Some("other conditions")
    } else if !same_cells(alloc, a.head.as_slice(), b.head.as_slice())? {
        Some("another head")
    } else {
        None
    })
}

/// A box that is to be otherwise, and the first of what is another in it.
#[derive(Clone, Copy)]
pub struct Difference {
    /// The line of the box.
    pub line: usize,
    pub what: &'static str,
}

/// The first of the boxes, by rank, that the graph has otherwise.
pub fn find_difference(
    alloc: Global,
    graph: &Graph,
    boxes: &[Sketch],
) -> Result<Option<Difference>, LineError> {
    for (node, sketch) in graph.nodes().iter().zip(boxes) {
        if let Some(what) = difference_in(alloc, node, sketch)? {
            return Ok(Some(Difference {
                line: sketch.line,
                what,
            }));
        }
    }
    Ok(None)
}
