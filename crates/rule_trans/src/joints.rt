// The equalities of a box, with what is known of their columns, and what follows of two of them.
ghost use Rattle.std.specs.Prelude.{◌≡◌, IfOk, map};
ghost use Rattle.qgm_props.specs.Laws.{Tells};
ghost use Rattle.qgm_props.specs.Table.{facts_of};
ghost use Rattle.qgm_edit_laws.specs.Graph.{binds_row};
ghost use Rattle.qgm_terms.specs.Shown.{cond};
ghost use Rattle.rule_trans.specs.ColumnPairs.{has};
ghost use Rattle.rule_trans.specs.Equalities.{equated};
ghost use Rattle.rule_trans.specs.Joints as spec;

use crate::column_pairs::{ColumnPairs, has_pair};
use crate::equalities::{Equality, equated, is_same};
use crate::known::infers_free;
use qgm_core::{Column, Gc, Graph, Node, OwnedQuant, QuantId};
use qgm_props::Props;
use shared_types::OutOfMemory;
use std::alloc::Global;

/// A column of an equality of a box: whether it is of an F of the box, and whether it is inferred that
/// it holds no error.
#[derive(Clone, Copy)]
pub struct Side {
    pub column: Column,
    pub is_row: bool,
    pub is_free: bool,
}

/// An equality of two columns.
#[derive(Clone, Copy)]
pub struct Joint {
    pub left: Side,
    pub right: Side,
}

// Whether a quantifier is an F among these.
fn binds_row(q: QuantId, ranges: &[OwnedQuant]) -> bool
    ensures { result ≡ binds_row q ranges.now }
{
    ranges.iter().any(|r| r.kind.is_f() && r.id == q)
}

// What is known of a column.
fn side_of(graph: &Graph, known: &Props, node: &Node, a: Column) -> Side
    requires { Tells (facts_of known.now) graph.now.boxes }
    ensures { result ≡ spec.side_of graph.now node.now a }
{
    Side {
        column: a,
        is_row: binds_row(a.quant, node.quants.as_slice()),
        is_free: infers_free(graph, known, a),
    }
}

/// The equality that a condition of a box is, if it is one of two columns.
pub fn joint_of(graph: &Graph, known: &Props, node: &Node, c: &Gc) -> Option<Joint>
    requires { Tells (facts_of known.now) graph.now.boxes }
    ensures { result ≡ spec.joint_of graph.now node.now (equated (cond c.now)) }
{
    let e = equated(c)?;
    Some(Joint {
        left: side_of(graph, known, node, e.left),
        right: side_of(graph, known, node, e.right),
    })
}

/// The equalities of a box, one for each conjunct. It fails only for want of memory.
pub fn joints_of(
    alloc: Global,
    graph: &Graph,
    known: &Props,
    node: &Node,
) -> Result<Vec<Option<Joint>>, OutOfMemory>
    requires { Tells (facts_of known.now) graph.now.boxes }
    ensures { IfOk result (λ joints. joints.items ≡ map (λ c. spec.joint_of graph.now node.now (equated c)) node.now.parts.conds.items) }
{
    let mut joints = Vec::new(alloc);
    for c in node.parts.conds.as_slice() {
        joints.push(joint_of(graph, known, node, c))?;
    }
    Ok(joints)
}

// Whether b is m, no other two columns are one, and a and c are of two F quantifiers of a box.
fn are_three(a: &Side, b: &Side, m: &Side, c: &Side) -> bool
    ensures { result ≡ spec.are_three a.now b.now m.now c.now }
{
    is_same(b.column, m.column)
        && !is_same(a.column, b.column)
        && !is_same(m.column, c.column)
        && a.column.quant != c.column.quant
        && a.is_row
        && c.is_row
}

// Whether it follows of a = b and m = c that a = c, which isn't there yet.
fn joins(pairs: &ColumnPairs, a: &Side, b: &Side, m: &Side, c: &Side) -> bool
    ensures { result ≡ spec.joins (has pairs.now) a.now b.now m.now c.now }
{
    are_three(a, b, m, c) && !has_pair(pairs, a.column, c.column) && b.is_free
}

// What follows of two equalities, the first column from the first of them.
fn implied_by(pairs: &ColumnPairs, e: &Joint, f: &Joint) -> Option<Equality>
    ensures { result ≡ spec.implied_by (has pairs.now) e.now f.now }
{
    if joins(pairs, &e.left, &e.right, &f.left, &f.right) {
        return Some(Equality {
            left: e.left.column,
            right: f.right.column,
        });
    }
    if joins(pairs, &e.left, &e.right, &f.right, &f.left) {
        return Some(Equality {
            left: e.left.column,
            right: f.left.column,
        });
    }
    if joins(pairs, &e.right, &e.left, &f.left, &f.right) {
        return Some(Equality {
            left: e.right.column,
            right: f.right.column,
        });
    }
    if joins(pairs, &e.right, &e.left, &f.right, &f.left) {
        return Some(Equality {
            left: e.right.column,
            right: f.left.column,
        });
    }
    None
}

/// What follows of two conjuncts of a box that are equalities.
pub fn implied(pairs: &ColumnPairs, e: &Option<Joint>, f: &Option<Joint>) -> Option<Equality>
    ensures { result ≡ spec.implied (has pairs.now) e.now f.now }
{
    match (e, f) {
        (Some(e), Some(f)) => implied_by(pairs, e, f),
        (None, _) | (Some(_), None) => None,
    }
}

// Whether two equalities have a column in common. Else nothing follows of them.
fn shares(e: &Joint, f: &Joint) -> bool
    ensures { result ≡ spec.shares e.now f.now }
{
    is_same(e.left.column, f.left.column)
        || is_same(e.left.column, f.right.column)
        || is_same(e.right.column, f.left.column)
        || is_same(e.right.column, f.right.column)
}

/// Whether an equality follows of two conjuncts of a box that are equalities.
#[tactic(auto, using(crate::proofs::JointRows::none_shared))]
pub fn passes(pairs: &ColumnPairs, e: &Option<Joint>, f: &Option<Joint>) -> bool
    ensures { result ≡ spec.passes (has pairs.now) e.now f.now }
{
    match (e, f) {
        (Some(e), Some(f)) => shares(e, f) && implied_by(pairs, e, f).is_some(),
        (None, _) | (Some(_), None) => false,
    }
}
