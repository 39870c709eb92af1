// Where a graph is ill-formed.
ghost use Rattle.std.specs.Prelude.{◌≡◌, ◌++◌, [], Some, None, false, filter, map, true, OnOk, IfOk, IsErrOf};
ghost use Rattle.std.specs.List.{list_any, list_all};
ghost use Rattle.list_laws.specs.Lists.{EachOnce, In};
ghost use Rattle.qgm_core.specs.Boxes.{all_over, ids_in, ids_of, numbers, overs_in, owns};
ghost use Rattle.qgm_core.specs.Free.{free_in, named_by};
ghost use Rattle.qgm_core.specs.Kinds.{is_F_or_S};
ghost use Rattle.qgm_wellformed.specs.View.{in_view};
ghost use Rattle.qgm_wellformed.specs.Sentences.{IsFault, WellFormed};
ghost use Rattle.qgm_check.specs.Survey.{IsApart, IsSurvey, counted_in};
ghost use Rattle.qgm_wellformed.specs.WellFormed as spec;
ghost use Rattle.qgm_wellformed.specs.WellFormed.{is_empty};
ghost use Rattle.qgm_wellformed.specs.declared.clause.Fault.{Fault};
ghost use Rattle.qgm_check.specs.declared.check.IllFormed.TheVariants.{Fails, Memory};

use crate::columns_fit::columns_fit;
use crate::shapes::shape_fits;
use crate::view::in_view;
use qgm_core::{
    BoxId, Graph, Marks, Node, OwnedQuant, QuantId, has_box, has_quant, is_marked, mark_each,
};
use qgm_wellformed::{Clause, Fault, KnownTypes, is_closed, known_of, names_of, types_agree};
use shared_types::OutOfMemory;
use std::alloc::Global;
use thiserror::Error;

/// Why a graph isn't well-formed.
#[derive(Clone, Copy, Debug, PartialEq, Eq, Error)]
pub enum IllFormed {
    /// A clause fails.
    #[error("a clause fails")]
    Fails(Fault),
    /// Memory ran out. It says nothing of the graph.
    #[error("out of memory")]
    Memory,
}

impl From<OutOfMemory> for IllFormed {
    ghost from_gives = { λ _ e. e ≡ Memory };

    fn from(_: OutOfMemory) -> Self {
        IllFormed::Memory
    }
}

// Whether each quantifier ranges over one of these boxes.
fn all_over(boxes: &[Node], ranges: &[OwnedQuant]) -> bool
    ensures { result ≡ all_over boxes.now ranges.now }
{
    ranges.iter().all(|r| has_box(boxes, r.over))
}

// Whether each is a quantifier of the graph.
fn all_known(nodes: &[Node], names: &[QuantId]) -> bool
    ensures { result ≡ list_all (λ q. list_any (owns q) nodes.now) names.now }
{
    names.iter().all(|q| has_quant(nodes, *q))
}

fn ids_known(alloc: Global, nodes: &[Node], node: &Node) -> Result<bool, OutOfMemory>
    ensures { IfOk result (λ k. k ≡ spec.ids_known nodes.now node.now) }
{
    let names = names_of(alloc, node)?;
    Ok(all_over(nodes, node.quants.as_slice()) && all_known(nodes, &names))
}

// Whether a number stands exactly once here.
fn once(x: usize, ys: &[usize]) -> bool
    ensures { result ≡ spec.once x ys.now }
{
    for i in 0..ys.len() {
        if ys[i] == x {
            return !is_marked(&ys[i + 1..], x);
        }
    }
    false
}

// Appends the numbers of quantifiers.
fn add_ids(ranges: &[OwnedQuant], out: &mut Vec<QuantId>) -> Result<(), OutOfMemory>
    ensures { OnOk result (out.new.items ≡ out.old.items ++ map (λ r. r.id) ranges.now) }
{
    for range in ranges {
        out.push(range.id)?;
    }
    Ok(())
}

// The quantifiers that the boxes own.
fn ids_in(alloc: Global, nodes: &[Node]) -> Result<Vec<QuantId>, OutOfMemory>
    ensures { IfOk result (λ ids. ids.items ≡ ids_in nodes.now) }
{
    let mut ids = Vec::new(alloc);
    for node in nodes {
        add_ids(node.quants.as_slice(), &mut ids)?;
    }
    Ok(ids)
}

// The boxes that quantifiers range over.
fn overs_in(alloc: Global, nodes: &[Node]) -> Result<Vec<BoxId>, OutOfMemory>
    ensures { IfOk result (λ overs. overs.items ≡ overs_in nodes.now) }
{
    let mut overs = Vec::new(alloc);
    for node in nodes {
        mark_each(node.quants.as_slice(), &mut overs)?;
    }
    Ok(overs)
}

// Whether each quantifier of a box stands once among these.
fn owned_once(ids: &[QuantId], node: &Node) -> bool
    ensures { result ≡ list_all (λ r. spec.once r.id ids.now) node.now.quants }
{
    node.quants.as_slice().iter().all(|r| once(r.id, ids))
}

// Marks the boxes that F and S quantifiers among these range over.
fn mark_counted(ranges: &[OwnedQuant], marks: &mut Marks) -> Result<(), OutOfMemory>
    ensures { OnOk result (marks.new ≡ marks.old ++ map (λ r. r.over) (filter (λ r. is_F_or_S r.kind) ranges.now)) }
{
    for range in ranges {
        if range.kind.is_f_or_s() {
            marks.push(range.over)?;
        }
    }
    Ok(())
}

// The boxes that F and S quantifiers range over.
fn counted_in(alloc: Global, nodes: &[Node]) -> Result<Marks, OutOfMemory>
    ensures { IfOk result (λ marks. marks ≡ counted_in nodes.now) }
{
    let mut marks = Marks::new(alloc);
    for node in nodes {
        mark_counted(node.quants.as_slice(), &mut marks)?;
    }
    Ok(marks)
}

// What is looked up once for all boxes: types, the quantifiers that boxes own, the boxes that these
// range over, and those that F and S range over.
#[derive(Drop)]
struct Survey {
    types: KnownTypes,
    ids: Vec<QuantId>,
    overs: Vec<BoxId>,
    counted: Marks,
}

fn survey_of(alloc: Global, nodes: &[Node]) -> Result<Survey, OutOfMemory>
    requires { EachOnce (numbers nodes.now) }
    ensures { IfOk result (λ survey. IsSurvey nodes.now survey) }
{
    Ok(Survey {
        types: known_of(alloc, nodes)?,
        ids: ids_in(alloc, nodes)?,
        overs: overs_in(alloc, nodes)?,
        counted: counted_in(alloc, nodes)?,
    })
}

// Whether a PERMIT box isn't the root, nor one of those that F and S quantifiers range over.
#[tactic(auto, using(crate::proofs::Counted::counted_marked))]
fn permit_unseen(root: BoxId, nodes: &[Node], counted: &Marks, node: &Node) -> bool
    requires { counted.now ≡ counted_in nodes.now }
    ensures { result ≡ spec.permit_unseen root nodes.now node.now }
{
    !node.parts.distinct.is_permit() || !(node.id == root || counted.has(node.id))
}

fn all_in_view(
    alloc: Global,
    nodes: &[Node],
    node: &Node,
    names: &[QuantId],
) -> Result<bool, OutOfMemory>
    ensures { IfOk result (λ v. v ≡ list_all (in_view nodes.now node.now) names.now) }
{
    for q in names {
        if !in_view(alloc, nodes, node, *q)? {
            return Ok(false);
        }
    }
    Ok(true)
}

fn names_in_view(
    alloc: Global,
    root: BoxId,
    nodes: &[Node],
    node: &Node,
) -> Result<bool, OutOfMemory>
    ensures { IfOk result (λ k. k ≡ spec.names_in_view root nodes.now node.now) }
{
    let names = names_of(alloc, node)?;
    let seen = all_in_view(alloc, nodes, node, &names)?;
    if node.id != root {
        return Ok(seen);
    }
    let closed = is_closed(alloc, nodes, node.id)?;
    Ok(seen && closed)
}

// Whether a box owns no quantifier and names none.
fn is_apart(alloc: Global, node: &Node) -> Result<bool, OutOfMemory>
    ensures { IfOk result (λ a. a ≡ true → IsApart node.now) }
{
    if !node.quants.as_slice().is_empty() {
        return Ok(false);
    }
    let names = names_of(alloc, node)?;
    Ok(names.is_empty())
}

// Whether nothing is free in a box of these: at once where it owns no quantifier and names none.
#[tactic(auto, using(crate::proofs::Apart::apart_closed))]
fn is_closed_among(alloc: Global, nodes: &[Node], node: &Node) -> Result<bool, OutOfMemory>
    requires once { EachOnce (numbers nodes.now) }
    requires among { In node.now nodes.now }
    ensures { IfOk result (λ c. c ≡ is_empty (free_in nodes.now node.now.id)) }
{
    if is_apart(alloc, node)? {
        return Ok(true);
    }
    is_closed(alloc, nodes, node.id)
}

#[tactic(auto, using(crate::proofs::Disjunctions::or_true, crate::proofs::Disjunctions::or_none))]
fn opened_once(
    alloc: Global,
    root: BoxId,
    nodes: &[Node],
    overs: &[BoxId],
    node: &Node,
) -> Result<bool, OutOfMemory>
    requires overs { overs.now ≡ overs_in nodes.now }
    requires once { EachOnce (numbers nodes.now) }
    requires among { In node.now nodes.now }
    ensures { IfOk result (λ k. k ≡ spec.opened_once root nodes.now node.now) }
{
    if node.id == root {
        return Ok(!is_marked(overs, node.id));
    }
    if once(node.id, overs) {
        return Ok(true);
    }
    is_closed_among(alloc, nodes, node)
}

// Whether a box keeps a clause; `below` are the boxes of lower rank.
fn keeps(
    alloc: Global,
    clause: Clause,
    root: BoxId,
    nodes: &[Node],
    survey: &Survey,
    below: &[Node],
    node: &Node,
) -> Result<bool, OutOfMemory>
    requires survey { IsSurvey nodes.now survey.now }
    requires among { In node.now nodes.now }
    ensures { IfOk result (λ k. k ≡ spec.keeps clause root nodes.now below.now node.now) }
{
    match clause {
        Clause::I1 => ids_known(alloc, nodes, node),
        Clause::I2 => Ok(owned_once(&survey.ids, node)),
        Clause::I3 => Ok(all_over(below, node.quants.as_slice())),
        Clause::I4 => columns_fit(alloc, nodes, node),
        Clause::I5 => Ok(types_agree(&survey.types, node)),
        Clause::I6 => names_in_view(alloc, root, nodes, node),
        Clause::I7 => opened_once(alloc, root, nodes, &survey.overs, node),
        Clause::I8 => Ok(permit_unseen(root, nodes, &survey.counted, node)),
        Clause::I9 => shape_fits(alloc, root, nodes, node),
    }
}

// A fault that stands at no box.
fn at_no_box(clause: Clause, root: BoxId, nodes: &[Node]) -> Option<BoxId>
    ensures { result ≡ spec.least (spec.at_no_box clause root nodes.now) }
{
    match clause {
        Clause::I1 => {
            if has_box(nodes, root) {
                None
            } else {
                Some(usize::MAX)
            }
        }
        Clause::I2
        | Clause::I3
        | Clause::I4
        | Clause::I5
        | Clause::I6
        | Clause::I7
        | Clause::I8
        | Clause::I9 => None,
    }
}

// The lesser of a number and one that may be.
fn least_with(x: usize, other: Option<usize>) -> usize
    ensures { Some result ≡ spec.least_with x other }
{
    match other {
        Some(y) => x.min(y),
        None => x,
    }
}

// The least box at which a clause fails.
fn least_fault(
    alloc: Global,
    clause: Clause,
    root: BoxId,
    nodes: &[Node],
    survey: &Survey,
) -> Result<Option<BoxId>, OutOfMemory>
    requires { IsSurvey nodes.now survey.now }
    ensures { IfOk result (λ b. b ≡ spec.least (spec.faults clause root nodes.now nodes.now)) }
{
    let mut best = at_no_box(clause, root, nodes);
    let mut i = nodes.len();
    while i > 0 {
        let below = &nodes[i..];
        i -= 1;
        if !keeps(alloc, clause, root, nodes, survey, below, &nodes[i])? {
            best = Some(least_with(nodes[i].id, best));
        }
    }
    Ok(best)
}

// The first of the clauses that fails, at the least box.
fn first_fault(
    alloc: Global,
    clauses: &[Clause],
    root: BoxId,
    nodes: &[Node],
    survey: &Survey,
) -> Result<Option<Fault>, OutOfMemory>
    requires { IsSurvey nodes.now survey.now }
    ensures { IfOk result (λ f. f ≡ spec.first_fault clauses.now root nodes.now) }
{
    for clause in clauses {
        if let Some(at) = least_fault(alloc, *clause, root, nodes, survey)? {
            return Ok(Some(Fault {
                clause: *clause,
                at,
            }));
        }
    }
    Ok(None)
}

// The least clause that fails, with the least box at which it does.
fn find_fault(alloc: Global, graph: &Graph) -> Result<Option<Fault>, OutOfMemory>
    ensures { IfOk result (λ f. f ≡ spec.fault graph.now) }
{
    let clauses = [
        Clause::I1,
        Clause::I2,
        Clause::I3,
        Clause::I4,
        Clause::I5,
        Clause::I6,
        Clause::I7,
        Clause::I8,
        Clause::I9,
    ];
    graph.each_number_once();
    let nodes = graph.nodes();
    let survey = survey_of(alloc, nodes)?;
    first_fault(alloc, &clauses, graph.root(), nodes, &survey)
}

/// Whether a graph is well-formed: the least clause that fails, with the least box at which it
/// does (Pirahesh, Hellerstein and Hasan 1992, 2).
pub fn check_graph(alloc: Global, graph: &Graph) -> Result<(), IllFormed>
    ensures ok { IfOk result (λ _. WellFormed graph.now) }
    ensures fails { (f : Fault) → IsErrOf result (Fails f) → IsFault graph.now f }
{
    graph.each_number_once();
    match find_fault(alloc, graph)? {
        Some(fault) => Err(IllFormed::Fails(fault)),
        None => Ok(()),
    }
}
