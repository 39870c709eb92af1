// Whether a select may be merged into the select above it.
ghost use Rattle.std.specs.Prelude.{◌≡◌, ◌≤◌, ◌+◌, ◌-◌, IfOk, IfSome, Some, nat_le, slice_get};
ghost use Rattle.std.specs.List.{list_any};
ghost use Rattle.std.specs.Prelude.{◌&&◌, ◌==◌, not, false, true};
ghost use Rattle.qgm_wellformed.specs.Sentences.{WellFormed};
ghost use Rattle.qgm_wellformed.specs.Shapes.{all_F};
ghost use Rattle.qgm_core.specs.Boxes.{box_of, is_box, numbers, owns};
ghost use Rattle.qgm_core.specs.Kinds as kinds;
ghost use Rattle.list_laws.specs.Lists.{EachOnce, first};
ghost use Rattle.qgm_edit_laws.specs.Graph.{reads_in};
ghost use Rattle.qgm_term_size.specs.Levels.{deepest};
ghost use Rattle.qgm_terms.specs.Depth.{room};
ghost use Rattle.rule_merge.specs.MergeSelectCopies.{copied, levels_of, most_copied, names_in, places_of};
ghost use Rattle.rule_merge.specs.MergeSelectLookups.{AreOfGraph};
ghost use Rattle.rule_merge.specs.MergeSelect as spec;

use crate::merge_select::action::merged;
use crate::merge_select::copies::{few_copied, levels_fit};
use crate::merge_select::foreign::any_named;
use crate::merge_select::lookups::{FEW, Lookups};
use crate::merge_select::names::{Names, names_in};
use qgm_core::{BoxId, Graph, Head, Node, OwnedQuant, QuantId, has_range, node_at};
use qgm_props::props;
use qgm_term_search::{is_node_free, stands_in_cells, stands_in_conds};
use qgm_terms::{Sought, both};
use rule_facts::{any_fed_closed, box_at};
use shared_types::OutOfMemory;
use std::alloc::Global;

fn are_f(ranges: &[OwnedQuant]) -> bool
    ensures { result ≡ all_F ranges.now }
{
    ranges.iter().all(|r| r.kind.is_f())
}

fn any_f(ranges: &[OwnedQuant]) -> bool
    ensures { result ≡ list_any (λ r. kinds.is_F r.kind) ranges.now }
{
    ranges.iter().any(|r| r.kind.is_f())
}

// Whether c, under b, is of a kind and role that may be merged.
fn parts_fit(b: &Node, c: &Node) -> bool
    ensures { result ≡ spec.parts_fit b.now c.now }
{
    c.parts.kind.is_select()
        && c.parts.role.is_plain()
        && (!b.parts.role.is_magic() || are_f(c.quants.as_slice()))
}

// Whether q is another quantifier of c than s.
fn is_other(c: &Node, s: QuantId, q: QuantId) -> bool
    ensures { result ≡ (owns q c.now && not (q == s)) }
{
    has_range(c.quants.as_slice(), q) && q != s
}

// Whether one of these is another quantifier of c than s.
fn has_other(c: &Node, s: QuantId, free: &[QuantId]) -> bool
    ensures { result ≡ list_any (λ q. owns q c.now && not (q == s)) free.now }
{
    free.iter().any(|q| is_other(c, s, *q))
}

// Whether a quantifier ranges over a base.
fn over_base(lookups: &Lookups<'_>, s: OwnedQuant) -> bool
    requires { AreOfGraph lookups.now }
    ensures { result ≡ spec.over_base lookups.now.graph.now s }
{
    match node_at(lookups.graph.nodes(), &lookups.places, s.over) {
        Some(node) => node.parts.kind.is_base(),
        None => false,
    }
}

// Whether another quantifier of c than s, an F of c, is named in the box under s or below it. In a
// base none is named.
fn is_lateral(
    alloc: Global,
    lookups: &Lookups<'_>,
    c: &Node,
    s: OwnedQuant,
) -> Result<bool, OutOfMemory>
    requires formed { WellFormed lookups.now.graph.now }
    requires lookups { AreOfGraph lookups.now }
    ensures { IfOk result (λ lateral. lateral ≡ spec.is_lateral lookups.now.graph.now c.now s) }
{
    lookups.graph.each_number_once();
    if !s.kind.is_f() || over_base(lookups, s) {
        return Ok(false);
    }
    if let Some(free) = lookups.graph.kept_free(s.over) {
        return Ok(has_other(c, s.id, free));
    }
    let free = lookups.graph.free(alloc, s.over)?;
    Ok(has_other(c, s.id, free.as_slice()))
}

// Whether it is known that no box names a quantifier of c but its owner. Then none is lateral.
fn is_unnamed(lookups: &Lookups<'_>, c: &Node) -> bool
    requires formed { WellFormed lookups.now.graph.now }
    requires lookups { AreOfGraph lookups.now }
    ensures { result ≡ true → spec.has_lateral lookups.now.graph.now c.now ≡ false }
{
    lookups.graph.each_number_once();
    match &lookups.foreign {
        Some(names) => !any_named(names, c.quants.as_slice()),
        None => false,
    }
}

// Whether a quantifier of c is lateral, which one alone never is.
fn has_lateral(alloc: Global, lookups: &Lookups<'_>, c: &Node) -> Result<bool, OutOfMemory>
    requires formed { WellFormed lookups.now.graph.now }
    requires lookups { AreOfGraph lookups.now }
    ensures { IfOk result (λ lateral. lateral ≡ spec.has_lateral lookups.now.graph.now c.now) }
{
    if c.quants.as_slice().len() <= 1 || is_unnamed(lookups, c) {
        return Ok(false);
    }
    for s in c.quants.as_slice() {
        if is_lateral(alloc, lookups, c, *s)? {
            return Ok(true);
        }
    }
    Ok(false)
}

// Whether a box reads column k of q.
fn reads(node: &Node, q: QuantId, k: usize) -> bool
    ensures { result ≡ reads_in q k node.now }
{
    stands_in_cells(node.parts.head.as_slice(), Sought::Cell(q, k))
        || stands_in_conds(node.parts.conds.as_slice(), Sought::Cell(q, k))
}

// Whether another box than b reads it.
fn read_elsewhere(nodes: &[Node], b: BoxId, q: QuantId, k: usize) -> bool
    ensures { result ≡ spec.read_elsewhere b q k nodes.now }
{
    nodes.iter().any(|y| y.id != b && reads(y, q, k))
}

// Whether the cells that stand for columns of q which other boxes than b read are node-free.
fn cells_free(nodes: &[Node], b: BoxId, q: QuantId, head: &Head) -> bool
    ensures { result ≡ spec.cells_free b q nodes.now 1 head.now }
{
    for k in 0..head.len() {
        if !is_node_free(head.at(k + 1)) && read_elsewhere(nodes, b, q, k + 1) {
            return false;
        }
    }
    true
}

// Whether c has one use, and cells that may stand in other boxes than b.
fn cells_stand(lookups: &Lookups<'_>, b: &Node, r: OwnedQuant, c: &Node) -> bool
    requires { AreOfGraph lookups.now }
    ensures { result ≡ spec.cells_stand lookups.now.graph.now b.now r c.now }
{
    parts_fit(b, c)
        && lookups.counts.count(c.id) == 1
        && cells_free(lookups.graph.nodes(), b.id, r.id, &c.parts.head)
}

// Whether it is inferred that no row of b or of c is at an error level. No fact but a key hangs on
// DISTINCT, so c is clean as PRESERVE where it is clean as it is.
fn are_clean(alloc: Global, graph: &Graph, b: &Node, c: &Node) -> Result<bool, OutOfMemory>
    ensures { IfOk result (λ clean. clean ≡ spec.are_clean graph.now b.now c.now) }
{
    let known = props(alloc, graph)?;
    Ok(both(known.clean(b.id), known.clean(c.id)))
}

// Whether c, under b, has no DISTINCT, or one that may go.
fn distinct_fits(alloc: Global, graph: &Graph, b: &Node, c: &Node) -> Result<bool, OutOfMemory>
    ensures { IfOk result (λ fits. fits ≡ spec.distinct_fits graph.now b.now c.now) }
{
    if c.parts.distinct.is_preserve() || b.parts.distinct.is_enforce() {
        return Ok(true);
    }
    if !b.parts.distinct.is_permit() {
        return Ok(false);
    }
    are_clean(alloc, graph, b, c)
}

// Whether c may be merged into b under r, but for its DISTINCT and for what that leaves of fed boxes.
fn may_stand(
    alloc: Global,
    lookups: &Lookups<'_>,
    b: &Node,
    r: OwnedQuant,
    c: &Node,
) -> Result<bool, OutOfMemory>
    requires formed { WellFormed lookups.now.graph.now }
    requires lookups { AreOfGraph lookups.now }
    ensures { IfOk result (λ may. may ≡ spec.may_stand lookups.now.graph.now b.now r c.now) }
{
    if !cells_stand(lookups, b, r, c) {
        return Ok(false);
    }
    let lateral = has_lateral(alloc, lookups, c)?;
    Ok(!lateral)
}

// Whether c may be merged into b under r, but for what is copied. Where no box is fed, none will be, so
// that the graph after it isn't made.
fn may_go_in(
    alloc: Global,
    lookups: &Lookups<'_>,
    b: &Node,
    place: usize,
    r: OwnedQuant,
    c: &Node,
) -> Result<bool, OutOfMemory>
    requires formed { WellFormed lookups.now.graph.now }
    requires lookups { AreOfGraph lookups.now }
    requires at { box_of b.now.id lookups.now.graph.now ≡ Some b.now }
    requires select { kinds.is_select b.now.parts.kind ≡ true }
    requires from_one { 1 ≤ place }
    requires nth { slice_get b.now.quants (place - 1) ≡ Some r }
    requires under { box_of r.over lookups.now.graph.now ≡ Some c.now }
    ensures { IfOk result (λ may. may ≡ spec.may_go_in lookups.now.graph.now b.now r c.now) }
{
    let graph = lookups.graph;
    if !may_stand(alloc, lookups, b, r, c)? || !distinct_fits(alloc, graph, b, c)? {
        return Ok(false);
    }
    if !lookups.is_any_fed {
        return Ok(true);
    }
    let after = merged(alloc, graph, b, place, r, c)?;
    let closed = any_fed_closed(alloc, &after)?;
    Ok(!closed)
}

// Whether little is copied where these are the names.
fn is_little(names: &Names, r: OwnedQuant, c: &Node) -> bool
    ensures { result ≡ (nat_le (copied (places_of r.id names.now) 1 c.now.parts.head) most_copied && nat_le (levels_of r.id names.now + deepest c.now.parts.head) room) }
{
    few_copied(names, r.id, &c.parts.head) && levels_fit(names, r.id, &c.parts.head)
}

// Whether little is copied where c's cells stand for the columns of r. The names of the graph are
// listed where they aren't yet.
fn copies_little(
    alloc: Global,
    graph: &Graph,
    names: &mut Option<Names>,
    r: OwnedQuant,
    c: &Node,
) -> Result<bool, OutOfMemory>
    requires names { IfSome names.old (λ t. t ≡ names_in graph.now.boxes) }
    ensures little { IfOk result (λ little. little ≡ spec.copies_little graph.now r c.now) }
    ensures names { IfSome names.new (λ t. t ≡ names_in graph.now.boxes) }
{
    let known = match names.take() {
        Some(known) => known,
        None => names_in(alloc, graph.nodes())?,
    };
    let little = is_little(&known, r, c);
    *names = Some(known);
    Ok(little)
}

// Whether c may be merged into b under r.
fn may_with(
    alloc: Global,
    lookups: &Lookups<'_>,
    names: &mut Option<Names>,
    b: &Node,
    place: usize,
    r: OwnedQuant,
    c: &Node,
) -> Result<bool, OutOfMemory>
    requires formed { WellFormed lookups.now.graph.now }
    requires lookups { AreOfGraph lookups.now }
    requires names { IfSome names.old (λ t. t ≡ names_in lookups.now.graph.now.boxes) }
    requires at { box_of b.now.id lookups.now.graph.now ≡ Some b.now }
    requires select { kinds.is_select b.now.parts.kind ≡ true }
    requires from_one { 1 ≤ place }
    requires nth { slice_get b.now.quants (place - 1) ≡ Some r }
    requires under { box_of r.over lookups.now.graph.now ≡ Some c.now }
    ensures may { IfOk result (λ may. may ≡ spec.may_with lookups.now.graph.now b.now r c.now) }
    ensures names { IfSome names.new (λ t. t ≡ names_in lookups.now.graph.now.boxes) }
{
    if !may_go_in(alloc, lookups, b, place, r, c)? {
        return Ok(false);
    }
    copies_little(alloc, lookups.graph, names, r, c)
}

// Whether the box under r may be merged into b.
fn may_over(
    alloc: Global,
    lookups: &Lookups<'_>,
    names: &mut Option<Names>,
    b: &Node,
    place: usize,
    r: OwnedQuant,
) -> Result<bool, OutOfMemory>
    requires formed { WellFormed lookups.now.graph.now }
    requires lookups { AreOfGraph lookups.now }
    requires names { IfSome names.old (λ t. t ≡ names_in lookups.now.graph.now.boxes) }
    requires at { box_of b.now.id lookups.now.graph.now ≡ Some b.now }
    requires select { kinds.is_select b.now.parts.kind ≡ true }
    requires from_one { 1 ≤ place }
    requires nth { slice_get b.now.quants (place - 1) ≡ Some r }
    ensures may { IfOk result (λ may. may ≡ spec.may_over lookups.now.graph.now b.now r (box_of r.over lookups.now.graph.now)) }
    ensures names { IfSome names.new (λ t. t ≡ names_in lookups.now.graph.now.boxes) }
{
    let Some(c) = node_at(lookups.graph.nodes(), &lookups.places, r.over) else {
        return Ok(false);
    };
    may_with(alloc, lookups, names, b, place, r, c)
}

/// Whether M1 has a place at quantifier r of b, which stands at this place from 1.
pub fn may_at(
    alloc: Global,
    lookups: &Lookups<'_>,
    names: &mut Option<Names>,
    b: &Node,
    place: usize,
    r: OwnedQuant,
) -> Result<bool, OutOfMemory>
    requires formed { WellFormed lookups.now.graph.now }
    requires lookups { AreOfGraph lookups.now }
    requires names { IfSome names.old (λ t. t ≡ names_in lookups.now.graph.now.boxes) }
    requires at { box_of b.now.id lookups.now.graph.now ≡ Some b.now }
    requires from_one { 1 ≤ place }
    requires nth { slice_get b.now.quants (place - 1) ≡ Some r }
    ensures may { IfOk result (λ may. may ≡ spec.may_at lookups.now.graph.now b.now r) }
    ensures names { IfSome names.new (λ t. t ≡ names_in lookups.now.graph.now.boxes) }
{
    if !b.parts.kind.is_select() || b.parts.role.is_fed() || !r.kind.is_f() {
        return Ok(false);
    }
    may_over(alloc, lookups, names, b, place, r)
}

/// Whether b is a select that isn't fed and has an F. Else M1 has no place there.
pub fn may_have(b: &Node) -> bool
    ensures { result ≡ spec.may_have b.now }
{
    b.parts.kind.is_select() && !b.parts.role.is_fed() && any_f(b.quants.as_slice())
}

// Whether a quantifier ranges over a plain select.
fn over_select(nodes: &[Node], r: OwnedQuant) -> bool
    requires { EachOnce (numbers nodes.now) }
    ensures { result ≡ spec.is_plain_select (first (is_box r.over) nodes.now) }
{
    match box_at(nodes, r.over) {
        Some(node) => node.parts.kind.is_select() && node.parts.role.is_plain(),
        None => false,
    }
}

// Whether one of these ranges over a plain select.
fn any_under(nodes: &[Node], ranges: &[OwnedQuant]) -> bool
    requires { EachOnce (numbers nodes.now) }
    ensures { result ≡ spec.any_under ranges.now nodes.now }
{
    for r in ranges {
        if over_select(nodes, *r) {
            return true;
        }
    }
    false
}

/// Whether one of these may range over a plain select. Where they are few, that is seen without
/// lookups.
pub fn may_fit(nodes: &[Node], ranges: &[OwnedQuant]) -> bool
    requires { EachOnce (numbers nodes.now) }
    ensures { result ≡ false → spec.any_under ranges.now nodes.now ≡ false }
{
    ranges.len() > FEW || any_under(nodes, ranges)
}
