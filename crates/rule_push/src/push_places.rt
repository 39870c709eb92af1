// Through which quantifier a conjunct may go down.
ghost use Rattle.std.specs.Prelude.{◌≡◌, ◌==◌, IfOk, IfSome, None, option_map};
ghost use Rattle.list_laws.specs.Lists.{first, times};
ghost use Rattle.qgm_core.specs.Boxes.{overs_in};
ghost use Rattle.qgm_terms.specs.Shown.{cond};
ghost use Rattle.qgm_terms.specs.Wanted.{reads_cond};
ghost use Rattle.rule_push.specs.OneRead as one;
ghost use Rattle.rule_push.specs.PushPlaces as spec;

use qgm_core::{BoxId, Counts, Gc, Graph, Node, OwnedQuant, QuantId, uses_of};
use qgm_term_search::stands_in_cond;
use qgm_terms::{Sought, add_names_of_cond};
use rule_facts::box_at;
use shared_types::OutOfMemory;
use std::alloc::Global;

// The first F quantifier of these of which p reads a column.
pub fn read_quant(ranges: &[OwnedQuant], p: &Gc) -> Option<OwnedQuant>
    ensures { result ≡ first (spec.is_read (cond p.now)) ranges.now }
{
    for r in ranges {
        if r.kind.is_f() && stands_in_cond(p, Sought::Row(r.id)) {
            return Some(*r);
        }
    }
    None
}

// Whether p reads a column of one of these quantifiers that isn't q.
fn reads_other(q: QuantId, p: &Gc, names: &[QuantId]) -> bool
    ensures { result ≡ spec.reads_other q (cond p.now) names.now }
{
    for x in names {
        if *x != q && stands_in_cond(p, Sought::Row(*x)) {
            return true;
        }
    }
    false
}

// The first of these quantifiers of which p reads a column.
fn first_read(p: &Gc, names: &[QuantId]) -> Option<QuantId>
    ensures { result ≡ first (λ q. reads_cond q (cond p.now)) names.now }
{
    for x in names {
        if stands_in_cond(p, Sought::Row(*x)) {
            return Some(*x);
        }
    }
    None
}

// The one of these quantifiers of which p reads a column.
fn lone_read(p: &Gc, names: &[QuantId]) -> Option<QuantId>
    ensures { result ≡ one.lone_read (cond p.now) names.now }
{
    let q = first_read(p, names)?;
    if reads_other(q, p, names) {
        return None;
    }
    Some(q)
}

// The F quantifier of a number among these.
fn row_quant(ranges: &[OwnedQuant], q: QuantId) -> Option<OwnedQuant>
    ensures { result ≡ one.row_quant q ranges.now }
{
    for r in ranges {
        if r.kind.is_f() && r.id == q {
            return Some(*r);
        }
    }
    None
}

// The F quantifier among these that p, if it is node-free, reads alone. Quantifiers are looked for by
// what p names: of many few are named.
fn one_of(alloc: Global, ranges: &[OwnedQuant], p: &Gc) -> Result<Option<OwnedQuant>, OutOfMemory>
    ensures { IfOk result (λ r. r ≡ one.one_of (cond p.now) ranges.now) }
{
    let mut names = Vec::new(alloc);
    add_names_of_cond(p, &mut names)?;
    let Some(q) = lone_read(p, &names) else {
        return Ok(None);
    };
    if stands_in_cond(p, Sought::Node) {
        return Ok(None);
    }
    Ok(row_quant(ranges, q))
}

/// The quantifier that p, a node-free conjunct of b, reads alone, if b is a plain select. Where one
/// quantifier ranges over the box under it, p may go down through it.
pub fn one_read(alloc: Global, b: &Node, p: &Gc) -> Result<Option<OwnedQuant>, OutOfMemory>
    ensures { IfOk result (λ r. r ≡ one.one_read b.now (cond p.now)) }
{
    if !b.parts.kind.is_select() || !b.parts.role.is_plain() {
        return Ok(None);
    }
    one_of(alloc, b.quants.as_slice(), p)
}

// Counts the uses of boxes where they aren't counted yet.
fn counted(alloc: Global, graph: &Graph, uses: &mut Option<Counts>) -> Result<Counts, OutOfMemory>
    requires { IfSome uses.old (λ c. c ≡ overs_in graph.now.boxes) }
    ensures all { IfOk result (λ c. c ≡ overs_in graph.now.boxes) }
    ensures taken { uses.new ≡ None }
{
    match uses.take() {
        Some(counts) => Ok(counts),
        None => uses_of(alloc, graph.nodes()),
    }
}

/// Whether one quantifier ranges over a box. How many do so over each is counted when it is first asked.
pub fn is_used_once(
    alloc: Global,
    graph: &Graph,
    uses: &mut Option<Counts>,
    b: BoxId,
) -> Result<bool, OutOfMemory>
    requires uses { IfSome uses.old (λ c. c ≡ overs_in graph.now.boxes) }
    ensures once { IfOk result (λ v. v ≡ (times b (overs_in graph.now.boxes) == 1)) }
    ensures uses { IfSome uses.new (λ c. c ≡ overs_in graph.now.boxes) }
{
    let counts = counted(alloc, graph, uses)?;
    let once = counts.count(b) == 1;
    *uses = Some(counts);
    Ok(once)
}

/// Whether a quantifier ranges over a plain select, and no other quantifier does.
pub fn is_input(graph: &Graph, s: OwnedQuant) -> bool
    ensures { result ≡ spec.is_input graph.now s }
{
    graph.each_number_once();
    match box_at(graph.nodes(), s.over) {
        Some(n) => {
            n.parts.kind.is_select() && n.parts.role.is_plain() && graph.uses(s.over) == 1
        }
        None => false,
    }
}
