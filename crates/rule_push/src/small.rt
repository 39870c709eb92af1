// How much a conjunct that goes down may grow.
ghost use Rattle.std.specs.Prelude.{◌≡◌, ◌&&◌, ◌≤◌, if◌then◌else◌, IfOk, Some, None};
ghost use Rattle.qgm_terms.specs.Shown.{cond};
ghost use Rattle.rule_push.specs.Small as spec;

use qgm_core::{Gc, Graph, Head, OwnedQuant, QuantId};
use qgm_term_search::add_columns_of_cond;
use qgm_term_size::{cond_levels, put_levels, put_size};
use qgm_terms::{Column, ROOM, substitute_cond};
use rule_facts::box_at;
use shared_types::OutOfMemory;
use std::alloc::Global;

// How many nodes more a conjunct may have as it arrives.
const MOST_NODES: usize = 1_024;

// How many levels it and the cells that it takes may have together.
const MOST_LEVELS: usize = 4_096;

// Whether p and the cells for these columns of q have few levels.
fn is_shallow(p: &Gc, columns: &[Column], q: QuantId, head: &Head) -> bool
    ensures { result ≡ spec.is_shallow q head.now columns.now (cond p.now) }
{
    let own = cond_levels(p, MOST_LEVELS + 1);
    let cells = put_levels(columns, q, head, MOST_LEVELS + 1);
    own + cells <= MOST_LEVELS
}

// How many nodes more p has with the cells of this head for the columns of q, where they are no more
// than so many and the levels are few.
fn taken_by(
    alloc: Global,
    p: &Gc,
    q: QuantId,
    head: &Head,
    most: usize,
) -> Result<Option<usize>, OutOfMemory>
    requires { most ≤ spec.most_nodes }
    ensures { IfOk result (λ v. v ≡ (if spec.is_small_by most q head.now (cond p.now) then Some (spec.taken q head.now (cond p.now)) else None)) }
{
    let mut columns = Vec::new(alloc);
    add_columns_of_cond(p, &mut columns)?;
    let total = put_size(&columns, q, head, most + 1);
    if total > most || !is_shallow(p, &columns, q, head) {
        return Ok(None);
    }
    Ok(Some(total))
}

/// Whether p grows little by the cells of this head for the columns of q.
pub fn is_small(alloc: Global, p: &Gc, q: QuantId, head: &Head) -> Result<bool, OutOfMemory>
    ensures { IfOk result (λ v. v ≡ spec.is_small q head.now (cond p.now)) }
{
    let total = taken_by(alloc, p, q, head, MOST_NODES)?;
    Ok(total.is_some())
}

// Whether it grows little by the cells of one head for the columns of r, and then of another for those
// of s.
fn is_small_through(
    alloc: Global,
    p: &Gc,
    r: QuantId,
    above: &Head,
    s: QuantId,
    below: &Head,
) -> Result<bool, OutOfMemory>
    ensures { IfOk result (λ v. v ≡ spec.is_small_through r above.now s below.now (cond p.now)) }
{
    let Some(total) = taken_by(alloc, p, r, above, MOST_NODES)? else {
        return Ok(false);
    };
    let next = substitute_cond(alloc, p, r, above, ROOM)?;
    let more = taken_by(alloc, &next, s, below, MOST_NODES - total)?;
    Ok(more.is_some())
}

/// Whether it grows little by the cells of the box under s for the columns of r.
pub fn is_small_into(
    alloc: Global,
    graph: &Graph,
    p: &Gc,
    r: QuantId,
    s: OwnedQuant,
) -> Result<bool, OutOfMemory>
    ensures { IfOk result (λ v. v ≡ spec.is_small_into graph.now (cond p.now) r s) }
{
    graph.each_number_once();
    let Some(n) = box_at(graph.nodes(), s.over) else {
        return Ok(false);
    };
    is_small(alloc, p, r, &n.parts.head)
}

/// Whether it grows little by the cells of this head for the columns of r, and then by those of the box
/// under s for its columns.
pub fn is_small_below(
    alloc: Global,
    graph: &Graph,
    p: &Gc,
    r: QuantId,
    head: &Head,
    s: OwnedQuant,
) -> Result<bool, OutOfMemory>
    ensures { IfOk result (λ v. v ≡ spec.is_small_below graph.now (cond p.now) r head.now s) }
{
    graph.each_number_once();
    let Some(n) = box_at(graph.nodes(), s.over) else {
        return Ok(false);
    };
    is_small_through(alloc, p, r, head, s.id, &n.parts.head)
}
