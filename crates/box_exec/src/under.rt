// What stands under the quantifiers of a box.
ghost use Rattle.std.specs.Prelude.{◌≡◌, ◌+◌, ◌<◌, All, None, false, IfOk, IfSome, drop, length, map, position, slice_get};
ghost use Rattle.box_exec.specs.Costs.{is_held};
ghost use Rattle.box_exec.specs.Lasting.{rows_kept, rows_stored};
ghost use Rattle.box_exec.specs.Ready.{Held, Ready, Stands};
ghost use Rattle.box_exec.specs.Sought.{OpensAs};
ghost use Rattle.qgm_core.specs.Boxes.{is_box};
ghost use Rattle.qgm_meaning.specs.Meaning.{rows_or_none};
ghost use Rattle.row_bag.specs.Tables.{bag_named};

use crate::plan::Plan;
use qgm_core::{BoxId, Node, OwnedQuant};
use row_bag::{Bag, Operand, Tables};
use shared_types::{OutOfMemory, Text};
use std::alloc::Global;

/// What all evaluations read. The entry at i of the memo is of the box with i boxes behind it, and so is the
/// plan at i. Rows are looked up in indexes or not.
#[derive(Clone, Copy)]
pub(crate) struct Run<'a> {
    pub alloc: Global,
    pub tables: &'a Tables,
    pub memo: &'a [Option<Operand<'a>>],
    pub plans: &'a [Option<Plan<'a>>],
    pub indexed: bool,
}

/// A box, those behind it, the plans of these, and whether rows are looked up in indexes.
#[derive(Clone, Copy)]
pub(crate) struct BoxOver<'a> {
    pub node: &'a Node,
    pub below: &'a [Node],
    pub plans: &'a [Option<Plan<'a>>],
    pub indexed: bool,
}

/// What stands under a quantifier: rows that are kept, a box with those behind it, which is evaluated
/// anew wherever it is asked, or no box.
#[derive(Clone, Copy)]
pub(crate) enum Under<'a> {
    Kept(&'a Bag),
    Open(&'a Node, &'a [Node]),
    Nothing,
}

/// A quantifier of a box, and what stands under it.
#[derive(Clone, Copy)]
pub(crate) struct Loop<'a> {
    pub range: OwnedQuant,
    pub under: Under<'a>,
}

/// Where the first box of this number stands.
pub(crate) fn place_of(nodes: &[Node], b: BoxId) -> Option<usize>
    ensures { result ≡ position (is_box b) nodes.now }
{
    nodes.iter().position(|n| n.id == b)
}

/// The boxes behind the one at this place.
pub(crate) fn behind(nodes: &[Node], i: usize) -> &[Node]
    requires { i < length nodes.now }
    ensures { result.now ≡ drop (i + 1) nodes.now }
{
    &nodes[i + 1..]
}

/// The rows of a table, none where there is none of this name.
pub(crate) fn table_rows<'a>(tables: &'a Tables, name: &Text) -> &'a Bag
    ensures { result.now ≡ rows_or_none (bag_named tables.now name.now) }
{
    match tables.find(name) {
        Some(bag) => bag,
        None => tables.none(),
    }
}

/// The rows of a box with so many boxes behind it, if they are kept.
pub(crate) fn kept<'a>(memo: &'a [Option<Operand<'_>>], i: usize) -> Option<&'a Bag>
    ensures some { IfSome result (λ rows. Held (slice_get memo.now i) rows.now) }
    ensures none { result ≡ None → is_held (slice_get memo.now i) ≡ false }
{
    match memo.get(i) {
        Some(Some(source)) => Some(source.rows()),
        Some(None) | None => None,
    }
}

// What stands under a quantifier that ranges over this box.
fn find_under<'a>(run: &'a Run<'a>, below: &'a [Node], b: BoxId) -> Under<'a>
    requires { Ready run.now.tables.now run.now.memo.now below.now }
    ensures stands { Stands run.now.tables.now run.now.memo.now below.now b result }
    ensures kept { rows_kept result ≡ rows_stored run.now.memo.now below.now b }
    ensures opens { OpensAs run.now.memo.now below.now b result }
{
    let Some(i) = place_of(below, b) else {
        return Under::Nothing;
    };
    let behind = behind(below, i);
    match kept(run.memo, behind.len()) {
        Some(rows) => Under::Kept(rows),
        None => Under::Open(&below[i], behind),
    }
}

/// The quantifiers, with what stands under each. It fails only for want of memory.
pub(crate) fn loops<'a>(
    run: &'a Run<'a>,
    ranges: &[OwnedQuant],
    below: &'a [Node],
) -> Result<Vec<Loop<'a>>, OutOfMemory>
    requires { Ready run.now.tables.now run.now.memo.now below.now }
    ensures ranges { IfOk result (λ made. map (λ l. l.range) made.items ≡ ranges.now) }
    ensures stand { IfOk result (λ made. All (λ l. Stands run.now.tables.now run.now.memo.now below.now l.range.over l.under) made.items) }
    ensures kept { IfOk result (λ made. All (λ l. rows_kept l.under ≡ rows_stored run.now.memo.now below.now l.range.over) made.items) }
    ensures opens { IfOk result (λ made. All (λ l. OpensAs run.now.memo.now below.now l.range.over l.under) made.items) }
{
    let mut made = Vec::with_capacity(run.alloc, ranges.len())?;
    for range in ranges {
        made.push(Loop {
            range: *range,
            under: find_under(run, below, range.over),
        })?;
    }
    Ok(made)
}

/// The rows that are kept under a quantifier; none of a box that is evaluated anew.
pub(crate) fn kept_rows<'a>(tables: &'a Tables, l: &Loop<'a>) -> &'a Bag
    ensures { result.now ≡ rows_kept l.now.under }
{
    match l.under {
        Under::Kept(rows) => rows,
        Under::Open(_, _) | Under::Nothing => tables.none(),
    }
}
