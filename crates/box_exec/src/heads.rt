// What a box gives where its quantifiers are bound.
ghost use Rattle.std.specs.Prelude.{◌≡◌, ◌++◌, IfOk, IsOkAnd, OnOk};
ghost use Rattle.box_exec.specs.Bound.{env_of};
ghost use Rattle.box_exec.specs.Sources.{held_by};
ghost use Rattle.qgm_core.specs.Kinds.{is_enforce};
ghost use Rattle.qgm_meaning.specs.Meaning as m;
ghost use Rattle.qgm_meaning.specs.Values as v;
ghost use Rattle.qgm_terms.specs.Shown.{conds, terms};
ghost use Rattle.row_bag.specs.Bags.{Alike, keep};
ghost use Rattle.sql_value.specs.Level.{least};

use crate::bindings::Bindings;
use crate::evaluation::{hold, value};
use crate::source::Sub;
use qgm_core::{Distinct, Gc, Gx, Node};
use row_bag::{Bag, Row, distinct};
use shared_types::OutOfMemory;
use sql_value::{Cell, Level, keep};
use sqlite_items::Items;
use std::alloc::Global;

// The lower one of a level and of how far all conditions are true.
fn filtered(
    alloc: Global,
    list: &[Gc],
    subs: &[Sub<'_>],
    level: Level,
    env: &Bindings,
) -> Result<Level, OutOfMemory>
    ensures { IfOk result (λ l. l ≡ least level (v.all_true (held_by subs.now) (conds list.now) (env_of env.now)).t) }
{
    let mut level = level;
    for p in list {
        if level == Level::No {
            return Ok(Level::No);
        }
        level = keep(level, hold(alloc, p, subs, env)?);
    }
    Ok(level)
}

/// Adds the cells of a head at the end. It fails only for want of memory.
pub(crate) fn append_head(
    alloc: Global,
    list: &[Gx],
    subs: &[Sub<'_>],
    env: &Bindings,
    out: &mut Vec<Cell>,
) -> Result<(), OutOfMemory>
    ensures { OnOk result (out.new.items ≡ out.old.items ++ v.head_cells (held_by subs.now) (terms list.now) (env_of env.now)) }
{
    for x in list {
        out.push(value(alloc, x, subs, env)?)?;
    }
    Ok(())
}

/// The cells of a head. It fails only for want of memory.
pub(crate) fn head_cells(
    alloc: Global,
    list: &[Gx],
    subs: &[Sub<'_>],
    env: &Bindings,
) -> Result<Vec<Cell>, OutOfMemory>
    ensures { IfOk result (λ cells. cells.items ≡ v.head_cells (held_by subs.now) (terms list.now) (env_of env.now)) }
{
    let mut cells = Vec::with_capacity(alloc, list.len())?;
    append_head(alloc, list, subs, env, &mut cells)?;
    Ok(cells)
}

/// Adds the head of a box at the lower one of this level and that of its conditions, if it is there.
#[inline(never)]
pub(crate) fn add_given(
    alloc: Global,
    node: &Node,
    subs: &[Sub<'_>],
    level: Level,
    env: &Bindings,
    out: &mut Bag,
) -> Result<(), OutOfMemory>
    ensures { OnOk result (Alike out.new (out.old ++ keep level (m.given (held_by subs.now) node.now (env_of env.now)))) }
{
    let level = filtered(alloc, node.parts.conds.as_slice(), subs, level, env)?;
    if level == Level::No {
        return Ok(());
    }
    let cells = head_cells(alloc, node.parts.head.as_slice(), subs, env)?;
    out.push(Row {
        cells: Items::from_vec(cells),
        level,
    })
}

// Each row once, where this is asked for.
fn once_if(each: Distinct, rows: Bag) -> Result<Bag, OutOfMemory>
    ensures { IfOk result (λ bag. Alike bag (m.once_if (is_enforce each) rows)) }
{
    match each {
        Distinct::Enforce => distinct(rows),
        Distinct::Preserve | Distinct::Permit => Ok(rows),
    }
}

/// Each of the added rows once, where this is asked for. It fails where adding them did, or for want of
/// memory.
pub(crate) fn once_added(
    each: Distinct,
    added: Result<(), OutOfMemory>,
    rows: Bag,
) -> Result<Bag, OutOfMemory>
    ensures { IfOk result (λ bag. IsOkAnd added (λ _. Alike bag (m.once_if (is_enforce each) rows))) }
{
    added?;
    once_if(each, rows)
}
