// The rows of an outer join (SQL-92, 7.5). Right rows are found by the hashes of the cells that equalities
// among its conditions ask for.
ghost use Rattle.std.specs.Prelude.{◌≡◌, [], All, IfOk, IfSome, IsOkAnd};
ghost use Rattle.box_exec.specs.Bound.{env_of};
ghost use Rattle.box_exec.specs.Lookup.{Hashes, Leads, RejectsBy};
ghost use Rattle.box_exec.specs.Outer.{HashedOn, joined_rows, null_row, partner_rows, rejects_on};
ghost use Rattle.box_exec.specs.Sources.{held};
ghost use Rattle.row_bag.specs.Bags.{Alike};
ghost use Rattle.row_bag.specs.Joins.{or_else};

use crate::bindings::Bindings;
use crate::heads::{add_given, head_cells};
use crate::key::{Key, key_in};
use crate::lookup::{Hashed, hashed_by, way_through};
use qgm_core::{Node, QuantId};
use row_bag::{Bag, Operand, Row, any_there, append_kept};
use row_index::{Way, first_of, next_of};
use shared_types::OutOfMemory;
use sql_value::{Cell, Level};
use sqlite_items::Items;
use std::alloc::Global;

/// An outer join: its box, its left and its right quantifier, whether rows are looked up in an index, and
/// the index of the right rows, if it is made already.
#[derive(Clone, Copy)]
pub(crate) struct Join<'a> {
    pub node: &'a Node,
    pub left: QuantId,
    pub right: QuantId,
    pub indexed: bool,
    pub made: Option<&'a Hashed<'a>>,
}

/// Right rows, and their index if there is one.
#[derive(Clone, Copy)]
pub(crate) struct Right<'r, 'h, 'k> {
    pub rows: &'r Bag,
    pub hashed: Option<&'h Hashed<'k>>,
}

// What the equalities among the conditions of an outer join ask of rows of its right quantifier.
fn keys_on<'a>(alloc: Global, node: &'a Node, right: QuantId) -> Result<Vec<Key<'a>>, OutOfMemory>
    ensures { IfOk result (λ made. All (λ k. RejectsBy (rejects_on node.now) right k) made.items) }
{
    let mut made = Vec::new(alloc);
    for c in node.parts.conds.as_slice() {
        if let Some(key) = key_in(alloc, c, right)? {
            made.push(key)?;
        }
    }
    Ok(made)
}

/// The index of right rows by the equalities among the conditions of an outer join. It fails only for want
/// of memory.
pub(crate) fn hashed_right<'a>(
    alloc: Global,
    node: &'a Node,
    right: QuantId,
    ys: &Bag,
) -> Result<Option<Hashed<'a>>, OutOfMemory>
    ensures { IfOk result (λ o. IfSome o (λ h. Hashes (rejects_on node.now) right ys.now h)) }
{
    let keys = keys_on(alloc, node, right)?;
    hashed_by(alloc, keys, right, ys)
}

// The index of the right rows, where several left rows look for theirs.
fn hashed_on<'a>(
    alloc: Global,
    join: &Join<'a>,
    xs: &Bag,
    ys: &Bag,
) -> Result<Option<Hashed<'a>>, OutOfMemory>
    ensures { IfOk result (λ o. IfSome o (λ h. Hashes (rejects_on join.now.node.now) join.now.right ys.now h)) }
{
    if !join.indexed || xs.len() < 2 {
        return Ok(None);
    }
    hashed_right(alloc, join.node, join.right, ys)
}

// The way through the right rows, where the left quantifier is bound.
fn way_of<'h>(
    alloc: Global,
    join: &Join<'_>,
    right: &Right<'_, 'h, '_>,
    outer: &Bindings,
) -> Result<Way<'h>, OutOfMemory>
    requires { HashedOn join.now right.now }
    ensures { IfOk result (λ way. Leads (rejects_on join.now.node.now) join.now.right right.now.rows.now (env_of outer.now) way) }
{
    way_through(alloc, right.hashed, right.rows.len(), outer)
}

// What the box gives of a left row beside the right rows.
fn partners(
    alloc: Global,
    join: &Join<'_>,
    left: &[Cell],
    right: &Right<'_, '_, '_>,
    env: &Bindings,
) -> Result<Bag, OutOfMemory>
    requires { HashedOn join.now right.now }
    ensures { IfOk result (λ made. Alike made (partner_rows join.now.node.now join.now.left join.now.right left.now right.now.rows.now (env_of env.now))) }
{
    let mut made = Bag::new(alloc);
    let outer = Bindings::Row(join.left, left, &*env);
    let rows = right.rows;
    let way = way_of(alloc, join, right, &outer)?;
    let mut c = first_of(&way);
    let mut i = c.place();
    while i < way.end {
        let y = rows.at(i);
        let inner = Bindings::Row(join.right, y.cells, &outer);
        add_given(alloc, join.node, &[], y.level, &inner, &mut made)?;
        c = next_of(&way, c);
        i = c.place();
    }
    Ok(made)
}

// What the box gives of a left row without a partner: beside it each right cell is null.
fn with_nulls(
    alloc: Global,
    join: &Join<'_>,
    left: &[Cell],
    env: &Bindings,
) -> Result<Bag, OutOfMemory>
    ensures { IfOk result (λ made. made ≡ null_row join.now.node.now join.now.left join.now.right left.now (env_of env.now)) }
{
    let outer = Bindings::Row(join.left, left, &*env);
    let inner = Bindings::Row(join.right, &[], &outer);
    let cells = head_cells(alloc, join.node.parts.head.as_slice(), &[], &inner)?;
    let mut made = Bag::new(alloc);
    made.push(Row {
        cells: Items::from_vec(cells),
        level: Level::Yes,
    })?;
    Ok(made)
}

// What the box gives of a left row.
fn joined(
    alloc: Global,
    join: &Join<'_>,
    left: &[Cell],
    right: &Right<'_, '_, '_>,
    env: &Bindings,
) -> Result<Bag, OutOfMemory>
    requires { HashedOn join.now right.now }
    ensures { IfOk result (λ made. Alike made (or_else (partner_rows join.now.node.now join.now.left join.now.right left.now right.now.rows.now (env_of env.now)) (null_row join.now.node.now join.now.left join.now.right left.now (env_of env.now)))) }
{
    let made = partners(alloc, join, left, right, env)?;
    if any_there(&made) {
        return Ok(made);
    }
    with_nulls(alloc, join, left, env)
}

// What the box gives of these left rows: each beside its partners, and where it has none beside nulls.
fn each_joined(
    alloc: Global,
    join: &Join<'_>,
    xs: &Bag,
    right: &Right<'_, '_, '_>,
    env: &Bindings,
) -> Result<Bag, OutOfMemory>
    requires { HashedOn join.now right.now }
    ensures { IfOk result (λ made. Alike made (joined_rows join.now.node.now join.now.left join.now.right xs.now right.now.rows.now (env_of env.now))) }
{
    let mut made = Bag::new(alloc);
    for i in 0..xs.len() {
        let x = xs.at(i);
        let rows = joined(alloc, join, x.cells, right, env)?;
        append_kept(&mut made, x.level, rows)?;
    }
    Ok(made)
}

// What the box gives of left and right rows.
fn all_joined(
    alloc: Global,
    join: &Join<'_>,
    xs: &Bag,
    ys: &Bag,
    env: &Bindings,
) -> Result<Bag, OutOfMemory>
    requires { IfSome join.now.made (λ h. Hashes (rejects_on join.now.node.now) join.now.right ys.now h.now) }
    ensures { IfOk result (λ made. Alike made (joined_rows join.now.node.now join.now.left join.now.right xs.now ys.now (env_of env.now))) }
{
    if let Some(made) = join.made {
        let right = Right {
            rows: &*ys,
            hashed: Some(made),
        };
        return each_joined(alloc, join, xs, &right, env);
    }
    let hashed = hashed_on(alloc, join, xs, ys)?;
    let right = Right {
        rows: &*ys,
        hashed: hashed.as_ref(),
    };
    each_joined(alloc, join, xs, &right, env)
}

/// What the box gives: each left row beside its partners, and where it has none beside nulls. It fails
/// where the rows do, or for want of memory.
pub(crate) fn outer_joined(
    alloc: Global,
    join: &Join<'_>,
    xs: Result<Operand<'_>, OutOfMemory>,
    ys: Result<Operand<'_>, OutOfMemory>,
    env: &Bindings,
) -> Result<Bag, OutOfMemory>
    requires { IfSome join.now.made (λ h. IfOk ys (λ t. Hashes (rejects_on join.now.node.now) join.now.right (held t) h.now)) }
    ensures { IfOk result (λ made. IsOkAnd xs.entry (λ s. IsOkAnd ys.entry (λ t. Alike made (joined_rows join.now.node.now join.now.left join.now.right (held s) (held t) (env_of env.now))))) }
{
    let xs = xs?;
    let ys = ys?;
    all_joined(alloc, join, xs.rows(), ys.rows(), env)
}
