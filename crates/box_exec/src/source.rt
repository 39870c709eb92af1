// Rows of the E, A and S quantifiers of a box.
ghost use Rattle.std.specs.Prelude.{◌≡◌, ◌++◌, ◌∷◌, [], IfOk, IfSome, IsOkAnd, None, OnOk};
ghost use Rattle.box_exec.specs.Bound.{env_of};
ghost use Rattle.box_exec.specs.Idle.{LeadsIdle};
ghost use Rattle.box_exec.specs.Sources.{held, held_by, rows_held};
ghost use Rattle.qgm_terms.specs.Shown.{cond};

use crate::bindings::Bindings;
use crate::indexed_rows::IndexedRows;
use crate::lookup::all_rows;
use qgm_terms::{Gc, QuantId};
use row_bag::{Bag, Operand};
use row_index::Way;
use shared_types::OutOfMemory;
use std::alloc::Global;

/// Rows that are made. It fails where these do.
pub(crate) fn made<'a>(rows: Result<Bag, OutOfMemory>) -> Result<Operand<'a>, OutOfMemory>
    ensures { IfOk result (λ s. IsOkAnd rows (λ bag. held s ≡ bag)) }
{
    Ok(Operand::Made(rows?))
}

/// Rows of an E, A or S quantifier, some of which have an index.
#[derive(Drop)]
pub enum SubRows<'a> {
    Plain(Operand<'a>),
    Indexed(IndexedRows<'a>),
}

impl<'a> SubRows<'a> {
    // The rows.
    fn rows(&self) -> &Bag
        ensures { result.now ≡ rows_held self.now }
    {
        match self {
            SubRows::Plain(source) => source.rows(),
            SubRows::Indexed(indexed) => indexed.rows(),
        }
    }

    // The way through the rows for a condition of some, or else of every.
    fn way(
        &self,
        alloc: Global,
        holds: bool,
        q: QuantId,
        c: &Gc,
        env: &Bindings,
    ) -> Result<Way<'_>, OutOfMemory>
        ensures { IfOk result (λ w. LeadsIdle holds q (cond c.now) (rows_held self.now) (env_of env.now) w) }
    {
        match self {
            SubRows::Plain(source) => Ok(all_rows(source.rows().len())),
            SubRows::Indexed(indexed) => indexed.way(alloc, holds, q, c, env),
        }
    }
}

/// The rows of an E, A or S quantifier.
#[derive(Drop)]
pub struct Sub<'a> {
    pub quant: QuantId,
    pub rows: SubRows<'a>,
}

/// The rows of the first of this number, if it is among them.
pub(crate) fn rows_of<'a>(subs: &'a [Sub], q: QuantId) -> Option<&'a Bag>
    ensures some { IfSome result (λ rows. rows.now ≡ held_by subs.now q) }
    ensures none { result ≡ None → held_by subs.now q ≡ [] }
{
    for sub in subs {
        if sub.quant == q {
            return Some(sub.rows.rows());
        }
    }
    None
}

/// The way through them for a condition of some, or else of every: past such as count for nothing. It
/// fails only for want of memory.
pub(crate) fn way_of<'a>(
    alloc: Global,
    subs: &'a [Sub],
    holds: bool,
    q: QuantId,
    c: &Gc,
    env: &Bindings,
) -> Result<Way<'a>, OutOfMemory>
    ensures { IfOk result (λ w. LeadsIdle holds q (cond c.now) (held_by subs.now q) (env_of env.now) w) }
{
    for sub in subs {
        if sub.quant == q {
            return sub.rows.way(alloc, holds, q, c, env);
        }
    }
    Ok(all_rows(0))
}

/// Rows without an index. It fails where these do.
pub(crate) fn unindexed<'a>(
    rows: Result<Operand<'a>, OutOfMemory>,
) -> Result<SubRows<'a>, OutOfMemory>
    ensures { IfOk result (λ s. IsOkAnd rows.entry (λ t. rows_held s ≡ held t)) }
{
    Ok(SubRows::Plain(rows?))
}

/// Adds the rows of a quantifier. It fails where these do, or for want of memory.
pub(crate) fn push_sub<'a>(
    subs: &mut Vec<Sub<'a>>,
    quant: QuantId,
    rows: Result<SubRows<'a>, OutOfMemory>,
) -> Result<(), OutOfMemory>
    ensures { OnOk result (IsOkAnd rows.entry (λ s. subs.new.items ≡ subs.old.items ++ record { quant = quant; rows = s } ∷ [])) }
{
    let rows = rows?;
    subs.push(Sub { quant, rows })?;
    Ok(())
}
