// Rows of E and A quantifiers, with an index by the hashes of the cells that their conditions compare.
ghost use Rattle.std.specs.Prelude.{◌≡◌, IfOk, IfSome};
ghost use Rattle.box_exec.specs.Bound.{env_of};
ghost use Rattle.box_exec.specs.Idle.{LeadsIdle};
ghost use Rattle.box_exec.specs.Indexed.{IsIdleIndex};
ghost use Rattle.box_exec.specs.Lookup.{Aims};
ghost use Rattle.box_exec.specs.declared.lookup.Aim.TheVariants.{Hash};
ghost use Rattle.qgm_terms.specs.Shown.{cond};

use crate::bindings::Bindings;
use crate::idle_index::IdleIndex;
use crate::key::{Key, is_plain};
use crate::lookup::all_rows;
use crate::simple::simple_operand;
use qgm_core::{Gc, QuantId};
use qgm_term_search::same_cond;
use row_bag::Bag;
use row_index::{Way, feed};
use shared_types::OutOfMemory;
use std::alloc::Global;
use std::hash::{FoldHasher, Hasher};
use std::marker::Model;

/// Rows of an E or A quantifier, and an index of them. Contracts see the rows.
#[derive(Drop)]
pub struct IndexedRows<'a> {
    rows: &'a Bag,
    index: &'a IdleIndex<'a>,
}

impl<'a> Model for IndexedRows<'a> {
    ghost use Rattle.std.specs.Prelude.{List};
    ghost use Rattle.box_exec.specs.Indexed.{IsIdleIndex};
    ghost use Rattle.row_bag.specs.declared.row.Row.{Row};
    ghost use Rattle.sql_value.specs.declared.cell.Cell.{Cell};

    ghost Value = { List (Row (List Cell)) };

    ghost view = { λ f. f.rows.now };

    ghost invariant = { λ f. IsIdleIndex f.rows.now f.index.now };
}

// The hash of the other sides of keys, where each is of columns, constants and operators, and its cell is plain.
#[tactic(auto, unfolding(row_bag::specs::Hashes::hash_of))]
fn hash_at(alloc: Global, keys: &[Key<'_>], env: &Bindings) -> Result<Option<u64>, OutOfMemory>
    ensures { IfOk result (λ o. IfSome o (λ hash. Aims keys.now (env_of env.now) (Hash hash))) }
{
    let mut hasher = FoldHasher::default();
    for key in keys {
        let Some(other) = simple_operand(alloc, key.other, env)? else {
            return Ok(None);
        };
        let cell = other.cell();
        if !is_plain(key.by, cell) {
            return Ok(None);
        }
        feed(cell, &mut hasher);
    }
    Ok(Some(hasher.finish()))
}

impl<'a> IndexedRows<'a> {
    /// Rows, and their index.
    pub(crate) fn new(rows: &'a Bag, index: &'a IdleIndex<'a>) -> IndexedRows<'a>
        requires { IsIdleIndex rows.now index.now }
        ensures { result ≡ rows.now }
    {
        IndexedRows { rows, index }
    }

    /// The rows.
    pub(crate) fn rows(&self) -> &'a Bag
        ensures { result.now ≡ self.now }
    {
        self.rows
    }

    /// The way through the rows for a condition of some, or else of every: past such as count for nothing.
    /// It fails only for want of memory.
    pub(crate) fn way(
        &self,
        alloc: Global,
        holds: bool,
        q: QuantId,
        c: &Gc,
        env: &Bindings,
    ) -> Result<Way<'_>, OutOfMemory>
        ensures { IfOk result (λ w. LeadsIdle holds q (cond c.now) self.now (env_of env.now) w) }
    {
        let end = self.rows.len();
        let index = self.index;
        if index.quant != q || index.holds != holds || !same_cond(alloc, index.condition, c)? {
            return Ok(all_rows(end));
        }
        match hash_at(alloc, &index.hashed.keys, env)? {
            Some(hash) => Ok(Way {
                end,
                index: Some(&index.hashed.index),
                hash: Some(hash),
            }),
            None => Ok(all_rows(end)),
        }
    }
}
