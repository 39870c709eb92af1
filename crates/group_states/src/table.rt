// Groups, found by their keys.
ghost use Rattle.std.specs.Prelude.{◌≡◌, ℕ, ◌++◌, ◌∷◌, [], IfOk, List, map};
ghost use Rattle.group_states.specs.declared.fold.Fold.{Fold};
ghost use Rattle.row_bag.specs.Bags.{Alike};
ghost use Rattle.row_bag.specs.Hashes.{hashes_of};
ghost use Rattle.row_bag.specs.declared.row.Row.{Row};
ghost use Rattle.sql_value.specs.declared.cell.Cell.{Cell};

use crate::fold::Fold;
use crate::index::GrowingIndex;
use crate::keyed::{KeyedStates, enter, group_rows};
use row_bag::{Bag, Row, is_there};
use shared_types::OutOfMemory;
use std::alloc::Global;

/// Groups of rows of which so many first cells are the key, and the others an argument for each
/// further cell of a group. It keeps no rows.
#[derive(Drop)]
pub struct GroupTable {
    keys: usize,
    folds: Vec<Fold>,
    index: GrowingIndex,
    groups: Vec<KeyedStates>,
    ghost indexed: { index ≡ hashes_of (map (λ g. g.key.items) groups.items) },
}

impl GroupTable {
    ghost use Rattle.group_states.specs.Groups as spec;

    /// Of no row.
    pub fn new(alloc: Global, keys: usize, folds: Vec<Fold>) -> Result<GroupTable, OutOfMemory>
        ensures { IfOk result (λ table. spec.HasRows keys folds.items [] table) }
    {
        Ok(GroupTable {
            keys,
            folds,
            index: GrowingIndex::new(alloc)?,
            groups: Vec::new(alloc),
        })
    }

    /// The table with a row more. A row at `Level::No` isn't there. It fails for want of memory, and
    /// where a number has no next one.
    pub fn taken(self, alloc: Global, row: &Row) -> Result<GroupTable, OutOfMemory>
        ensures { IfOk result (λ table. (n : ℕ) → (folds : List Fold) → (rows : List (Row (List Cell))) → spec.HasRows n folds rows self → spec.HasRows n folds (rows ++ row.now ∷ []) table) }
    {
        if !is_there(row) {
            return Ok(self);
        }
        let keys = self.keys;
        let folds = self.folds;
        let mut index = self.index;
        let mut groups = self.groups;
        enter(alloc, &mut index, &mut groups, &folds, keys, row)?;
        Ok(GroupTable {
            keys,
            folds,
            index,
            groups,
        })
    }

    /// The groups (SQL-92 7.7): of each key that occurs a row, which is the key and then the other
    /// cells. A group is let go once its row is made. It fails only for want of memory.
    pub fn into_rows(self, alloc: Global) -> Result<Bag, OutOfMemory>
        ensures { IfOk result (λ made. (n : ℕ) → (folds : List Fold) → (rows : List (Row (List Cell))) → spec.HasRows n folds rows self → Alike made (spec.groups_of n folds rows)) }
    {
        Ok(group_rows(alloc, self.groups)?)
    }
}
