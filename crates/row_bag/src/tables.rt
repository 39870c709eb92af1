// The tables that a query reads.
ghost use Rattle.std.specs.Prelude.{◌≡◌, ◌++◌, ◌∷◌, [], List, OnOk, OnErr, option_map, position};
ghost use Rattle.row_bag.specs.declared.tables.Table.{Table};
ghost use Rattle.row_bag.specs.Tables.{bag_named, has_name, without_rows};

use crate::bag::Bag;
use shared_types::{OutOfMemory, Text};
use std::alloc::Global;
use std::marker::Model;
use std::mem::replace;

/// A table: its name and its rows.
#[derive(Drop)]
pub struct Table {
    pub name: Text,
    pub bag: Bag,
}

/// Tables, in declared order. Contracts see it as the list of them.
#[derive(Drop)]
pub struct Tables {
    tables: Vec<Table>,
    // No row, which is lent where no table has a name.
    none: Bag,
}

impl Model for Tables {
    ghost use Rattle.std.specs.Prelude.{◌≡◌, [], List};
    ghost use Rattle.row_bag.specs.declared.tables.Table.{Table};

    ghost Value = { List Table };

    ghost view = { λ t. t.tables.items };

    ghost invariant = { λ t. t.none ≡ [] };
}

// The place of the first table of a name.
fn place_of(tables: &[Table], name: &Text) -> Option<usize>
    ensures { result ≡ position (has_name name.now) tables.now }
{
    tables.iter().position(|table| table.name == *name)
}

impl Tables {
    /// No table.
    pub fn new(alloc: Global) -> Tables
        ensures { result ≡ [] }
    {
        Tables {
            tables: Vec::new(alloc),
            none: Bag::new(alloc),
        }
    }

    /// The tables.
    pub fn as_slice(&self) -> &[Table]
        ensures { result.now ≡ self.now }
    {
        &self.tables
    }

    /// No row.
    pub fn none(&self) -> &Bag
        ensures { result.now ≡ [] }
    {
        &self.none
    }

    /// Adds a table at the end.
    pub fn push(&mut self, table: Table) -> Result<(), OutOfMemory>
        ensures ok { OnOk result (self.new ≡ self.old ++ table ∷ []) }
        ensures err { OnErr result (self.new ≡ self.old) }
    {
        self.tables.push(table)?;
        Ok(())
    }

    /// The rows of the first table of a name; none exactly where no table has the name.
    pub fn find(&self, name: &Text) -> Option<&Bag>
        ensures { option_map (λ b. b.now) result ≡ bag_named self.now name.now }
    {
        for table in self.as_slice() {
            if table.name == *name {
                return Some(&table.bag);
            }
        }
        None
    }

    /// Gives up the rows of the first table of a name, and leaves that table without a row; none
    /// exactly where no table has the name, and then all stays as it was. It takes no memory.
    pub fn take(&mut self, alloc: Global, name: &Text) -> Option<Bag>
        ensures bag { result ≡ bag_named self.old name.now }
        ensures after { self.new ≡ without_rows self.old name.now }
    {
        let place = place_of(&self.tables, name)?;
        let table = &mut self.tables[place];
        Some(replace(&mut table.bag, Bag::new(alloc)))
    }
}
