// What is known of boxes, found by their numbers at once.
ghost use Rattle.std.specs.Prelude.{◌≡◌, ◌<◌, IfOk, length, map, option_map, slice_index_or, slice_set};
ghost use Rattle.list_laws.specs.Lists.{first};
ghost use Rattle.qgm_props.specs.Table.{is_of, nothing_of};

use crate::boxes::nothing_known;
use crate::facts::BoxFacts;
use qgm_core::{BoxId, Node, Places};
use shared_types::OutOfMemory;
use std::alloc::Global;
use std::marker::Model;

/// What is known of each box, by rank. Contracts see the list of it.
#[derive(Drop)]
pub struct FactTable {
    list: Vec<BoxFacts>,
    places: Places,
}

impl Model for FactTable {
    ghost use Rattle.std.specs.Prelude.{List, map, ◌≡◌};
    ghost use Rattle.qgm_props.specs.declared.facts.BoxFacts.{BoxFacts};

    ghost Value = { List BoxFacts };

    ghost view = { λ t. t.list.items };

    ghost invariant = { λ t. t.places ≡ map (λ f. f.id) t.list.items };
}

// Nothing is known of any box.
fn none_known(alloc: Global, nodes: &[Node]) -> Result<Vec<BoxFacts>, OutOfMemory>
    ensures { IfOk result (λ t. t.items ≡ map nothing_of nodes.now) }
{
    let mut table = Vec::new(alloc);
    for node in nodes {
        table.push(nothing_known(alloc, node)?)?;
    }
    Ok(table)
}

impl FactTable {
    /// Nothing is known of any of these boxes. It fails only for want of memory.
    pub fn none(alloc: Global, nodes: &[Node]) -> Result<FactTable, OutOfMemory>
        ensures { IfOk result (λ t. t ≡ map nothing_of nodes.now) }
    {
        let list = none_known(alloc, nodes)?;
        let places = Places::of(alloc, nodes)?;
        Ok(FactTable { list, places })
    }

    /// What is known of the box of a rank.
    pub fn at(&self, i: usize) -> &BoxFacts
        requires { i < length self.now }
        ensures { result.now ≡ slice_index_or self.now i result.now }
    {
        &self.list[i]
    }

    /// Puts what is known of the box of a rank.
    pub fn put(&mut self, i: usize, facts: BoxFacts)
        requires within { i < length self.old }
        requires same { (slice_index_or self.old i facts).id ≡ facts.id }
        ensures { self.new ≡ slice_set self.old i facts }
    {
        self.list[i] = facts;
    }

    /// What is known of the box of a number, if there is one.
    pub fn find(&self, b: BoxId) -> Option<&BoxFacts>
        ensures { option_map (λ f. f.now) result ≡ first (is_of b) self.now }
    {
        match self.places.find(b) {
            Some(i) => Some(&self.list[i]),
            None => None,
        }
    }
}
