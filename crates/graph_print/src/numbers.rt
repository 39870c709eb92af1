// Numbers of boxes and quantifiers by the order in which they come.
ghost use Rattle.std.specs.Prelude.{◌≡◌, ◌==◌, ◌++◌, ◌∷◌, [], ℕ, Some, None, if◌then◌else◌, nat_eq, OnErr, OnOk};
ghost use Rattle.std.specs.HashMap.{get};
ghost use Rattle.graph_print.specs.Places.{or_else, place_in};

use shared_types::OutOfMemory;
use std::alloc::Global;
use std::collections::HashMap;
use std::marker::Model;

// Gives a number a place, unless it has one.
fn add_place(map: &mut HashMap<usize, usize>, x: usize, place: usize) -> Result<(), OutOfMemory>
    ensures ok { OnOk result ((k : ℕ) → get nat_eq map.new k ≡ or_else (get nat_eq map.old k) (if x == k then Some place else None)) }
    ensures err { OnErr result ((k : ℕ) → get nat_eq map.new k ≡ get nat_eq map.old k) }
{
    if map.contains_key(&x) {
        return Ok(());
    }
    let _old = map.insert(x, place)?;
    Ok(())
}

/// Numbers in the order in which they came, whose places are found by their hashes.
#[derive(Drop)]
pub struct Places {
    list: Vec<usize>,
    map: HashMap<usize, usize>,
}

impl Model for Places {
    ghost use Rattle.std.specs.Prelude.{ℕ, List, ◌≡◌, nat_eq};
    ghost use Rattle.std.specs.HashMap.{get};
    ghost use Rattle.graph_print.specs.Places.{found_in};

    ghost Value = { List ℕ };

    ghost view = { λ p. p.list.items };

    ghost invariant = { λ p. (x : ℕ) → get nat_eq p.map x ≡ found_in p.list.items x };
}

impl Places {
    /// None.
    pub fn new(alloc: Global) -> Places
        ensures { result ≡ [] }
    {
        Places {
            list: Vec::new(alloc),
            map: HashMap::new(alloc),
        }
    }

    /// One more, at the end.
    pub fn push(&mut self, x: usize) -> Result<(), OutOfMemory>
        ensures { OnOk result (self.new ≡ self.old ++ x ∷ []) }
    {
        self.list.reserve(1)?;
        add_place(&mut self.map, x, self.list.len() + 1)?;
        self.list.push(x)?;
        Ok(())
    }

    /// The place of a number, from 1, where it came first; one more than there are, if it didn't.
    pub fn place_of(&self, x: usize) -> usize
        ensures { result ≡ place_in self.now x }
    {
        match self.map.get(&x) {
            Some(place) => *place,
            None => self.list.len() + 1,
        }
    }
}
