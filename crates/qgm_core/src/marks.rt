// Numbers that are marked.
ghost use Rattle.std.specs.Prelude.{◌≡◌, ◌++◌, ◌∷◌, [], map, OnOk};
ghost use Rattle.list_laws.specs.Lists.{holds};

use crate::owned::OwnedQuant;
use crate::tables::make_long;
use shared_types::OutOfMemory;
use std::alloc::Global;
use std::marker::Model;

/// Numbers in the order in which they were marked. Each has a flag at its own place, so that it is
/// found at once; there are as many flags as the greatest number asks for.
pub struct Marks {
    list: Vec<usize>,
    flags: Vec<bool>,
}

// By hand, so that what lets marks go cites this function.
impl Drop for Marks {
    fn drop(self) {
        let Marks { list, flags } = self;
        drop(list);
        drop(flags);
    }
}

impl Model for Marks {
    ghost use Rattle.std.specs.Prelude.{ℕ, List, ◌≡◌, false, slice_index_or};
    ghost use Rattle.list_laws.specs.Lists.{holds};

    ghost Value = { List ℕ };

    ghost view = { λ m. m.list.items };

    ghost invariant = { λ m. (x : ℕ) → slice_index_or m.flags.items x false ≡ holds x m.list.items };
}

impl Marks {
    /// None.
    pub fn new(alloc: Global) -> Marks
        ensures { result ≡ [] }
    {
        Marks {
            list: Vec::new(alloc),
            flags: Vec::new(alloc),
        }
    }

    /// Marks one more.
    pub fn push(&mut self, x: usize) -> Result<(), OutOfMemory>
        ensures { OnOk result (self.new ≡ self.old ++ x ∷ []) }
    {
        make_long(&mut self.flags, x, false)?;
        self.list.push(x)?;
        self.flags[x] = true;
        Ok(())
    }

    // The numbers.
    pub(crate) fn as_slice(&self) -> &[usize]
        ensures { result.now ≡ self.now }
    {
        &self.list
    }

    // The numbers, without the flags.
    pub(crate) fn into_list(self) -> Vec<usize>
        ensures { result.items ≡ self }
    {
        let Marks { list, flags } = self;
        drop(flags);
        list
    }

    /// Whether a number is marked.
    pub fn has(&self, x: usize) -> bool
        ensures { result ≡ holds x self.now }
    {
        if x < self.flags.len() {
            self.flags[x]
        } else {
            false
        }
    }
}

/// Marks the boxes that these quantifiers range over.
pub fn mark_overs(ranges: &[OwnedQuant], marks: &mut Marks) -> Result<(), OutOfMemory>
    ensures { OnOk result (marks.new ≡ marks.old ++ map (λ r. r.over) ranges.now) }
{
    for range in ranges {
        marks.push(range.over)?;
    }
    Ok(())
}

/// Marks these quantifiers.
pub fn mark_ids(ranges: &[OwnedQuant], marks: &mut Marks) -> Result<(), OutOfMemory>
    ensures { OnOk result (marks.new ≡ marks.old ++ map (λ r. r.id) ranges.now) }
{
    for range in ranges {
        marks.push(range.id)?;
    }
    Ok(())
}
