// An index of the columns of a FROM by their names.
ghost use Rattle.std.specs.Prelude.{◌≡◌, ◌++◌, ◌+◌, ◌<◌, ◌^◌, ℕ, List, [], length, map, Option, Some, IfOk, OnOk};
ghost use Rattle.sql_meaning.specs.Occurrences as spec;

use indexmap::IndexMap;
use shared_types::OutOfMemory;
use sql_text::Name;
use std::alloc::Global;
use std::marker::Model;

/// How often a name stands among columns, and the place where it stands first, from 0.
#[derive(Clone, Copy)]
pub enum Occurrence {
    Nowhere,
    Once(usize),
    Several(usize),
}

impl Occurrence {
    /// The place where the name stands first.
    pub fn first(self) -> Option<usize>
        ensures { result ≡ spec.first_place self }
    {
        match self {
            Occurrence::Nowhere => None,
            Occurrence::Once(place) | Occurrence::Several(place) => Some(place),
        }
    }
}

/// An index of the columns of a FROM, in order, by their names. Contracts see it as the names, each
/// with its occurrence, and the number of columns; `Indexes` says of which columns it tells.
#[derive(Drop)]
pub struct ColumnIndex {
    names: IndexMap<Name, Occurrence>,
    width: usize,
}

impl Model for ColumnIndex {
    ghost use Rattle.std.specs.Prelude.{ℕ, List};
    ghost use Rattle.sql_meaning.specs.declared.column_index.Occurrence.{Occurrence};

    ghost Value = { List (List ℕ × Occurrence) × ℕ };

    ghost view = { λ x. (x.names.entries, x.width) };
}

// With one more column of the name at the end, at this place.
fn then_at(found: Occurrence, place: usize) -> Occurrence
    ensures { result ≡ spec.then_at found place }
{
    match found {
        Occurrence::Nowhere => Occurrence::Once(place),
        Occurrence::Once(first) | Occurrence::Several(first) => Occurrence::Several(first),
    }
}

// What is noted of a name.
fn noted(names: &IndexMap<Name, Occurrence>, name: &Name) -> Occurrence
    ensures { result ≡ spec.told_of names.now.entries name.now }
{
    match names.get(name) {
        Some(found) => *found,
        None => Occurrence::Nowhere,
    }
}

// Notes a column of a name at a place after all that are noted.
#[tactic(auto, using(crate::proofs::Occurrences::told_alike))]
fn note_name(
    alloc: Global,
    names: &mut IndexMap<Name, Occurrence>,
    name: &Name,
    place: usize,
) -> Result<(), OutOfMemory>
    ensures { OnOk result (spec.Noted names.old.entries (Some name.now) place names.new.entries) }
{
    let next = then_at(noted(names, name), place);
    names.insert(name.copy(alloc)?, next)?;
    Ok(())
}

// Notes a column at a place after all that are noted.
fn note(
    alloc: Global,
    names: &mut IndexMap<Name, Occurrence>,
    column: &Option<Name>,
    place: usize,
) -> Result<(), OutOfMemory>
    ensures { OnOk result (spec.Noted names.old.entries column.now place names.new.entries) }
{
    match column {
        Some(name) => note_name(alloc, names, name, place),
        None => Ok(()),
    }
}

// Notes columns from a place on, after all that are noted.
fn note_all(
    alloc: Global,
    names: &mut IndexMap<Name, Occurrence>,
    columns: &[Option<Name>],
    first: usize,
) -> Result<(), OutOfMemory>
    requires { first + length columns.now < 2 ^ 64 }
    ensures { OnOk result ((before : List (Option (List ℕ))) → spec.Indexes before (names.old.entries, first) → spec.Indexes (before ++ columns.now) (names.new.entries, first + length columns.now)) }
{
    for i in 0..columns.len() {
        note(alloc, names, &columns[i], first + i)?;
    }
    Ok(())
}

impl ColumnIndex {
    /// The index of no columns.
    pub fn new(alloc: Global) -> ColumnIndex
        ensures { spec.Indexes [] result }
    {
        ColumnIndex {
            names: IndexMap::new(alloc),
            width: 0,
        }
    }

    /// Adds columns at the end. The error is want of memory, as for 2^64 columns.
    pub fn append(&mut self, alloc: Global, columns: &[Option<Name>]) -> Result<(), OutOfMemory>
        ensures { OnOk result ((before : List (Option (List ℕ))) → spec.Indexes before self.old → spec.Indexes (before ++ columns.now) self.new) }
    {
        match self.width.checked_add(columns.len()) {
            Some(width) => {
                note_all(alloc, &mut self.names, columns, self.width)?;
                self.width = width;
                Ok(())
            }
            None => Err(OutOfMemory),
        }
    }

    /// The index of these columns. The error is want of memory.
    pub fn of(alloc: Global, columns: &[&Option<Name>]) -> Result<ColumnIndex, OutOfMemory>
        ensures { IfOk result (spec.Indexes (map (λ column. column.now) columns.now)) }
    {
        let mut names = IndexMap::new(alloc);
        for place in 0..columns.len() {
            note(alloc, &mut names, columns[place], place)?;
        }
        Ok(ColumnIndex {
            names,
            width: columns.len(),
        })
    }

    /// How often a name stands among the columns, and where first.
    pub fn find(&self, name: &Name) -> Occurrence
        ensures { result ≡ spec.told_of self.now.0 name.now }
    {
        noted(&self.names, name)
    }

    /// How many columns there are.
    pub fn width(&self) -> usize
        ensures { result ≡ self.now.1 }
    {
        self.width
    }
}
