// Sets of names.
ghost use Rattle.std.specs.Prelude.{◌≡◌, ◌++◌, ◌∷◌, [], not, if◌then◌else◌, IfOk, OnOk, List, ℕ};
ghost use Rattle.std.specs.List.{list_any};
ghost use Rattle.sql_ast.specs.Names.{contains, has_twins};

use indexmap::IndexSet;
use shared_types::OutOfMemory;
use sql_text::Name;
use std::alloc::Global;
use std::marker::Model;

/// Names, each once, in the order in which they came. Contracts see it as their list.
#[derive(Drop)]
pub struct NameSet {
    names: IndexSet<Name>,
}

impl Model for NameSet {
    ghost Value = { List (List ℕ) };

    ghost view = { λ s. s.names.keys };
}

impl NameSet {
    /// No name.
    pub fn new(alloc: Global) -> NameSet
        ensures { result ≡ [] }
    {
        NameSet {
            names: IndexSet::new(alloc),
        }
    }

    /// Whether the set has the name.
    pub fn contains(&self, name: &Name) -> bool
        ensures { result ≡ contains self.now name.now }
    {
        self.names.contains(name)
    }

    /// Adds a name at the end if the set lacks it, and says whether it lacked it.
    pub fn insert(&mut self, name: Name) -> Result<bool, OutOfMemory>
        ensures added { IfOk result (λ added. added ≡ not (contains self.old name)) }
        ensures names { OnOk result (self.new ≡ if contains self.old name then self.old else self.old ++ name ∷ []) }
    {
        let (_, added) = self.names.insert_full(name)?;
        Ok(added)
    }

    /// Adds an equal name at the end if the set lacks it, and says whether it lacked it.
    pub fn insert_copy(&mut self, alloc: Global, name: &Name) -> Result<bool, OutOfMemory>
        ensures added { IfOk result (λ added. added ≡ not (contains self.old name.now)) }
        ensures names { OnOk result (self.new ≡ if contains self.old name.now then self.old else self.old ++ name.now ∷ []) }
    {
        self.insert(name.copy(alloc)?)
    }

    /// The set of the names of a slice.
    pub fn of(alloc: Global, names: &[Name]) -> Result<NameSet, OutOfMemory>
        ensures { IfOk result (λ set. (name : List ℕ) → contains set name ≡ contains names.now name) }
    {
        let mut set = NameSet::new(alloc);
        fill(alloc, &mut set, names)?;
        Ok(set)
    }
}

// Adds the names of a slice to a set that has none.
fn fill(alloc: Global, set: &mut NameSet, names: &[Name]) -> Result<(), OutOfMemory>
    requires { set.old ≡ [] }
    ensures { OnOk result ((name : List ℕ) → contains set.new name ≡ contains names.now name) }
{
    for name in names {
        set.insert_copy(alloc, name)?;
    }
    Ok(())
}

/// Whether the set has one of the names.
pub fn has_one(set: &NameSet, names: &[Name]) -> bool
    ensures { result ≡ list_any (contains set.now) names.now }
{
    names.iter().any(|name| set.contains(name))
}

/// Whether the set lacks one of the names.
pub fn lacks_one(set: &NameSet, names: &[Name]) -> bool
    ensures { result ≡ list_any (λ name. not (contains set.now name)) names.now }
{
    names.iter().any(|name| !set.contains(name))
}

// Whether two of the names are equal, which are added to a set that has none.
fn adds_twins(alloc: Global, seen: &mut NameSet, names: &[Name]) -> Result<bool, OutOfMemory>
    requires { seen.old ≡ [] }
    ensures { IfOk result (λ twins. twins ≡ has_twins names.now) }
{
    for name in names {
        if !seen.insert_copy(alloc, name)? {
            return Ok(true);
        }
    }
    Ok(false)
}

/// Whether two of the names are equal.
pub fn has_twins(alloc: Global, names: &[Name]) -> Result<bool, OutOfMemory>
    ensures { IfOk result (λ twins. twins ≡ has_twins names.now) }
{
    let mut seen = NameSet::new(alloc);
    adds_twins(alloc, &mut seen, names)
}
