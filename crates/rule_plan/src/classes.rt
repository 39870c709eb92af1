// Classes of rewrite rules, in order.
ghost use Rattle.std.specs.Prelude.{◌≡◌, [], ◌∷◌, ◌++◌, OnOk, OnErr};
ghost use Rattle.rule_plan.specs.Standing.{has_class, same_class};

use shared_types::OutOfMemory;
use sqlite_items::Items;
use std::alloc::Global;
use std::marker::Model;

/// A class of rewrite rules.
#[derive(Clone, Copy, PartialEq, Eq)]
pub enum Class {
    /// A box is merged into the box that reads it.
    Merge,
    /// A subquery of a predicate becomes a join.
    Subquery,
    /// A `DISTINCT` is moved or dropped.
    Distinct,
    /// A predicate is pushed down towards the tables.
    Push,
    /// A predicate that follows from others is added.
    Trans,
    /// What nothing reads is dropped.
    Prune,
    /// A box is restricted to the values that its reader asks for.
    Magic,
}

/// Classes, in the order in which they are to be tried. Contracts see the list of them.
#[derive(Drop)]
pub struct Classes {
    classes: Items<Class>,
}

impl Model for Classes {
    ghost use Rattle.std.specs.Prelude.{List};
    ghost use Rattle.rule_plan.specs.declared.classes.Class.{Class};

    ghost Value = { List Class };

    ghost view = { λ c. c.classes };
}

impl Classes {
    /// No class.
    pub fn new(alloc: Global) -> Classes
        ensures { result ≡ [] }
    {
        Classes {
            classes: Items::new(alloc),
        }
    }

    /// Adds a class at the end.
    pub fn push(&mut self, class: Class) -> Result<(), OutOfMemory>
        ensures ok { OnOk result (self.new ≡ self.old ++ class ∷ []) }
        ensures err { OnErr result (self.new ≡ self.old) }
    {
        self.classes.push(class)?;
        Ok(())
    }

    /// The classes.
    pub fn as_slice(&self) -> &[Class]
        ensures { result.now ≡ self.now }
    {
        self.classes.as_slice()
    }

    /// Whether a class is one of them.
    pub fn contains(&self, class: Class) -> bool
        ensures { result ≡ has_class class self.now }
    {
        self.as_slice().contains(&class)
    }
}
