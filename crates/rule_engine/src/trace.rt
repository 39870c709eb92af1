// What has fired.
ghost use Rattle.std.specs.Prelude.{◌≡◌, ◌++◌, ◌∷◌, [], OnErr, OnOk};

use rule_api::Firing;
use shared_types::OutOfMemory;
use sqlite_items::Items;
use std::alloc::Global;
use std::marker::Model;

/// What has fired, in order. Contracts see the list of it.
#[derive(Drop)]
pub struct Trace {
    firings: Items<Firing>,
}

impl Model for Trace {
    ghost use Rattle.std.specs.Prelude.{List};
    ghost use Rattle.rule_api.specs.declared.place.Firing.{Firing};

    ghost Value = { List Firing };

    ghost view = { λ t. t.firings };
}

impl Trace {
    /// Nothing.
    pub fn new(alloc: Global) -> Trace
        ensures { result ≡ [] }
    {
        Trace {
            firings: Items::new(alloc),
        }
    }

    /// Adds a firing at the end.
    pub fn push(&mut self, firing: Firing) -> Result<(), OutOfMemory>
        ensures ok { OnOk result (self.new ≡ self.old ++ firing ∷ []) }
        ensures err { OnErr result (self.new ≡ self.old) }
    {
        self.firings.push(firing)?;
        Ok(())
    }

    /// The firings.
    pub fn as_slice(&self) -> &[Firing]
        ensures { result.now ≡ self.now }
    {
        self.firings.as_slice()
    }
}
