// The files of the system. They tell nothing of their content.
ghost use Rattle.std.specs.Prelude.{◌≡◌, ◌≤◌, [], None, length, OnOk, OnErr, IsErrOf};
ghost use Rattle.io_edge.specs.Causes.{Rose};
ghost use Rattle.io_edge.specs.Outside.{StandsFor, IsOver, faults_after};

use crate::files::{Files, ReadRefusal};
use std::alloc::Global;
use std::fs;
use std::io::{ErrorKind, Read};

/// The files of the system. A read that the system refuses is a fault, want of memory aside.
#[derive(Drop)]
pub struct RealFiles<'a, R> {
    /// What opens the files.
    pub rt: &'a R,
    /// How many reads failed. It stays at the greatest u64.
    pub faults: u64,
}

impl<R: std::rt::Files> Files for RealFiles<'_, R> {
    ghost told = { λ _. None };

    ghost faults = { λ s. s.faults };

    /// Reads no more than a byte above the limit.
    fn read(
        &mut self,
        _alloc: Global,
        name: &str,
        limit: usize,
        into: &mut Vec<u8>,
    ) -> Result<(), ReadRefusal>
        ensures bytes { OnOk result (StandsFor None name.now into.new.items) }
        ensures fits { OnOk result (length into.new.items ≤ limit) }
        ensures large { IsErrOf result ReadRefusal.TooLarge → IsOver None name.now limit }
        ensures empty { OnErr result (into.new.items ≡ []) }
        ensures later { self.old.faults ≤ self.new.faults }
        ensures failed { IsErrOf result ReadRefusal.Failed → Rose self.old.faults self.new.faults }
        ensures faults { self.new.faults ≡ faults_after result self.old.faults }
    {
        into.clear();
        let result = match fs::open(self.rt, name) {
            Ok(file) => file
                .take((limit as u64).saturating_add(1))
                .read_to_end(into),
            Err(error) => Err(error),
        };
        match result {
            Ok(_) if into.len() <= limit => Ok(()),
            Ok(_) => {
                into.clear();
                Err(ReadRefusal::TooLarge)
            }
            Err(error) => {
                into.clear();
                if error.kind() == ErrorKind::OutOfMemory {
                    return Err(ReadRefusal::Memory);
                }
                self.faults = self.faults.saturating_add(1);
                Err(ReadRefusal::Failed)
            }
        }
    }
}
