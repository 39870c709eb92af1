// A sink in memory, which fails once it holds a number of bytes.
ghost use Rattle.std.specs.Prelude.{◌≡◌, ◌≤◌, ◌-◌, ◌↔◌, [], Some, length, min, take, IfOk, OnOk, OnErr, IsErr, vec_len, vec_capacity};
ghost use Rattle.io_edge.specs.Causes.{raised, Rose};
ghost use Rattle.io_edge.specs.Outside.{TakesSome, taken, written_after};

use crate::{Failed, Sink};
use shared_types::OutOfMemory;
use std::alloc::Global;

/// A sink in memory. Its room is reserved when it is made, so no write takes memory.
#[derive(Drop)]
pub struct MemSink {
    /// What was written.
    pub bytes: Vec<u8>,
    /// The number of bytes after which every write fails.
    pub room: usize,
    /// How many writes failed. It stays at the greatest u64.
    pub faults: u64,
    ghost within: { vec_len bytes ≤ room },
    ghost reserved: { room ≤ vec_capacity bytes },
}

impl MemSink {
    /// An empty sink that takes this many bytes.
    pub fn new(alloc: Global, room: usize) -> Result<Self, OutOfMemory>
        ensures empty { IfOk result (λ s. s.bytes.items ≡ []) }
        ensures room { IfOk result (λ s. s.room ≡ room) }
        ensures faults { IfOk result (λ s. s.faults ≡ 0) }
    {
        Ok(MemSink {
            bytes: Vec::with_capacity(alloc, room)?,
            room,
            faults: 0,
        })
    }
}

impl Sink for MemSink {
    ghost written = { λ s. Some s.bytes.items };

    ghost faults = { λ s. s.faults };

    /// Takes the front of a piece, up to the room, and fails exactly where no room is left.
    fn write(&mut self, piece: &[u8]) -> Result<usize, Failed>
        ensures count { IfOk result (λ n. TakesSome (length piece.now) n) }
        ensures appends { Some self.new.bytes.items ≡ written_after (take (taken result) piece.now) (Some self.old.bytes.items) }
        ensures later { self.old.faults ≤ self.new.faults }
        ensures failed { OnErr result (Rose self.old.faults self.new.faults) }
        ensures fills { IfOk result (λ n. n ≡ min (length piece.now) (self.old.room - length self.old.bytes.items)) }
        ensures full { IsErr result ↔ (length self.old.bytes.items ≡ self.old.room) }
        ensures room { self.new.room ≡ self.old.room }
        ensures steady { OnOk result (self.new.faults ≡ self.old.faults) }
        ensures counted { OnErr result (self.new.faults ≡ raised self.old.faults) }
    {
        let left = self.room - self.bytes.len();
        if left == 0 {
            self.faults = self.faults.saturating_add(1);
            return Err(Failed);
        }
        let count = piece.len().min(left);
        match self.bytes.extend_from_slice(&piece[..count]) {
            Ok(()) => Ok(count),
            // The room is reserved, so this does not come.
            Err(_) => Err(Failed),
        }
    }
}
