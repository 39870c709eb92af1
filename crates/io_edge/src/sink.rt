// Where the program writes.
ghost use Rattle.std.specs.Prelude.{◌≡◌, ◌≤◌, ℕ, [], List, Option, length, take, IfOk, OnOk, OnErr};
ghost use Rattle.io_edge.specs.Causes.{Rose};
ghost use Rattle.io_edge.specs.Outside.{TakesSome, taken, written_after, StopsShort};

use thiserror::Error;

/// A write failed: a fault, which the count of faults shows.
#[derive(Clone, Copy, Debug, PartialEq, Eq, Error)]
#[error("the write failed")]
pub struct Failed;

/// Where bytes are written, piece by piece.
pub trait Sink {
    /// What was written, where it is told.
    ghost written: { Self → Option (List ℕ) };

    /// How many faults there have been. It never falls.
    ghost faults: { Self → ℕ };

    /// Writes the front of a piece, a byte at least if it has one, and says how many.
    fn write(&mut self, piece: &[u8]) -> Result<usize, Failed>
        ensures count { IfOk result (λ n. TakesSome (length piece.now) n) }
        ensures appends { written self.new ≡ written_after (take (taken result) piece.now) (written self.old) }
        ensures later { faults self.old ≤ faults self.new }
        ensures failed { OnErr result (Rose (faults self.old) (faults self.new)) };
}

/// Writes all of the bytes, or a proper prefix of them where a write fails. For no byte it makes no
/// write.
pub fn write_all<K: Sink>(out: &mut K, bytes: &[u8]) -> Result<(), Failed>
    ensures all { OnOk result (K.written out.new ≡ written_after bytes.now (K.written out.old)) }
    ensures short { OnErr result (StopsShort (K.written out.old) (K.written out.new) bytes.now) }
    ensures later { K.faults out.old ≤ K.faults out.new }
    ensures failed { OnErr result (Rose (K.faults out.old) (K.faults out.new)) }
    ensures nothing { bytes.now ≡ [] → out.new ≡ out.old }
{
    let mut done = 0;
    while done < bytes.len() {
        let count = out.write(&bytes[done..])?;
        done += count;
    }
    Ok(())
}
