ghost use Rattle.std.specs.Prelude.{◌≡◌, ◌≤◌, ℕ, List, Option, length, IfOk, OnOk, OnErr};
ghost use Rattle.tt_devices.specs.Faults.{Rises};
ghost use Rattle.tt_devices.specs.Streams.{Fills, Stays};

use crate::Failed;

/// Bytes that come in.
pub trait Source {
    /// The bytes that are not yet taken, if the source shows them.
    ghost held: { Self → Option (List ℕ) };

    /// How many faults there were. A count at the greatest `u64` stays there.
    ghost fault_count: { Self → ℕ };

    /// How many faults there were.
    fn faults(&self) -> u64
        ensures { result ≡ fault_count self.now };

    /// Moves the first bytes that are held into the room, and answers how many. It is 0 only at the end of input,
    /// or for a room of no bytes.
    ///
    /// `Failed` only if the count of faults rose; then nothing is taken.
    fn take(&mut self, room: &mut [u8]) -> Result<usize, Failed>
        ensures within { IfOk result (λ count. count ≤ length room.new) }
        ensures taken { IfOk result (Fills (held self.old) (held self.new) room.new) }
        ensures steady { OnOk result (fault_count self.new ≡ fault_count self.old) }
        ensures cause { OnErr result (Rises (fault_count self.old) (fault_count self.new)) }
        ensures nothing_taken { OnErr result (Stays (held self.old) (held self.new)) };
}
