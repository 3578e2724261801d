ghost use Rattle.std.specs.Prelude.{◌≡◌, ℕ, List, Option, OnOk, OnErr};
ghost use Rattle.tt_devices.specs.Faults.{Rises};
ghost use Rattle.tt_devices.specs.Streams.{Grows, GrowsByPart};

use crate::Failed;

/// Bytes that go out.
pub trait Sink {
    /// The bytes that were received, if the sink shows them.
    ghost got: { Self → Option (List ℕ) };

    /// How many faults there were. A count at the greatest `u64` stays there.
    ghost fault_count: { Self → ℕ };

    /// How many faults there were.
    fn faults(&self) -> u64
        ensures { result ≡ fault_count self.now };

    /// Takes the whole piece.
    ///
    /// `Failed` only if the count of faults rose; then a first part of the piece was received, all of it or
    /// nothing among them.
    fn put(&mut self, piece: &[u8]) -> Result<(), Failed>
        ensures put { OnOk result (Grows (got self.old) (got self.new) piece.now) }
        ensures part { OnErr result (GrowsByPart (got self.old) (got self.new) piece.now) }
        ensures steady { OnOk result (fault_count self.new ≡ fault_count self.old) }
        ensures cause { OnErr result (Rises (fault_count self.old) (fault_count self.new)) };
}
