ghost use Rattle.std.specs.Prelude.{◌≡◌, ◌≢◌, ℕ, List, Option, IfOk, OnOk, OnErr, IsErrOf};
ghost use Rattle.tt_devices.specs.Faults.{Rises};
ghost use Rattle.tt_devices.specs.Names.{Names, Tells, HasName, KeepsOthers};

use crate::Failed;
use std::alloc::Global;

/// Why a read gave no bytes.
#[derive(Clone, Copy, Debug, PartialEq, Eq)]
pub enum ReadAnswer {
    /// There is no file of that name.
    Missing,
    /// The file could not be read.
    Failed,
    /// Memory for the bytes was refused.
    NoMemory,
}

/// Bytes under names.
pub trait Files {
    /// The bytes under each name, if they are shown.
    ghost map: { Self → Option Names };

    /// How many reads failed. A count at the greatest `u64` stays there.
    ghost read_fault_count: { Self → ℕ };

    /// How many writes failed. A count at the greatest `u64` stays there.
    ghost write_fault_count: { Self → ℕ };

    /// How many reads failed.
    fn read_faults(&self) -> u64
        ensures { result ≡ read_fault_count self.now };

    /// How many writes failed.
    fn write_faults(&self) -> u64
        ensures { result ≡ write_fault_count self.now };

    /// The bytes under the name.
    ///
    /// `Missing` exactly if the name has none, if the map is shown. `Failed` only if the count of failed reads rose.
    fn read(&mut self, alloc: Global, name: &str) -> Result<Vec<u8>, ReadAnswer>
        ensures found { IfOk result (λ bytes. Tells (map self.old) name.now (Some bytes.items)) }
        ensures missing { IsErrOf result ReadAnswer.Missing → Tells (map self.old) name.now None }
        ensures not_missing { IsErrOf result ReadAnswer.Failed → HasName (map self.old) name.now }
        ensures same { map self.new ≡ map self.old }
        ensures cause { IsErrOf result ReadAnswer.Failed →
            Rises (read_fault_count self.old) (read_fault_count self.new) }
        ensures steady { (result ≢ Err ReadAnswer.Failed) → read_fault_count self.new ≡ read_fault_count self.old }
        ensures no_write { write_fault_count self.new ≡ write_fault_count self.old };

    /// Replaces the bytes under the name.
    ///
    /// `Failed` only if the count of failed writes rose; then the bytes under that name alone are unknown.
    fn write(&mut self, name: &str, bytes: &[u8]) -> Result<(), Failed>
        ensures written { OnOk result (Tells (map self.new) name.now (Some bytes.now)) }
        ensures others { KeepsOthers (map self.old) (map self.new) name.now }
        ensures cause { OnErr result (Rises (write_fault_count self.old) (write_fault_count self.new)) }
        ensures steady { OnOk result (write_fault_count self.new ≡ write_fault_count self.old) }
        ensures no_read { read_fault_count self.new ≡ read_fault_count self.old };
}
