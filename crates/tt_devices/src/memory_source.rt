ghost use Rattle.std.specs.Prelude.{◌≡◌, ◌≤◌, ◌<◌, length, IfOk, OnOk, OnErr, IsErr, is_err, [], ◌↔◌, Some, take};
ghost use Rattle.tt_devices.specs.Faults.{Rises};
ghost use Rattle.tt_devices.specs.Memory.{FailsNext, after_call, fresh_plan};
ghost use Rattle.tt_devices.specs.Streams.{Fills, Stays};

use crate::fault_plan::FaultPlan;
use crate::{Failed, Source};
use std::marker::Model;

/// Bytes in memory, as a source that shows them. Its calls fail if its plan says so.
#[derive(Debug, Drop)]
pub struct MemorySource {
    bytes: Vec<u8>,
    taken: usize,
    plan: FaultPlan,
}

impl Model for MemorySource {
    ghost use Rattle.std.specs.Prelude.{drop, vec_len, ◌≤◌};
    ghost use Rattle.tt_devices.specs.Memory.{Supply};

    ghost Value = { Supply };

    ghost view = { λ source. record { left = drop source.taken source.bytes.items; plan = source.plan } };

    ghost invariant = { λ source. source.taken ≤ vec_len source.bytes };
}

impl MemorySource {
    /// A source of these bytes. The calls of `take` whose numbers, counted from 1, are in `fail` fail.
    pub fn new(bytes: Vec<u8>, fail: Vec<u64>) -> Self
        ensures { result ≡ record { left = bytes.items; plan = fresh_plan fail.items } }
    {
        MemorySource {
            bytes,
            taken: 0,
            plan: FaultPlan::new(fail),
        }
    }
}

impl Source for MemorySource {
    ghost held = { λ source. Some source.left };

    ghost fault_count = { λ source. source.plan.faults };

    fn faults(&self) -> u64 {
        self.plan.faults()
    }

    fn take(&mut self, room: &mut [u8]) -> Result<usize, Failed>
        ensures within { IfOk result (λ count. count ≤ length room.new) }
        ensures taken { IfOk result (Fills (Some self.old.left) (Some self.new.left) room.new) }
        ensures steady { OnOk result (self.new.plan.faults ≡ self.old.plan.faults) }
        ensures cause { OnErr result (Rises self.old.plan.faults self.new.plan.faults) }
        ensures nothing_taken { OnErr result (Stays (Some self.old.left) (Some self.new.left)) }
        ensures planned { IsErr result ↔ FailsNext self.old.plan }
        ensures plan { self.new.plan ≡ after_call self.old.plan (is_err result) }
    {
        if self.plan.count_call() {
            self.plan.count_fault();
            return Err(Failed);
        }
        let (_, left) = self.bytes.split_at(self.taken);
        let count = fill(room, left);
        self.taken += count;
        Ok(count)
    }
}

/// Copies the first bytes into the room, as many as it has place for, and answers how many.
fn fill(room: &mut [u8], bytes: &[u8]) -> usize
    ensures within { (result ≤ length room.new) × (result ≤ length bytes.now) }
    ensures filled { take result room.new ≡ take result bytes.now }
    ensures none { result ≡ 0 → 0 < length room.new → bytes.now ≡ [] }
{
    let count = bytes.len().min(room.len());
    room[..count].copy_from_slice(&bytes[..count]);
    count
}
