ghost use Rattle.std.specs.Prelude.{◌≡◌, ◌++◌, OnOk, OnErr, IsErr, is_err, [], Some};
ghost use Rattle.tt_devices.specs.Faults.{Rises};
ghost use Rattle.tt_devices.specs.Memory.{FailsNext, after_call, fresh_plan, one_more};
ghost use Rattle.tt_devices.specs.Streams.{Grows, GrowsByPart};

use crate::fault_plan::FaultPlan;
use crate::{Failed, Sink};
use std::alloc::Global;
use std::marker::Model;

/// A sink in memory, which shows what it got. Its calls fail if its plan says so, and then it gets the first
/// half of the piece.
#[derive(Debug, Drop)]
pub struct MemorySink {
    got: Vec<u8>,
    plan: FaultPlan,
}

impl Model for MemorySink {
    ghost use Rattle.tt_devices.specs.Memory.{Collected};

    ghost Value = { Collected };

    ghost view = { λ sink. record { got = sink.got.items; plan = sink.plan } };
}

impl MemorySink {
    /// A sink that got nothing. The calls of `put` whose numbers, counted from 1, are in `fail` fail.
    pub fn new(alloc: Global, fail: Vec<u64>) -> Self
        ensures { result ≡ record { got = []; plan = fresh_plan fail.items } }
    {
        MemorySink {
            got: Vec::new(alloc),
            plan: FaultPlan::new(fail),
        }
    }

    /// What it got.
    pub fn bytes(&self) -> &[u8]
        ensures { result.now ≡ self.now.got }
    {
        self.got.as_slice()
    }

    /// Keeps the piece, or counts a fault if memory for it is refused.
    fn keep(&mut self, piece: &[u8]) -> Result<(), Failed>
        ensures put { OnOk result (self.new.got ≡ self.old.got ++ piece.now) }
        ensures nothing { OnErr result (self.new.got ≡ self.old.got) }
        ensures steady { OnOk result (self.new.plan ≡ self.old.plan) }
        ensures cause { OnErr result (self.new.plan ≡ record self.old.plan { faults = one_more self.old.plan.faults }) }
    {
        if self.got.extend_from_slice(piece).is_err() {
            self.plan.count_fault();
            return Err(Failed);
        }
        Ok(())
    }
}

impl Sink for MemorySink {
    ghost got = { λ sink. Some sink.got };

    ghost fault_count = { λ sink. sink.plan.faults };

    fn faults(&self) -> u64 {
        self.plan.faults()
    }

    fn put(&mut self, piece: &[u8]) -> Result<(), Failed>
        ensures put { OnOk result (Grows (Some self.old.got) (Some self.new.got) piece.now) }
        ensures part { OnErr result (GrowsByPart (Some self.old.got) (Some self.new.got) piece.now) }
        ensures steady { OnOk result (self.new.plan.faults ≡ self.old.plan.faults) }
        ensures cause { OnErr result (Rises self.old.plan.faults self.new.plan.faults) }
        ensures planned { FailsNext self.old.plan → IsErr result }
        ensures plan { self.new.plan ≡ after_call self.old.plan (is_err result) }
    {
        if self.plan.count_call() {
            self.plan.count_fault();
            let (half, _) = piece.split_at(piece.len() / 2);
            let _ = self.got.extend_from_slice(half);
            return Err(Failed);
        }
        self.keep(piece)
    }
}
