ghost use Rattle.std.specs.Prelude.{◌≡◌, ◌↔◌, ℕ, IfOk, option_copied};
ghost use Rattle.std.specs.List.{Contains};
ghost use Rattle.std.specs.List.Sorted.{IsStrictlyIncreasing};
ghost use Rattle.tt_locks.specs.Blocking.{holders, lock_asked};

use crate::{Lock, Locks};
use tt_calls::{Family, LockCall};
use tt_text::NoMemory;

impl Locks {
    /// The threads that hold the lock that a call is to hold, by number, each once; of the end of a wait for a
    /// condition those that hold the mutex. None for calls that never wait (thread(n)).
    ///
    /// `NoMemory` if memory for them is refused.
    pub fn holders(&self, call: &LockCall) -> Result<Vec<u32>, NoMemory>
        ensures by_number { IfOk result (λ threads. IsStrictlyIncreasing threads.items) }
        ensures exactly { IfOk result (λ threads.
            (u : ℕ) → Contains threads.items u ↔ Contains (holders self.now call.now) u) }
    {
        match self.asked(call) {
            Some(lock) => lock.holders.different(),
            None => Ok(Vec::new(self.alloc)),
        }
    }

    // The lock that a call is to hold.
    fn asked(&self, call: &LockCall) -> Option<&Lock>
        ensures { option_copied result ≡ lock_asked self.now call.now }
    {
        match call {
            LockCall::Lock { id } => self.find(Family::Mutex, id),
            LockCall::ReadLock { id } | LockCall::WriteLock { id } => {
                self.find(Family::ReadWrite, id)
            }
            LockCall::CondTake { mutex, .. } => self.find(Family::Mutex, mutex),
            _ => None,
        }
    }
}
