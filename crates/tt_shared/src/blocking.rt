//! Whom threads wait for.
ghost use Rattle.std.specs.Prelude.{◌≡◌, ◌↔◌, ℕ, IfOk, IsTrue, option_to_list};
ghost use Rattle.std.specs.List.{Contains, filter};
ghost use Rattle.std.specs.List.Sorted.{IsStrictlyIncreasing};
ghost use Rattle.tt_shared.specs.Blocking.{blockers, living_among, target_in, waited_for};
ghost use Rattle.tt_slots.specs.Waiting.{slot_of};
ghost use Rattle.tt_threads.specs.Rows.{is_living};

use crate::Shared;
use std::alloc::Global;
use tt_calls::Request;
use tt_text::NoMemory;

impl Shared {
    /// The threads that a thread which lives waits for while its request can't be answered: those of them that live, by
    /// number, each once. None if the request can be answered (thread(n), tsv(n), chan(n)).
    ///
    /// `NoMemory` if memory for them is refused.
    pub fn blockers(&self, thread: u32, request: &Request) -> Result<Vec<u32>, NoMemory>
        requires lives { IsTrue (is_living self.now.rows thread) }
        ensures blockers { IfOk result (λ threads. threads.items ≡ blockers self.now thread request.now) }
    {
        if self.enabled(thread, request) {
            return Ok(Vec::new(self.alloc));
        }
        let living = self.living_waited_for(thread, request)?;
        Ok(living)
    }

    // Of those that the request waits for the ones that live, by number, each once.
    fn living_waited_for(&self, thread: u32, request: &Request) -> Result<Vec<u32>, NoMemory>
        ensures { IfOk result (λ threads.
            threads.items ≡ living_among self.now (waited_for self.now thread request.now)) }
    {
        let waited_for = self.waited_for(thread, request)?;
        let living = self.living(waited_for.as_slice())?;
        Ok(living)
    }

    // Whom the request waits for, by number, each once.
    fn waited_for(&self, thread: u32, request: &Request) -> Result<Vec<u32>, NoMemory>
        ensures by_number { IfOk result (λ threads. IsStrictlyIncreasing threads.items) }
        ensures exactly { IfOk result (λ threads.
            (u : ℕ) → Contains threads.items u ↔ Contains (waited_for self.now thread request.now) u) }
    {
        match request {
            Request::AwaitEnd { thread } => at_most_one(self.alloc, Some(*thread)),
            Request::Await { n } => at_most_one(self.alloc, self.target(*n)),
            Request::Tsv(call) => at_most_one(self.alloc, self.arrays.holder(call.get())),
            Request::Lock(call) => self.locks.holders(call.get()),
            Request::Chan(call) => {
                at_most_one(self.alloc, self.chans.blocker(thread, call.get()))
            }
            _ => Ok(Vec::new(self.alloc)),
        }
    }

    // The thread that is to answer by slot `n`.
    fn target(&self, n: u64) -> Option<u32>
        ensures { result ≡ target_in (slot_of self.now.posts.slots n) }
    {
        let slot = self.posts.slot(n)?;
        Some(slot.target)
    }

    // Those threads that live.
    fn living(&self, threads: &[u32]) -> Result<Vec<u32>, NoMemory>
        ensures { IfOk result (λ living. living.items ≡ filter (λ u. is_living self.now.rows u) threads.now) }
    {
        let mut living = Vec::new(self.alloc);
        for thread in threads {
            if self.lives(*thread) {
                living.push(*thread)?;
            }
        }
        Ok(living)
    }
}

// A thread, if there is one.
fn at_most_one(alloc: Global, thread: Option<u32>) -> Result<Vec<u32>, NoMemory>
    ensures by_number { IfOk result (λ threads. IsStrictlyIncreasing threads.items) }
    ensures exactly { IfOk result (λ threads.
        (u : ℕ) → Contains threads.items u ↔ Contains (option_to_list thread) u) }
{
    let mut threads = Vec::new(alloc);
    if let Some(thread) = thread {
        threads.push(thread)?;
    }
    Ok(threads)
}
