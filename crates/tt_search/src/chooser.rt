use crate::priorities::Priorities;
use rand_core::SeedableRng;
use rand_core::utils::NextWord;
use rand_pcg::Lcg64Xsh32;
use std::alloc::Global;
use tt_core::System;
use tt_devices::{Sink, Source};
use tt_text::NoMemory;

/// How one run chooses the thread of each step.
#[derive(Drop)]
pub(crate) enum Chooser {
    /// With equal chances, of the threads that can take a step.
    Evenly(Lcg64Xsh32),
    /// By priorities, of which a few are lowered.
    ByPriority(Priorities),
}

impl Chooser {
    /// The chooser of the run with this number: runs with an odd number choose evenly, the others by priority, lowering
    /// one at so many places among so many steps. The same numbers give the same choices.
    ///
    /// `NoMemory` if memory for the places is refused.
    pub(crate) fn new(
        alloc: Global,
        seed: u64,
        run: u64,
        switches: u32,
        steps: u64,
    ) -> Result<Self, NoMemory> {
        let mut generator = Lcg64Xsh32::seed_from_u64(seed.wrapping_mul(STRIDE).wrapping_add(run));
        if run % 2 == 1 {
            return Ok(Chooser::Evenly(generator));
        }
        let priorities = Priorities::new(alloc, &mut generator, switches, steps)?;
        Ok(Chooser::ByPriority(priorities))
    }

    /// The thread of the next step; `None` exactly if no thread can take one.
    ///
    /// `NoMemory` if memory for a priority is refused.
    pub(crate) fn next<S: Source, K: Sink, E: Sink>(
        &mut self,
        system: &System<S, K, E>,
    ) -> Result<Option<u32>, NoMemory> {
        match self {
            Chooser::Evenly(generator) => Ok(any_thread(system, generator)),
            Chooser::ByPriority(priorities) => priorities.next(system),
        }
    }
}

/// What the numbers of runs with one seed more differ by, so that two seeds have no run in common among few.
const STRIDE: u64 = 0x9e37_79b9_7f4a_7c15;

/// One of the threads that can take a step, each with the same chance.
fn any_thread<S: Source, K: Sink, E: Sink>(
    system: &System<S, K, E>,
    generator: &mut Lcg64Xsh32,
) -> Option<u32> {
    let mut chosen = system.next_enabled(0)?;
    let mut last = chosen;
    let mut count = 1u32;
    while let Some(thread) = system.next_enabled(last) {
        if thread <= last {
            break;
        }
        count = count.saturating_add(1);
        if divides(count, generator.next_word()) {
            chosen = thread;
        }
        last = thread;
    }
    Some(chosen)
}

/// Whether a random word is a multiple of a count, which it is once in so many times.
fn divides(count: u32, word: u32) -> bool {
    count != 0 && word % count == 0
}
