use rand_core::utils::NextWord;
use rand_pcg::Lcg64Xsh32;
use std::alloc::Global;
use tt_core::System;
use tt_devices::{Sink, Source};
use tt_text::NoMemory;

/// Priorities of threads: random ones, of which that of the thread that would go on is lowered below all others at a
/// few places, as the algorithm of Burckhardt and others does (PCT, 2010).
#[derive(Drop)]
pub(crate) struct Priorities {
    generator: Lcg64Xsh32,
    /// Of the threads from 1 on that were met.
    of: Vec<u64>,
    /// The places at which one is lowered, counted in steps.
    places: Vec<u64>,
    /// How many steps were chosen.
    step: u64,
    /// What the next lowered priority is; each is below those before.
    next_low: u64,
}

/// What a priority that was never lowered is at least.
const HIGH: u64 = 1 << 32;

impl Priorities {
    /// Priorities that are lowered at so many random places among so many steps.
    ///
    /// `NoMemory` if memory for the places is refused.
    pub(crate) fn new(
        alloc: Global,
        generator: &mut Lcg64Xsh32,
        switches: u32,
        steps: u64,
    ) -> Result<Self, NoMemory> {
        let mut places = Vec::new(alloc);
        for _ in 0..switches {
            places.push(place_among(steps, generator.next_word()))?;
        }
        Ok(Priorities {
            generator: generator.clone()?,
            of: Vec::new(alloc),
            places,
            step: 0,
            next_low: HIGH - 1,
        })
    }

    /// The thread of the next step: of those that can take one that with the greatest priority. `None` exactly if none
    /// can.
    ///
    /// `NoMemory` if memory for a priority is refused.
    pub(crate) fn next<S: Source, K: Sink, E: Sink>(
        &mut self,
        system: &System<S, K, E>,
    ) -> Result<Option<u32>, NoMemory> {
        let Some(thread) = self.greatest(system)? else {
            return Ok(None);
        };
        let lowers = self.places.as_slice().contains(&self.step);
        self.step = self.step.saturating_add(1);
        if !lowers {
            return Ok(Some(thread));
        }
        self.lower(thread);
        self.greatest(system)
    }

    /// Of the threads that can take a step that with the greatest priority.
    fn greatest<S: Source, K: Sink, E: Sink>(
        &mut self,
        system: &System<S, K, E>,
    ) -> Result<Option<u32>, NoMemory> {
        let Some(first) = system.next_enabled(0) else {
            return Ok(None);
        };
        let mut best = first;
        let mut most = self.priority(first)?;
        let mut last = first;
        while let Some(thread) = system.next_enabled(last) {
            if thread <= last {
                break;
            }
            let priority = self.priority(thread)?;
            if priority > most {
                best = thread;
                most = priority;
            }
            last = thread;
        }
        Ok(Some(best))
    }

    /// The priority of a thread, drawn if it is new.
    fn priority(&mut self, thread: u32) -> Result<u64, NoMemory> {
        let place = thread as usize;
        while self.of.len() <= place {
            let word = u64::from(self.generator.next_word());
            self.of.push(HIGH + word)?;
        }
        Ok(self.of[place])
    }

    /// Lowers the priority of a thread that was met below all others.
    fn lower(&mut self, thread: u32) {
        let low = self.next_low;
        if let Some(priority) = self.of.get_mut(thread as usize) {
            *priority = low;
        }
        self.next_low = low.saturating_sub(1);
    }
}

/// The place among so many steps that a random word gives.
fn place_among(steps: u64, word: u32) -> u64 {
    if steps == 0 {
        return 0;
    }
    u64::from(word) % steps
}
