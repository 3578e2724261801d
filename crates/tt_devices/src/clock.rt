use std::sync::atomic::{AtomicU64, Ordering};
use std::thread::sleep;
use std::time::{Clock as SystemClock, Duration};

/// What reports the moment and waits for one, both in milliseconds. Nothing is promised of it: a clock may fall, stand
/// still or jump, and a wait may end early or late.
pub trait Clock {
    /// The moment it is.
    fn now(&self) -> u64;

    /// Waits until about this moment.
    fn wait(&self, moment: u64);
}

/// The clock of the system, which counts from a start of its own. It answers 0 if the system's clock fails.
#[derive(Drop)]
pub struct StdClock<'a, R: SystemClock> {
    system: &'a R,
}

impl<'a, R: SystemClock> StdClock<'a, R> {
    /// The clock of this system.
    pub fn new(system: &'a R) -> Self {
        StdClock { system }
    }
}

impl<R: SystemClock> Clock for StdClock<'_, R> {
    fn now(&self) -> u64 {
        let time = self.system.monotonic();
        time.map_or(
            0,
            |time| u64::try_from(time.as_millis()).unwrap_or(u64::MAX),
        )
    }

    /// Sleeps once, for the milliseconds by which the moment is above what it reports now.
    fn wait(&self, moment: u64) {
        let left = moment.saturating_sub(self.now());
        if left > 0 {
            sleep(self.system, Duration::from_millis(left));
        }
    }
}

/// A clock for tests: it goes on by the same step each time that it is asked, and waits for nothing.
#[derive(Debug, Drop)]
pub struct StepClock {
    step: u64,
    count: AtomicU64,
}

impl StepClock {
    /// A clock that counts from 0, by this step.
    pub fn new(step: u64) -> StepClock {
        StepClock {
            step,
            count: AtomicU64::new(0),
        }
    }
}

impl Clock for StepClock {
    /// Adds the step to the count, up to the greatest number, and answers it.
    fn now(&self) -> u64 {
        let step = self.step;
        let more = |count: u64| Some(count.saturating_add(step));
        let before = self
            .count
            .fetch_update(Ordering::Relaxed, Ordering::Relaxed, more);
        before.unwrap_or(u64::MAX).saturating_add(step)
    }

    fn wait(&self, _moment: u64) {}
}
