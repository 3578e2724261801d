//! The pending timers of threads: of scripts, of sleeps and of waits for a condition (after(n); thread(n),
//! thread::cond).
#![tactic(auto)]

mod pending;
mod spot;
mod timer;
mod timers;

pub use timer::{Due, TimerKind};
pub use timers::Timers;

#[cfg(test)]
mod tests;
