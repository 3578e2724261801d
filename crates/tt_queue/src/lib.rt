//! The queue of events of a thread (thread(n)).
#![tactic(auto)]

mod queue;

pub use queue::Queue;
