//! Pipes between threads: who owns their ends, and the bytes in them (chan(n); thread(n), thread::transfer).
#![tactic(auto)]

mod answers;
mod channel;
mod chans;
pub mod laws;
mod pipe;
mod refusals;

pub use channel::{Channel, End, Owner};
pub use chans::Chans;
pub use pipe::Pipe;
