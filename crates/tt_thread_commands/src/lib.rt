//! What the words of commands of threads mean (thread(n), vwait(n), update(n), exit(n)).
#![tactic(auto)]

mod calls;
mod command;
mod configuring;
mod events;
mod sending;

pub use command::ThreadCommand;
