//! What the words of commands on locks mean (thread(n), thread::mutex, thread::rwmutex, thread::cond, thread::eval).
#![tactic(auto)]

mod asking;
mod command;
mod conditions;
mod holding;
mod mutexes;
mod read_writes;

pub use command::LockCommand;
