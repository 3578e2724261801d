//! A debugging session over a recorded run: its commands go forth and back along the schedule, and show threads, queues,
//! shared arrays, and how much was written (thread(n)).
#![tactic(auto)]

mod command;
mod debug;
pub mod laws;
mod names;
mod showing;
mod threads;
mod walking;

pub use command::{Command, read_command};
pub use debug::Debug;
