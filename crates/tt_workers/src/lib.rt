//! A run of a script on workers (thread(n)): each takes a thread that can go on, in a turn under one lock, and
//! evaluates it outside the lock up to what it asks next.
#![tactic(auto)]

mod boxed_interp;
mod carrier;
mod next;
mod note;
mod place;
mod ran;
mod resuming;
mod roster;
mod running;
mod tied;
mod world;

pub use boxed_interp::BoxedInterp;
pub use next::{Done, Next, Resumption, RunEnd, Task};
pub use note::{Held, Out};
pub use ran::Ran;
pub use running::run;
pub use tt_interp::Setup;
pub use tt_run::NewFault;
pub use world::World;
