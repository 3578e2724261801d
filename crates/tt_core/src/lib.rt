//! A run of a script, stepped one action at a time: its interpreters over what they share and its devices (thread(n)).
#![tactic(auto)]

mod began;
mod crew;
mod system;
mod told;

pub use began::Began;
pub use system::System;
pub use told::Told;
pub use tt_interp::Setup;
pub use tt_run::{NewFault, StepFault};
