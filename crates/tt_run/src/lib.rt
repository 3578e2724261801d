//! What a run stands on between its steps: what its threads share, its schedule, its devices, and the fault that it
//! met.
#![tactic(auto)]

mod desk;
mod devices;
mod fault;

pub use desk::{Acted, Desk};
pub use fault::{NewFault, StepFault};
