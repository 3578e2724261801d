//! The slots in which threads wait for the results of the scripts that they sent (thread(n), thread::send).
#![tactic(auto)]

mod slot;
mod slots;

pub use slot::{Slot, SlotState};
pub use slots::Slots;
