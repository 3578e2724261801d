//! Who waits for another thread waits on while that one does nothing, whatever others do. Nothing runs here.
#![tactic(auto)]

pub mod laws;
