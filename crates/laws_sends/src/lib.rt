//! What holds of every send, of every list of actions of threads. Nothing runs here.
#![tactic(auto)]

pub mod laws;
