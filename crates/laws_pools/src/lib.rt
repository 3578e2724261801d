//! What holds of the jobs of every pool, of every list of actions of threads. Nothing runs here.
#![tactic(auto)]

pub mod laws;
