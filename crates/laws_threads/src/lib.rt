//! How many threads there are, in every list of actions of threads. Nothing runs here.
#![tactic(auto)]

pub mod laws;
