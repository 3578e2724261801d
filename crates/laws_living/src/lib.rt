//! In every run each thread that lives asks something. Nothing runs here.
#![tactic(auto)]

pub mod laws;
