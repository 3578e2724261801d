//! What holds of every run of a script, along every schedule. Nothing runs here.
#![tactic(auto)]

pub mod laws;
