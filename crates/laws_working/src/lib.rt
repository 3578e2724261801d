//! How workers of pools ask for jobs, in every run of a script. Nothing runs here.
#![tactic(auto)]

pub mod laws;
