//! What happens to what threads share, action by action, and the laws of it over every list of actions. Nothing runs
//! here.
#![tactic(auto)]

pub mod laws;
