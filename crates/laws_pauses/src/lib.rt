//! That evaluation comes to a request or to its end. Nothing runs here.
#![tactic(auto)]

pub mod laws;
