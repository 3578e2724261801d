//! That all that a thread wants of what it keeps is answered. Nothing runs here.
#![tactic(auto)]

pub mod laws;
