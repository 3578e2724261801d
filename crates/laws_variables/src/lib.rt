//! What becomes of the variables that answers of posts go to. Nothing runs here.
#![tactic(auto)]

pub mod laws;
