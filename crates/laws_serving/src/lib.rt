//! What an evaluation serves, reply by reply. Nothing runs here.
#![tactic(auto)]

pub mod laws;
