//! The machine that a script runs on: its threads, what they share, what they read and write, step by step (thread(n)).
#![tactic(auto)]

pub mod laws;
