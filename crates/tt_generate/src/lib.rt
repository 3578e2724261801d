//! Scripts that are made of a number: the same number gives the same script.
#![tactic(auto)]

pub mod laws;
mod script;

pub use script::workload;
