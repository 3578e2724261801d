//! Standard input by lines, over bytes that are read ahead of it.
#![tactic(auto)]

mod ahead;
mod fault;
pub mod laws;

pub use ahead::Ahead;
pub use fault::LineFault;
