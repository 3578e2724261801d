//! Which steps of a run are ordered before which, and the races on shared arrays: the steps that nothing orders.
#![tactic(auto)]

mod acquiring;
mod clocks;
mod finding;
mod kept;
mod known;
pub mod laws;
mod object;
mod objects;
mod order;
mod race;
mod releasing;
mod rows;
mod touched;
mod touching;

pub use object::Object;
pub use order::Order;
pub use race::{Race, Races};
pub use touched::Touched;

#[cfg(test)]
mod tests;
