//! Which threads are caught in a circle of waiting: those that wait, through others, for themselves.
#![tactic(auto)]

mod circles;
mod closing;
pub mod laws;
mod marks;
mod rows;
#[cfg(test)]
mod tests;
mod threads;
mod words;

pub use circles::{Edge, caught};
