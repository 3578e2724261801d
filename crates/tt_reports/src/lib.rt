//! The texts of the reports on a run: who waits for whom, and which steps on shared arrays nothing orders.
#![tactic(auto)]

mod races;
#[cfg(test)]
mod tests;
mod waiting;
mod waits;

pub use races::races_text;
pub use waiting::Waiting;
pub use waits::waits_text;
