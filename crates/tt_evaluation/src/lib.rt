//! Plans: how the evaluation of a language is defined, and an interpreter of it that stops at each thing it wants and
//! goes on with the answer. The language is a parameter.
#![tactic(auto)]

mod language;
pub mod laws;
mod machine;
mod stack;

pub use language::{Language, Move};
pub use machine::{Machine, outcome, request, resume, start};
pub use stack::{Halt, Pending, STEPS, Stack, begin, is_waiting, turn};
