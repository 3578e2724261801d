//! What the words of the command line ask for.
#![tactic(auto)]

mod asked;
mod command;
pub mod laws;
mod numbers;
mod parsing;
mod reading;
mod setting;
mod values;

pub use asked::{
    Asked, DEFAULT_WORKERS, Generate, MOST_STEPS, MOST_UNITS, MOST_WORKERS, Plain, Replay, Report,
    file, script,
};
pub use numbers::number;
pub use reading::{USAGE, read_words};
