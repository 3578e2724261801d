//! Dictionaries as pairs (dict(n)): a text is read as pairs of a key and a value, pairs are written as a text, and what
//! `dict for` goes over is read.
#![tactic(auto)]

mod dictionary;
pub mod laws;
mod looping;
mod reading;

pub use dictionary::Dictionary;
pub use looping::{Looping, read_loop};
pub use reading::{paired, read};
