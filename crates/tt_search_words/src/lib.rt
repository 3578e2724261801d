//! What the words of the command line of `tclsearch` ask for.
#![tactic(auto)]

mod asked;
pub mod laws;
mod parts;
mod places;
mod reading;
mod setting;
mod values;

pub use asked::{Difference, Search};
pub use reading::{USAGE, read_words};
