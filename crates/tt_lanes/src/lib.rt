//! Scans and counts of bytes, many at a time.
#![tactic(auto)]

mod classes;
mod count;
mod scan;

pub use count::{count_chars, count_newlines};
pub use scan::{blank_run, next_brace, next_in_index, next_in_quotes, next_special};
