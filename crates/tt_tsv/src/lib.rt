//! Shared variables: arrays of elements, and who holds them (tsv(n)).
#![tactic(auto)]

mod answers;
mod array;
mod array_calls;
mod arrays;
mod blocking;
mod change;
mod elements;
pub mod laws;
mod lists;
mod numbers;
mod popping;
mod row;
mod telling;
mod usage;
mod words;

pub use array::Array;
pub use arrays::Arrays;
pub use elements::Elements;
