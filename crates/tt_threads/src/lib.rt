//! The table of threads: which there are, what became of them, and who holds them (thread(n)).
#![tactic(auto)]

mod answers;
mod configure;
mod find;
mod row;
mod threads;

pub use row::{Life, Row};
pub use threads::Threads;
