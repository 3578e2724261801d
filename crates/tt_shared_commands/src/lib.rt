//! What the words of commands on shared variables mean (tsv(n)).
#![tactic(auto)]

mod array;
mod command;
mod counted;
mod running;
mod searching;

pub use command::SharedCommand;
