//! The command dict(n) over what one interpreter keeps of variables, but for its loops, which evaluate scripts.
#![tactic(auto)]

mod command;

pub use command::run;
