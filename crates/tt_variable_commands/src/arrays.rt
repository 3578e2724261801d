//! The command array(n), over the variables of one interpreter.

mod command;
mod messages;
mod patterns;
mod reading;
mod setting;
mod spots;
mod subcommand;
mod unsetting;

pub use command::run;
