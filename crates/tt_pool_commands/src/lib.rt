//! What the words of commands on pools of workers mean (tpool(n)).
#![tactic(auto)]

mod calls;
mod command;
mod jobs;
mod making;

pub use command::PoolCommand;
