//! What the tables of commands of threads share (thread(n), tsv(n), tpool(n), chan(n)): names and usages, options
//! without a value, what words come to, and the errors of words that break a usage.
#![tactic(auto)]

mod answers;
mod call;
mod flags;
mod row;
mod table;

pub use answers::{
    asks, asks_chan, asks_lock, asks_pool, asks_tsv, bad, bad_option, bad_value, wrong_number,
};
pub use call::{Call, Goal, Here, Then};
pub use flags::{Flag, first_unknown, front, has, is_meant};
pub use row::Row;
pub use table::{Command, command_named};
