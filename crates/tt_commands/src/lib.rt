//! What the commands of threads ask, by the words that they are given (thread(n), tsv(n), tpool(n), chan(n), puts(n),
//! gets(n), vwait(n), update(n), exit(n)): the families of commands, one after the other.
#![tactic(auto)]

mod reading;

pub use reading::read_call;
pub use tt_command_tables::{Call, Goal, Here, Then};
