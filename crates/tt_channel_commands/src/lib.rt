//! What the words of commands on channels mean (puts(n), gets(n), eof(n), close(n), chan(n), thread(n)).
#![tactic(auto)]

mod command;
mod moving;
mod standard;
mod streams;

pub use command::ChannelCommand;
