ghost use Rattle.std.specs.Prelude.{◌≡◌, IfOk};
ghost use Rattle.tt_channel_commands.specs.Channels as table;
ghost use Rattle.tt_command_tables.specs.Rows.{meaning_by};

use crate::{moving, streams};
use std::alloc::Global;
use tt_command_tables::{Call, Command, Row, command_named};
use tt_text::{NoMemory, Text};

/// A command on channels (puts(n), gets(n), eof(n), close(n), chan(n), thread(n)).
#[derive(Clone, Copy, Debug, PartialEq, Eq)]
pub enum ChannelCommand {
    Puts,
    Gets,
    Eof,
    Close,
    Pipe,
    Detach,
    Attach,
    Transfer,
}

const COMMANDS: [ChannelCommand; 8] = [
    ChannelCommand::Puts,
    ChannelCommand::Gets,
    ChannelCommand::Eof,
    ChannelCommand::Close,
    ChannelCommand::Pipe,
    ChannelCommand::Detach,
    ChannelCommand::Attach,
    ChannelCommand::Transfer,
];

impl Command for ChannelCommand {
    ghost name_of = { λ command. (table.channel_row command).name };

    ghost usage_of = { λ command. (table.channel_row command).usage };

    fn row(self) -> Row {
        match self {
            ChannelCommand::Puts => Row::new(b"puts", b"puts ?-nonewline? ?channelId? string"),
            ChannelCommand::Gets => Row::new(b"gets", b"gets channelId ?varName?"),
            ChannelCommand::Eof => Row::new(b"eof", b"eof channelId"),
            ChannelCommand::Close => Row::new(b"close", b"close channelId"),
            ChannelCommand::Pipe => Row::new(b"chan", b"chan pipe"),
            ChannelCommand::Detach => Row::new(b"thread::detach", b"thread::detach c"),
            ChannelCommand::Attach => Row::new(b"thread::attach", b"thread::attach c"),
            ChannelCommand::Transfer => Row::new(b"thread::transfer", b"thread::transfer id c"),
        }
    }
}

impl ChannelCommand {
    /// The command of this name.
    pub fn named(name: &[u8]) -> Option<Self>
        ensures { result ≡ table.channel_command name.now }
    {
        command_named(&COMMANDS, name)
    }

    /// What the words after its name mean in thread `me`.
    ///
    /// `NoMemory` if memory is refused.
    pub fn call(self, alloc: Global, words: &[Text], me: u32) -> Result<Call, NoMemory>
        ensures { IfOk result (λ call. call ≡ meaning_by (table.channel_row self) me words.now) }
    {
        let usage = self.row().usage;
        match self {
            ChannelCommand::Puts => streams::puts(alloc, usage, words),
            ChannelCommand::Gets => streams::gets(alloc, usage, words),
            ChannelCommand::Eof => streams::eof(alloc, usage, words),
            ChannelCommand::Close => moving::close(alloc, usage, words),
            ChannelCommand::Pipe => moving::channel_pipe(alloc, usage, words),
            ChannelCommand::Detach => moving::detach(alloc, usage, words),
            ChannelCommand::Attach => moving::attach(alloc, usage, words),
            ChannelCommand::Transfer => moving::transfer(alloc, usage, words),
        }
    }
}
