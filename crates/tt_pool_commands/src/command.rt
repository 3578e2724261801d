ghost use Rattle.std.specs.Prelude.{◌≡◌, IfOk};
ghost use Rattle.tt_pool_commands.specs.Pools as table;
ghost use Rattle.tt_command_tables.specs.Rows.{meaning_by};

use crate::{calls, jobs, making};
use std::alloc::Global;
use tt_command_tables::{Call, Command, Row, command_named};
use tt_text::{NoMemory, Text};

/// A command on pools of workers (tpool(n)).
#[derive(Clone, Copy, Debug, PartialEq, Eq)]
pub enum PoolCommand {
    Create,
    Names,
    Post,
    Wait,
    Cancel,
    Get,
    Preserve,
    Release,
    Suspend,
    Resume,
}

const COMMANDS: [PoolCommand; 10] = [
    PoolCommand::Create,
    PoolCommand::Names,
    PoolCommand::Post,
    PoolCommand::Wait,
    PoolCommand::Cancel,
    PoolCommand::Get,
    PoolCommand::Preserve,
    PoolCommand::Release,
    PoolCommand::Suspend,
    PoolCommand::Resume,
];

impl Command for PoolCommand {
    ghost name_of = { λ command. (table.pool_row command).name };

    ghost usage_of = { λ command. (table.pool_row command).usage };

    fn row(self) -> Row {
        match self {
            PoolCommand::Create => Row::new(
                b"tpool::create",
                b"tpool::create ?-minworkers n? ?-maxworkers n? ?-idletime n? ?-initcmd s? ?-exitcmd s?",
            ),
            PoolCommand::Names => Row::new(b"tpool::names", b"tpool::names"),
            PoolCommand::Post => Row::new(
                b"tpool::post",
                b"tpool::post ?-detached? ?-nowait? pool script",
            ),
            PoolCommand::Wait => Row::new(b"tpool::wait", b"tpool::wait pool jobs ?var?"),
            PoolCommand::Cancel => Row::new(b"tpool::cancel", b"tpool::cancel pool jobs ?var?"),
            PoolCommand::Get => Row::new(b"tpool::get", b"tpool::get pool job"),
            PoolCommand::Preserve => Row::new(b"tpool::preserve", b"tpool::preserve pool"),
            PoolCommand::Release => Row::new(b"tpool::release", b"tpool::release pool"),
            PoolCommand::Suspend => Row::new(b"tpool::suspend", b"tpool::suspend pool"),
            PoolCommand::Resume => Row::new(b"tpool::resume", b"tpool::resume pool"),
        }
    }
}

impl PoolCommand {
    /// The command of this name.
    pub fn named(name: &[u8]) -> Option<Self>
        ensures { result ≡ table.pool_command name.now }
    {
        command_named(&COMMANDS, name)
    }

    /// What the words after its name mean in thread `me`.
    ///
    /// `NoMemory` if memory is refused.
    pub fn call(self, alloc: Global, words: &[Text], me: u32) -> Result<Call, NoMemory>
        ensures { IfOk result (λ call. call ≡ meaning_by (table.pool_row self) me words.now) }
    {
        let usage = self.row().usage;
        match self {
            PoolCommand::Create => making::create(alloc, usage, words),
            PoolCommand::Names => calls::names(alloc, usage, words),
            PoolCommand::Post => jobs::post(alloc, usage, words),
            PoolCommand::Wait => jobs::wait(alloc, usage, words),
            PoolCommand::Cancel => jobs::cancel(alloc, usage, words),
            PoolCommand::Get => jobs::get(alloc, usage, words),
            PoolCommand::Preserve => calls::preserve(alloc, usage, words),
            PoolCommand::Release => calls::release(alloc, usage, words),
            PoolCommand::Suspend => calls::suspend(alloc, usage, words, true),
            PoolCommand::Resume => calls::suspend(alloc, usage, words, false),
        }
    }
}
