ghost use Rattle.std.specs.Prelude.{◌≡◌, IfOk};
ghost use Rattle.tt_lock_commands.specs.Locks as table;
ghost use Rattle.tt_command_tables.specs.Rows.{meaning_by};

use crate::{conditions, holding, mutexes, read_writes};
use std::alloc::Global;
use tt_command_tables::{Call, Command, Row, command_named};
use tt_text::{NoMemory, Text};

/// A command on locks (thread(n)).
#[derive(Clone, Copy, Debug, PartialEq, Eq)]
pub enum LockCommand {
    Mutex,
    ReadWrite,
    Condition,
    Eval,
}

const COMMANDS: [LockCommand; 4] = [
    LockCommand::Mutex,
    LockCommand::ReadWrite,
    LockCommand::Condition,
    LockCommand::Eval,
];

impl Command for LockCommand {
    ghost name_of = { λ command. (table.lock_row command).name };

    ghost usage_of = { λ command. (table.lock_row command).usage };

    fn row(self) -> Row {
        match self {
            LockCommand::Mutex => Row::new(b"thread::mutex", b"thread::mutex create ?-recursive?"),
            LockCommand::ReadWrite => Row::new(b"thread::rwmutex", b"thread::rwmutex create"),
            LockCommand::Condition => Row::new(b"thread::cond", b"thread::cond create"),
            LockCommand::Eval => Row::new(b"thread::eval", b"thread::eval ?-lock m? arg ?arg ...?"),
        }
    }
}

impl LockCommand {
    /// The command of this name.
    pub fn named(name: &[u8]) -> Option<Self>
        ensures { result ≡ table.lock_command name.now }
    {
        command_named(&COMMANDS, name)
    }

    /// What the words after its name mean in thread `me`.
    ///
    /// `NoMemory` if memory is refused.
    pub fn call(self, alloc: Global, words: &[Text], me: u32) -> Result<Call, NoMemory>
        ensures { IfOk result (λ call. call ≡ meaning_by (table.lock_row self) me words.now) }
    {
        let usage = self.row().usage;
        match self {
            LockCommand::Mutex => mutexes::mutexes(alloc, usage, words, me),
            LockCommand::ReadWrite => read_writes::read_writes(alloc, usage, words, me),
            LockCommand::Condition => conditions::conditions(alloc, usage, words, me),
            LockCommand::Eval => holding::eval(alloc, usage, words),
        }
    }
}
