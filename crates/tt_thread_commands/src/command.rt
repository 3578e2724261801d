ghost use Rattle.std.specs.Prelude.{◌≡◌, IfOk};
ghost use Rattle.tt_command_tables.specs.Rows.{meaning_by};
ghost use Rattle.tt_thread_commands.specs.Threads as table;

use crate::{calls, configuring, events, sending};
use std::alloc::Global;
use tt_command_tables::{Call, Command, Row, command_named};
use tt_text::{NoMemory, Text};

/// A command of threads (thread(n), vwait(n), update(n), exit(n)).
#[derive(Clone, Copy, Debug, PartialEq, Eq)]
pub enum ThreadCommand {
    Vwait,
    Update,
    Wait,
    Create,
    Preserve,
    Release,
    Id,
    Names,
    Exists,
    Join,
    Configure,
    ErrorProc,
    Send,
    Broadcast,
    ThreadExit,
    Exit,
}

const COMMANDS: [ThreadCommand; 16] = [
    ThreadCommand::Vwait,
    ThreadCommand::Update,
    ThreadCommand::Wait,
    ThreadCommand::Create,
    ThreadCommand::Preserve,
    ThreadCommand::Release,
    ThreadCommand::Id,
    ThreadCommand::Names,
    ThreadCommand::Exists,
    ThreadCommand::Join,
    ThreadCommand::Configure,
    ThreadCommand::ErrorProc,
    ThreadCommand::Send,
    ThreadCommand::Broadcast,
    ThreadCommand::ThreadExit,
    ThreadCommand::Exit,
];

impl Command for ThreadCommand {
    ghost name_of = { λ command. (table.thread_row command).name };

    ghost usage_of = { λ command. (table.thread_row command).usage };

    fn row(self) -> Row {
        match self {
            ThreadCommand::Vwait => Row::new(b"vwait", b"vwait name"),
            ThreadCommand::Update => Row::new(b"update", b"update"),
            ThreadCommand::Wait => Row::new(b"thread::wait", b"thread::wait"),
            ThreadCommand::Create => Row::new(
                b"thread::create",
                b"thread::create ?-joinable? ?-preserved? ?script?",
            ),
            ThreadCommand::Preserve => Row::new(b"thread::preserve", b"thread::preserve ?id?"),
            ThreadCommand::Release => Row::new(b"thread::release", b"thread::release ?-wait? ?id?"),
            ThreadCommand::Id => Row::new(b"thread::id", b"thread::id"),
            ThreadCommand::Names => Row::new(b"thread::names", b"thread::names"),
            ThreadCommand::Exists => Row::new(b"thread::exists", b"thread::exists id"),
            ThreadCommand::Join => Row::new(b"thread::join", b"thread::join id"),
            ThreadCommand::Configure => Row::new(
                b"thread::configure",
                b"thread::configure id ?option? ?value? ?option value ...?",
            ),
            ThreadCommand::ErrorProc => Row::new(b"thread::errorproc", b"thread::errorproc ?name?"),
            ThreadCommand::Send => Row::new(
                b"thread::send",
                b"thread::send ?-async? ?-head? id script ?varname?",
            ),
            ThreadCommand::Broadcast => Row::new(b"thread::broadcast", b"thread::broadcast script"),
            ThreadCommand::ThreadExit => Row::new(b"thread::exit", b"thread::exit ?status?"),
            ThreadCommand::Exit => Row::new(b"exit", b"exit ?returnCode?"),
        }
    }
}

impl ThreadCommand {
    /// The command of this name.
    pub fn named(name: &[u8]) -> Option<Self>
        ensures { result ≡ table.thread_command name.now }
    {
        command_named(&COMMANDS, name)
    }

    /// What the words after its name mean in thread `me`.
    ///
    /// `NoMemory` if memory is refused.
    pub fn call(self, alloc: Global, words: &[Text], me: u32) -> Result<Call, NoMemory>
        ensures { IfOk result (λ call. call ≡ meaning_by (table.thread_row self) me words.now) }
    {
        let usage = self.row().usage;
        match self {
            ThreadCommand::Vwait => events::vwait(alloc, usage, words),
            ThreadCommand::Update => events::update(alloc, usage, words),
            ThreadCommand::Wait => events::wait(alloc, usage, words),
            ThreadCommand::Create => calls::create(alloc, usage, words),
            ThreadCommand::Preserve => calls::preserve(alloc, usage, words),
            ThreadCommand::Release => sending::release(alloc, usage, words, me),
            ThreadCommand::Id => calls::id(alloc, usage, words, me),
            ThreadCommand::Names => calls::names(alloc, usage, words),
            ThreadCommand::Exists => calls::exists(alloc, usage, words),
            ThreadCommand::Join => calls::join(alloc, usage, words),
            ThreadCommand::Configure => configuring::configure(alloc, usage, words),
            ThreadCommand::ErrorProc => calls::errorproc(alloc, usage, words),
            ThreadCommand::Send => sending::send(alloc, usage, words, me),
            ThreadCommand::Broadcast => calls::broadcast(alloc, usage, words),
            ThreadCommand::ThreadExit => calls::thread_exit(alloc, usage, words),
            ThreadCommand::Exit => calls::exit(alloc, usage, words),
        }
    }
}
