//! thread::rwmutex.
ghost use Rattle.std.specs.Prelude.{◌≡◌, IfOk};
ghost use Rattle.tt_calls.specs.declared.lock_call.Family.TheVariants.{ReadWrite};
ghost use Rattle.tt_calls.specs.declared.lock_call.Kind.TheVariants as kind;
ghost use Rattle.tt_calls.specs.declared.lock_call.LockCall.TheVariants as lock;
ghost use Rattle.tt_lock_commands.specs.Locks as table;
ghost use Rattle.tt_command_tables.specs.Rows.{meaning_by};
ghost use Rattle.tt_command_tables.specs.Usages.{wrong_number};

use crate::asking::asks_mutex;
use std::alloc::Global;
use tt_calls::{Family, Kind, LockCall};
use tt_command_tables::{
    Call, Command, Row, Then, asks_lock, bad_option, command_named, wrong_number,
};
use tt_text::{NoMemory, Text};

/// A subcommand of `thread::rwmutex` (thread(n)).
#[derive(Clone, Copy, Debug, PartialEq, Eq)]
pub(crate) enum ReadWriteCommand {
    Create,
    Destroy,
    ReadLock,
    WriteLock,
    Unlock,
}

const COMMANDS: [ReadWriteCommand; 5] = [
    ReadWriteCommand::Create,
    ReadWriteCommand::Destroy,
    ReadWriteCommand::ReadLock,
    ReadWriteCommand::WriteLock,
    ReadWriteCommand::Unlock,
];

impl Command for ReadWriteCommand {
    ghost name_of = { λ command. (table.read_write_row command).name };

    ghost usage_of = { λ command. (table.read_write_row command).usage };

    fn row(self) -> Row {
        match self {
            ReadWriteCommand::Create => Row::new(b"create", b"thread::rwmutex create"),
            ReadWriteCommand::Destroy => Row::new(b"destroy", b"thread::rwmutex destroy m"),
            ReadWriteCommand::ReadLock => Row::new(b"rlock", b"thread::rwmutex rlock m"),
            ReadWriteCommand::WriteLock => Row::new(b"wlock", b"thread::rwmutex wlock m"),
            ReadWriteCommand::Unlock => Row::new(b"unlock", b"thread::rwmutex unlock m"),
        }
    }
}

pub(crate) fn read_writes(
    alloc: Global,
    usage: &[u8],
    words: &[Text],
    me: u32,
) -> Result<Call, NoMemory>
    ensures { IfOk result (λ call. call ≡ table.read_writes me (wrong_number usage.now) words.now) }
{
    let [sub, words @ ..] = words else {
        return wrong_number(alloc, usage);
    };
    match command_named(&COMMANDS, sub.as_bytes()) {
        Some(command) => call(alloc, command, words, me),
        None => bad_option(alloc, sub.as_bytes()),
    }
}

fn call(alloc: Global, command: ReadWriteCommand, words: &[Text], me: u32) -> Result<Call, NoMemory>
    ensures { IfOk result (λ call. call ≡ meaning_by (table.read_write_row command) me words.now) }
{
    let usage = command.row().usage;
    match command {
        ReadWriteCommand::Create => create(alloc, usage, words),
        ReadWriteCommand::Destroy => destroy(alloc, usage, words),
        ReadWriteCommand::ReadLock => read_lock(alloc, usage, words),
        ReadWriteCommand::WriteLock => write_lock(alloc, usage, words),
        ReadWriteCommand::Unlock => unlock(alloc, usage, words),
    }
}

fn create(alloc: Global, usage: &[u8], words: &[Text]) -> Result<Call, NoMemory>
    ensures { IfOk result (λ call. call ≡ table.create kind.ReadWrite (wrong_number usage.now) words.now) }
{
    match words {
        [] => {
            let call = LockCall::Create {
                kind: Kind::ReadWrite,
            };
            asks_lock(alloc, call, Then::Value)
        }
        _ => wrong_number(alloc, usage),
    }
}

fn destroy(alloc: Global, usage: &[u8], words: &[Text]) -> Result<Call, NoMemory>
    ensures { IfOk result (λ call. call ≡ table.of_mutex (lock.Destroy ReadWrite) (wrong_number usage.now) words.now) }
{
    match words {
        [id] => {
            let call = LockCall::Destroy {
                family: Family::ReadWrite,
                id: id.copy()?,
            };
            asks_mutex(alloc, id.as_bytes(), call, Then::Value)
        }
        _ => wrong_number(alloc, usage),
    }
}

fn read_lock(alloc: Global, usage: &[u8], words: &[Text]) -> Result<Call, NoMemory>
    ensures { IfOk result (λ call. call ≡ table.of_mutex lock.ReadLock (wrong_number usage.now) words.now) }
{
    match words {
        [id] => {
            let call = LockCall::ReadLock { id: id.copy()? };
            asks_mutex(alloc, id.as_bytes(), call, Then::Value)
        }
        _ => wrong_number(alloc, usage),
    }
}

fn write_lock(alloc: Global, usage: &[u8], words: &[Text]) -> Result<Call, NoMemory>
    ensures { IfOk result (λ call. call ≡ table.of_mutex lock.WriteLock (wrong_number usage.now) words.now) }
{
    match words {
        [id] => {
            let call = LockCall::WriteLock { id: id.copy()? };
            asks_mutex(alloc, id.as_bytes(), call, Then::Value)
        }
        _ => wrong_number(alloc, usage),
    }
}

fn unlock(alloc: Global, usage: &[u8], words: &[Text]) -> Result<Call, NoMemory>
    ensures { IfOk result (λ call. call ≡ table.of_mutex (lock.Unlock ReadWrite) (wrong_number usage.now) words.now) }
{
    match words {
        [id] => {
            let call = LockCall::Unlock {
                family: Family::ReadWrite,
                id: id.copy()?,
            };
            asks_mutex(alloc, id.as_bytes(), call, Then::Value)
        }
        _ => wrong_number(alloc, usage),
    }
}
