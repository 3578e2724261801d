//! thread::mutex.
ghost use Rattle.std.specs.Prelude.{◌≡◌, IfOk};
ghost use Rattle.tt_calls.specs.declared.lock_call.Family.TheVariants.{Mutex};
ghost use Rattle.tt_calls.specs.declared.lock_call.LockCall.TheVariants as lock;
ghost use Rattle.tt_lock_commands.specs.Locks as table;
ghost use Rattle.tt_command_tables.specs.Rows.{meaning_by};
ghost use Rattle.tt_command_tables.specs.Usages.{wrong_number};

use crate::asking::asks_mutex;
use std::alloc::Global;
use tt_calls::{Family, Kind, LockCall};
use tt_command_tables::{
    Call, Command, Flag, Row, Then, asks_lock, bad_option, command_named, first_unknown, front,
    has, wrong_number,
};
use tt_text::{NoMemory, Text};

/// A subcommand of `thread::mutex` (thread(n)).
#[derive(Clone, Copy, Debug, PartialEq, Eq)]
pub(crate) enum MutexCommand {
    Create,
    Destroy,
    Lock,
    Unlock,
}

const COMMANDS: [MutexCommand; 4] = [
    MutexCommand::Create,
    MutexCommand::Destroy,
    MutexCommand::Lock,
    MutexCommand::Unlock,
];

const CREATE: [Flag; 1] = [Flag::Recursive];

impl Command for MutexCommand {
    ghost name_of = { λ command. (table.mutex_row command).name };

    ghost usage_of = { λ command. (table.mutex_row command).usage };

    fn row(self) -> Row {
        match self {
            MutexCommand::Create => Row::new(b"create", b"thread::mutex create ?-recursive?"),
            MutexCommand::Destroy => Row::new(b"destroy", b"thread::mutex destroy m"),
            MutexCommand::Lock => Row::new(b"lock", b"thread::mutex lock m"),
            MutexCommand::Unlock => Row::new(b"unlock", b"thread::mutex unlock m"),
        }
    }
}

pub(crate) fn mutexes(
    alloc: Global,
    usage: &[u8],
    words: &[Text],
    me: u32,
) -> Result<Call, NoMemory>
    ensures { IfOk result (λ call. call ≡ table.mutexes me (wrong_number usage.now) words.now) }
{
    let [sub, words @ ..] = words else {
        return wrong_number(alloc, usage);
    };
    match command_named(&COMMANDS, sub.as_bytes()) {
        Some(command) => call(alloc, command, words, me),
        None => bad_option(alloc, sub.as_bytes()),
    }
}

fn call(alloc: Global, command: MutexCommand, words: &[Text], me: u32) -> Result<Call, NoMemory>
    ensures { IfOk result (λ call. call ≡ meaning_by (table.mutex_row command) me words.now) }
{
    let usage = command.row().usage;
    match command {
        MutexCommand::Create => create(alloc, usage, words),
        MutexCommand::Destroy => destroy(alloc, usage, words),
        MutexCommand::Lock => lock(alloc, usage, words),
        MutexCommand::Unlock => unlock(alloc, usage, words),
    }
}

fn create(alloc: Global, usage: &[u8], words: &[Text]) -> Result<Call, NoMemory>
    ensures { IfOk result (λ call. call ≡ table.create_mutex (wrong_number usage.now) words.now) }
{
    if let Some(word) = first_unknown(&CREATE, 0, words) {
        return bad_option(alloc, word.as_bytes());
    }
    let (options, words) = words.split_at(front(&CREATE, 0, words));
    create_words(alloc, usage, options, words)
}

fn create_words(
    alloc: Global,
    usage: &[u8],
    options: &[Text],
    words: &[Text],
) -> Result<Call, NoMemory>
    ensures { IfOk result (λ call. call ≡ table.mutex_words (wrong_number usage.now) options.now words.now) }
{
    let kind = kind_by(options);
    match words {
        [] => asks_lock(alloc, LockCall::Create { kind }, Then::Value),
        _ => wrong_number(alloc, usage),
    }
}

fn kind_by(options: &[Text]) -> Kind
    ensures { result ≡ table.mutex_kind options.now }
{
    if has(Flag::Recursive, options) {
        Kind::Recursive
    } else {
        Kind::Exclusive
    }
}

fn destroy(alloc: Global, usage: &[u8], words: &[Text]) -> Result<Call, NoMemory>
    ensures { IfOk result (λ call. call ≡ table.of_mutex (lock.Destroy Mutex) (wrong_number usage.now) words.now) }
{
    match words {
        [id] => {
            let call = LockCall::Destroy {
                family: Family::Mutex,
                id: id.copy()?,
            };
            asks_mutex(alloc, id.as_bytes(), call, Then::Value)
        }
        _ => wrong_number(alloc, usage),
    }
}

fn lock(alloc: Global, usage: &[u8], words: &[Text]) -> Result<Call, NoMemory>
    ensures { IfOk result (λ call. call ≡ table.of_mutex lock.Lock (wrong_number usage.now) words.now) }
{
    match words {
        [id] => {
            let call = LockCall::Lock { id: id.copy()? };
            asks_mutex(alloc, id.as_bytes(), call, Then::Value)
        }
        _ => wrong_number(alloc, usage),
    }
}

fn unlock(alloc: Global, usage: &[u8], words: &[Text]) -> Result<Call, NoMemory>
    ensures { IfOk result (λ call. call ≡ table.of_mutex (lock.Unlock Mutex) (wrong_number usage.now) words.now) }
{
    match words {
        [id] => {
            let call = LockCall::Unlock {
                family: Family::Mutex,
                id: id.copy()?,
            };
            asks_mutex(alloc, id.as_bytes(), call, Then::Value)
        }
        _ => wrong_number(alloc, usage),
    }
}
