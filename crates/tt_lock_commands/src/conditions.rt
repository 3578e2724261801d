//! thread::cond.
ghost use Rattle.std.specs.Prelude.{◌≡◌, IfOk};
ghost use Rattle.tt_calls.specs.declared.lock_call.Family.TheVariants.{Condition};
ghost use Rattle.tt_calls.specs.declared.lock_call.Kind.TheVariants as kind;
ghost use Rattle.tt_calls.specs.declared.lock_call.LockCall.TheVariants as lock;
ghost use Rattle.tt_lock_commands.specs.Locks as table;
ghost use Rattle.tt_lock_commands.specs.Locks.{of_condition};
ghost use Rattle.tt_command_tables.specs.Rows.{meaning_by};
ghost use Rattle.tt_command_tables.specs.Usages.{wrong_number};

use crate::asking::asks_mutex;
use std::alloc::Global;
use tt_calls::{Family, Kind, LockCall};
use tt_command_tables::{
    Call, Command, Row, Then, asks_lock, bad_option, command_named, wrong_number,
};
use tt_text::{NoMemory, Text};

/// A subcommand of `thread::cond` (thread(n)).
#[derive(Clone, Copy, Debug, PartialEq, Eq)]
pub(crate) enum ConditionCommand {
    Create,
    Destroy,
    Notify,
    Wait,
}

const COMMANDS: [ConditionCommand; 4] = [
    ConditionCommand::Create,
    ConditionCommand::Destroy,
    ConditionCommand::Notify,
    ConditionCommand::Wait,
];

impl Command for ConditionCommand {
    ghost name_of = { λ command. (table.condition_row command).name };

    ghost usage_of = { λ command. (table.condition_row command).usage };

    fn row(self) -> Row {
        match self {
            ConditionCommand::Create => Row::new(b"create", b"thread::cond create"),
            ConditionCommand::Destroy => Row::new(b"destroy", b"thread::cond destroy c"),
            ConditionCommand::Notify => Row::new(b"notify", b"thread::cond notify c"),
            ConditionCommand::Wait => Row::new(b"wait", b"thread::cond wait c m"),
        }
    }
}

pub(crate) fn conditions(
    alloc: Global,
    usage: &[u8],
    words: &[Text],
    me: u32,
) -> Result<Call, NoMemory>
    ensures { IfOk result (λ call. call ≡ table.conditions me (wrong_number usage.now) words.now) }
{
    let [sub, words @ ..] = words else {
        return wrong_number(alloc, usage);
    };
    match command_named(&COMMANDS, sub.as_bytes()) {
        Some(command) => call(alloc, command, words, me),
        None => bad_option(alloc, sub.as_bytes()),
    }
}

fn call(alloc: Global, command: ConditionCommand, words: &[Text], me: u32) -> Result<Call, NoMemory>
    ensures { IfOk result (λ call. call ≡ meaning_by (table.condition_row command) me words.now) }
{
    let usage = command.row().usage;
    match command {
        ConditionCommand::Create => create(alloc, usage, words),
        ConditionCommand::Destroy => destroy(alloc, usage, words),
        ConditionCommand::Notify => notify(alloc, usage, words),
        ConditionCommand::Wait => wait(alloc, usage, words),
    }
}

fn create(alloc: Global, usage: &[u8], words: &[Text]) -> Result<Call, NoMemory>
    ensures { IfOk result (λ call. call ≡ table.create kind.Condition (wrong_number usage.now) words.now) }
{
    match words {
        [] => {
            let call = LockCall::Create {
                kind: Kind::Condition,
            };
            asks_lock(alloc, call, Then::Value)
        }
        _ => wrong_number(alloc, usage),
    }
}

fn destroy(alloc: Global, usage: &[u8], words: &[Text]) -> Result<Call, NoMemory>
    ensures { IfOk result (λ call. call ≡ of_condition (lock.Destroy Condition) (wrong_number usage.now) words.now) }
{
    match words {
        [id] => {
            let call = LockCall::Destroy {
                family: Family::Condition,
                id: id.copy()?,
            };
            asks_lock(alloc, call, Then::Value)
        }
        _ => wrong_number(alloc, usage),
    }
}

fn notify(alloc: Global, usage: &[u8], words: &[Text]) -> Result<Call, NoMemory>
    ensures { IfOk result (λ call. call ≡ of_condition lock.Notify (wrong_number usage.now) words.now) }
{
    match words {
        [id] => {
            let call = LockCall::Notify { id: id.copy()? };
            asks_lock(alloc, call, Then::Value)
        }
        _ => wrong_number(alloc, usage),
    }
}

fn wait(alloc: Global, usage: &[u8], words: &[Text]) -> Result<Call, NoMemory>
    ensures { IfOk result (λ call. call ≡ table.wait (wrong_number usage.now) words.now) }
{
    match words {
        [cond, mutex] => {
            let call = LockCall::CondWait {
                cond: cond.copy()?,
                mutex: mutex.copy()?,
                after: None,
            };
            asks_mutex(alloc, mutex.as_bytes(), call, Then::Retake)
        }
        _ => wrong_number(alloc, usage),
    }
}
