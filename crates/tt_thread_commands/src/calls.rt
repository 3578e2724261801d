//! Commands that ask once (thread(n), exit(n)).
ghost use Rattle.std.specs.Prelude.{◌≡◌, IfOk};
ghost use Rattle.tt_command_tables.specs.Flags.{before_last};
ghost use Rattle.tt_command_tables.specs.Usages.{wrong_number};
ghost use Rattle.tt_thread_commands.specs.Threads as threads;
ghost use Rattle.tt_number.specs.Numerals.{whole_of};

use std::alloc::Global;
use tt_calls::Request;
use tt_command_tables::{
    Call, Flag, Here, Then, asks, bad, bad_option, first_unknown, front, has, wrong_number,
};
use tt_ids::{IdKind, id_text};
use tt_number::read_whole;
use tt_text::{NoMemory, Text};

const CREATE: [Flag; 2] = [Flag::Joinable, Flag::Preserved];

pub(crate) fn create(alloc: Global, usage: &[u8], words: &[Text]) -> Result<Call, NoMemory>
    ensures { IfOk result (λ call. call ≡ threads.create (wrong_number usage.now) words.now) }
{
    if let Some(word) = first_unknown(&CREATE, 0, words) {
        return bad_option(alloc, word.as_bytes());
    }
    let (options, words) = words.split_at(front(&CREATE, 0, words));
    create_words(alloc, usage, options, words)
}

fn create_words(
    alloc: Global,
    usage: &[u8],
    options: &[Text],
    words: &[Text],
) -> Result<Call, NoMemory>
    ensures { IfOk result (λ call. call ≡ threads.create_words (wrong_number usage.now) options.now words.now) }
{
    match words {
        [] => creates(alloc, options, b"thread::wait"),
        [script] => creates(alloc, options, script.as_bytes()),
        _ => wrong_number(alloc, usage),
    }
}

fn creates(alloc: Global, options: &[Text], script: &[u8]) -> Result<Call, NoMemory>
    ensures { IfOk result (λ call. call ≡ threads.creates options.now script.now) }
{
    let request = Request::Create {
        joinable: has(Flag::Joinable, options),
        preserved: has(Flag::Preserved, options),
        script: Text::from_bytes(alloc, script)?,
    };
    asks(alloc, request, Then::Value)
}

pub(crate) fn preserve(alloc: Global, usage: &[u8], words: &[Text]) -> Result<Call, NoMemory>
    ensures { IfOk result (λ call. call ≡ threads.preserve (wrong_number usage.now) words.now) }
{
    match words {
        [] => {
            let id = Text::new(alloc);
            asks(alloc, Request::Preserve { id }, Then::Value)
        }
        [id] => preserves(alloc, id.as_bytes()),
        _ => wrong_number(alloc, usage),
    }
}

fn preserves(alloc: Global, id: &[u8]) -> Result<Call, NoMemory>
    ensures { IfOk result (λ call. call ≡ threads.preserves id.now) }
{
    match id {
        [] => bad(alloc, b"thread \"\" does not exist"),
        [_, ..] => {
            let id = Text::from_bytes(alloc, id)?;
            asks(alloc, Request::Preserve { id }, Then::Value)
        }
    }
}

pub(crate) fn id(alloc: Global, usage: &[u8], words: &[Text], me: u32) -> Result<Call, NoMemory>
    ensures { IfOk result (λ call. call ≡ threads.id me (wrong_number usage.now) words.now) }
{
    match words {
        [] => {
            let id = id_text(alloc, IdKind::Thread, u64::from(me))?;
            Ok(Call::Here(Here::Local(id)))
        }
        _ => wrong_number(alloc, usage),
    }
}

pub(crate) fn names(alloc: Global, usage: &[u8], words: &[Text]) -> Result<Call, NoMemory>
    ensures { IfOk result (λ call. call ≡ threads.names (wrong_number usage.now) words.now) }
{
    match words {
        [] => asks(alloc, Request::Names, Then::Value),
        _ => wrong_number(alloc, usage),
    }
}

pub(crate) fn exists(alloc: Global, usage: &[u8], words: &[Text]) -> Result<Call, NoMemory>
    ensures { IfOk result (λ call. call ≡ threads.exists (wrong_number usage.now) words.now) }
{
    match words {
        [id] => {
            let id = id.copy()?;
            asks(alloc, Request::Exists { id }, Then::Value)
        }
        _ => wrong_number(alloc, usage),
    }
}

pub(crate) fn join(alloc: Global, usage: &[u8], words: &[Text]) -> Result<Call, NoMemory>
    ensures { IfOk result (λ call. call ≡ threads.join (wrong_number usage.now) words.now) }
{
    match words {
        [id] => {
            let id = id.copy()?;
            asks(alloc, Request::Join { id }, Then::AwaitEnd(None))
        }
        _ => wrong_number(alloc, usage),
    }
}

pub(crate) fn errorproc(alloc: Global, usage: &[u8], words: &[Text]) -> Result<Call, NoMemory>
    ensures { IfOk result (λ call. call ≡ threads.errorproc (wrong_number usage.now) words.now) }
{
    match words {
        [] => asks(alloc, Request::ErrorProc { name: None }, Then::Value),
        [name] => {
            let name = Some(name.copy()?);
            asks(alloc, Request::ErrorProc { name }, Then::Value)
        }
        _ => wrong_number(alloc, usage),
    }
}

pub(crate) fn broadcast(alloc: Global, usage: &[u8], words: &[Text]) -> Result<Call, NoMemory>
    ensures { IfOk result (λ call. call ≡ threads.broadcast (wrong_number usage.now) words.now) }
{
    match words {
        [script] => {
            let script = script.copy()?;
            asks(alloc, Request::Broadcast { script }, Then::Value)
        }
        _ => wrong_number(alloc, usage),
    }
}

pub(crate) fn thread_exit(alloc: Global, usage: &[u8], words: &[Text]) -> Result<Call, NoMemory>
    ensures { IfOk result (λ call. call ≡ threads.thread_exit (wrong_number usage.now) words.now) }
{
    match words {
        [] => asks(alloc, Request::End { code: 0 }, Then::Value),
        [code] => ends(alloc, code.as_bytes()),
        _ => wrong_number(alloc, usage),
    }
}

fn ends(alloc: Global, code: &[u8]) -> Result<Call, NoMemory>
    ensures { IfOk result (λ call. call ≡ threads.ends code.now (whole_of code.now)) }
{
    match read_whole(code) {
        Ok(code) => asks(alloc, Request::End { code }, Then::Value),
        Err(fault) => Ok(Call::Bad(fault.message(alloc, code)?)),
    }
}

pub(crate) fn exit(alloc: Global, usage: &[u8], words: &[Text]) -> Result<Call, NoMemory>
    ensures { IfOk result (λ call. call ≡ threads.exit (wrong_number usage.now) words.now) }
{
    match words {
        [] => asks(alloc, Request::Exit { code: 0 }, Then::Value),
        [code] => exits(alloc, code.as_bytes()),
        _ => wrong_number(alloc, usage),
    }
}

fn exits(alloc: Global, code: &[u8]) -> Result<Call, NoMemory>
    ensures { IfOk result (λ call. call ≡ threads.exits code.now (whole_of code.now)) }
{
    match read_whole(code) {
        Ok(code) => asks(alloc, Request::Exit { code }, Then::Value),
        Err(fault) => Ok(Call::Bad(fault.message(alloc, code)?)),
    }
}
