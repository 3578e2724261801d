//! The commands that speak of oneself and of others: thread::send and thread::release.
ghost use Rattle.std.specs.Prelude.{◌≡◌, IfOk};
ghost use Rattle.tt_command_tables.specs.Usages.{wrong_number};
ghost use Rattle.tt_thread_commands.specs.Sending as sending;

use std::alloc::Global;
use tt_calls::{Mode, Request};
use tt_command_tables::{
    Call, Flag, Here, Then, asks, bad, bad_option, first_unknown, front, has, wrong_number,
};
use tt_ids::{IdKind, id_number};
use tt_text::{NoMemory, Text};

const SEND: [Flag; 2] = [Flag::Async, Flag::Head];

const RELEASE: [Flag; 1] = [Flag::Wait];

pub(crate) fn send(alloc: Global, usage: &[u8], words: &[Text], me: u32) -> Result<Call, NoMemory>
    ensures { IfOk result (λ call. call ≡ sending.send me (wrong_number usage.now) words.now) }
{
    if let Some(word) = first_unknown(&SEND, 2, words) {
        return bad_option(alloc, word.as_bytes());
    }
    let (options, words) = words.split_at(front(&SEND, 2, words));
    send_words(alloc, usage, options, words, me)
}

fn send_words(
    alloc: Global,
    usage: &[u8],
    options: &[Text],
    words: &[Text],
    me: u32,
) -> Result<Call, NoMemory>
    ensures { IfOk result (λ call. call ≡ sending.send_words me (wrong_number usage.now) options.now words.now) }
{
    match words {
        [id, script] => sends(alloc, options, id, script, None, me),
        [id, script, variable] => {
            let variable = Some(variable.copy()?);
            sends(alloc, options, id, script, variable, me)
        }
        _ => wrong_number(alloc, usage),
    }
}

fn sends(
    alloc: Global,
    options: &[Text],
    id: &Text,
    script: &Text,
    variable: Option<Text>,
    me: u32,
) -> Result<Call, NoMemory>
    ensures { IfOk result (λ call. call ≡ sending.sends me options.now id.now script.now variable) }
{
    let id = id.copy()?;
    let script = script.copy()?;
    let head = has(Flag::Head, options);
    if has(Flag::Async, options) {
        let request = Request::Send {
            id,
            script,
            mode: Mode::Later,
            variable,
            head,
        };
        return asks(alloc, request, Then::Value);
    }
    if is_id_of(me, id.as_bytes()) {
        return Ok(Call::Here(Here::Direct(script, variable)));
    }
    let request = Request::Send {
        id,
        script,
        mode: Mode::Waits,
        variable: None,
        head,
    };
    asks(alloc, request, Then::AwaitResult(variable))
}

fn is_id_of(me: u32, id: &[u8]) -> bool
    ensures { result ≡ sending.is_id_of me id.now }
{
    match id_number(IdKind::Thread, id) {
        Some(number) => number == u64::from(me),
        None => false,
    }
}

pub(crate) fn release(
    alloc: Global,
    usage: &[u8],
    words: &[Text],
    me: u32,
) -> Result<Call, NoMemory>
    ensures { IfOk result (λ call. call ≡ sending.release me (wrong_number usage.now) words.now) }
{
    if let Some(word) = first_unknown(&RELEASE, 0, words) {
        return bad_option(alloc, word.as_bytes());
    }
    let (options, words) = words.split_at(front(&RELEASE, 0, words));
    release_words(alloc, usage, options, words, me)
}

fn release_words(
    alloc: Global,
    usage: &[u8],
    options: &[Text],
    words: &[Text],
    me: u32,
) -> Result<Call, NoMemory>
    ensures { IfOk result (λ call. call ≡ sending.release_words me (wrong_number usage.now) options.now words.now) }
{
    match words {
        [] => {
            let id = Text::new(alloc);
            asks(alloc, Request::Release { id }, Then::Value)
        }
        [id] => releases(alloc, options, id.as_bytes(), me),
        _ => wrong_number(alloc, usage),
    }
}

fn releases(alloc: Global, options: &[Text], id: &[u8], me: u32) -> Result<Call, NoMemory>
    ensures { IfOk result (λ call. call ≡ sending.releases me options.now id.now) }
{
    match id {
        [] => bad(alloc, b"thread \"\" does not exist"),
        [_, ..] => {
            let then = after_release(me, has(Flag::Wait, options), id);
            let id = Text::from_bytes(alloc, id)?;
            asks(alloc, Request::Release { id }, then)
        }
    }
}

fn after_release(me: u32, waits: bool, id: &[u8]) -> Then
    ensures { result ≡ sending.after_release me waits id.now }
{
    if !waits {
        return Then::Value;
    }
    match other_thread(me, id) {
        Some(thread) => Then::AwaitEnd(Some(thread)),
        None => Then::Value,
    }
}

fn other_thread(me: u32, id: &[u8]) -> Option<u32>
    ensures { result ≡ sending.other_thread me id.now }
{
    match id_number(IdKind::Thread, id) {
        Some(number) => other_number(me, number),
        None => None,
    }
}

fn other_number(me: u32, number: u64) -> Option<u32>
    ensures { result ≡ sending.other_number me number }
{
    match u32::try_from(number) {
        Ok(thread) if thread != me => Some(thread),
        _ => None,
    }
}
