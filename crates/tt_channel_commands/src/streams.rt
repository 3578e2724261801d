//! Commands that write and read.
ghost use Rattle.std.specs.Prelude.{◌≡◌, IfOk};
ghost use Rattle.tt_channel_commands.specs.Channels as channels;
ghost use Rattle.tt_command_tables.specs.Usages.{wrong_number};

use crate::standard::{Standard, not_for_reading, not_for_writing, standard_of};
use std::alloc::Global;
use tt_calls::{ChanCall, Request};
use tt_command_tables::{
    Call, Flag, Here, Then, asks, asks_chan, bad_option, first_unknown, front, has, wrong_number,
};
use tt_text::{NoMemory, Text};

const PUTS: [Flag; 1] = [Flag::NoNewline];

pub(crate) fn puts(alloc: Global, usage: &[u8], words: &[Text]) -> Result<Call, NoMemory>
    ensures { IfOk result (λ call. call ≡ channels.puts (wrong_number usage.now) words.now) }
{
    if let Some(word) = first_unknown(&PUTS, 1, words) {
        return bad_option(alloc, word.as_bytes());
    }
    let (options, words) = words.split_at(front(&PUTS, 1, words));
    put(alloc, usage, options, words)
}

fn put(alloc: Global, usage: &[u8], options: &[Text], words: &[Text]) -> Result<Call, NoMemory>
    ensures { IfOk result (λ call. call ≡ channels.puts_call (wrong_number usage.now) options.now words.now) }
{
    match words {
        [text] => {
            let line = line(options, text)?;
            puts_to(alloc, Some(Standard::Output), b"stdout", line)
        }
        [name, text] => {
            let line = line(options, text)?;
            puts_to(alloc, standard_of(name.as_bytes()), name.as_bytes(), line)
        }
        _ => wrong_number(alloc, usage),
    }
}

fn line(options: &[Text], text: &Text) -> Result<Text, NoMemory>
    ensures { IfOk result (λ line. line ≡ channels.line options.now text.now) }
{
    let mut line = text.copy()?;
    if !has(Flag::NoNewline, options) {
        line.push_bytes(b"\n")?;
    }
    Ok(line)
}

fn puts_to(
    alloc: Global,
    standard: Option<Standard>,
    name: &[u8],
    text: Text,
) -> Result<Call, NoMemory>
    ensures { IfOk result (λ call. call ≡ channels.puts_to standard name.now text) }
{
    match standard {
        Some(Standard::Input) => not_for_writing(alloc, name),
        Some(Standard::Output) => asks(alloc, Request::WriteOut { text }, Then::Value),
        Some(Standard::Errors) => asks(alloc, Request::WriteErr { text }, Then::Value),
        None => {
            let chan = Text::from_bytes(alloc, name)?;
            asks_chan(alloc, ChanCall::Put { chan, bytes: text }, Then::Value)
        }
    }
}

pub(crate) fn gets(alloc: Global, usage: &[u8], words: &[Text]) -> Result<Call, NoMemory>
    ensures { IfOk result (λ call. call ≡ channels.gets (wrong_number usage.now) words.now) }
{
    match words {
        [name] => gets_from(alloc, name.as_bytes(), Then::Value),
        [name, variable] => {
            let then = Then::Store(variable.copy()?);
            gets_from(alloc, name.as_bytes(), then)
        }
        _ => wrong_number(alloc, usage),
    }
}

fn gets_from(alloc: Global, name: &[u8], then: Then) -> Result<Call, NoMemory>
    ensures { IfOk result (λ call. call ≡ channels.gets_from (channels.standard_of name.now) name.now then) }
{
    match standard_of(name) {
        Some(Standard::Input) => asks(alloc, Request::ReadLine, then),
        Some(_) => not_for_reading(alloc, name),
        None => {
            let chan = Text::from_bytes(alloc, name)?;
            asks_chan(alloc, ChanCall::GetLine { chan }, then)
        }
    }
}

pub(crate) fn eof(alloc: Global, usage: &[u8], words: &[Text]) -> Result<Call, NoMemory>
    ensures { IfOk result (λ call. call ≡ channels.eof (wrong_number usage.now) words.now) }
{
    match words {
        [name] => eof_of(alloc, name.as_bytes()),
        _ => wrong_number(alloc, usage),
    }
}

fn eof_of(alloc: Global, name: &[u8]) -> Result<Call, NoMemory>
    ensures { IfOk result (λ call. call ≡ channels.eof_of (channels.standard_of name.now) name.now) }
{
    match standard_of(name) {
        Some(Standard::Input) => asks(alloc, Request::StdinEof, Then::Value),
        Some(_) => Ok(Call::Here(Here::Local(Text::from_bytes(alloc, b"0")?))),
        None => {
            let chan = Text::from_bytes(alloc, name)?;
            asks_chan(alloc, ChanCall::Eof { chan }, Then::Value)
        }
    }
}
