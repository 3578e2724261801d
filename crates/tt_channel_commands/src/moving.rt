//! Commands that make ends of pipes, close them and hand them on.
ghost use Rattle.std.specs.Prelude.{◌≡◌, IfOk};
ghost use Rattle.tt_channel_commands.specs.Channels as channels;
ghost use Rattle.tt_command_tables.specs.Usages.{wrong_number};

use std::alloc::Global;
use tt_calls::ChanCall;
use tt_command_tables::{Call, Then, asks_chan, bad_option, wrong_number};
use tt_text::{NoMemory, Text};

pub(crate) fn close(alloc: Global, usage: &[u8], words: &[Text]) -> Result<Call, NoMemory>
    ensures { IfOk result (λ call. call ≡ channels.close (wrong_number usage.now) words.now) }
{
    match words {
        [name] => {
            let chan = name.copy()?;
            asks_chan(alloc, ChanCall::Close { chan }, Then::Value)
        }
        _ => wrong_number(alloc, usage),
    }
}

pub(crate) fn channel_pipe(alloc: Global, usage: &[u8], words: &[Text]) -> Result<Call, NoMemory>
    ensures { IfOk result (λ call. call ≡ channels.channel_pipe (wrong_number usage.now) words.now) }
{
    let [name, words @ ..] = words else {
        return wrong_number(alloc, usage);
    };
    if name.as_bytes() == b"pipe".as_slice() {
        pipe(alloc, usage, words)
    } else {
        bad_option(alloc, name.as_bytes())
    }
}

fn pipe(alloc: Global, usage: &[u8], words: &[Text]) -> Result<Call, NoMemory>
    ensures { IfOk result (λ call. call ≡ channels.pipe (wrong_number usage.now) words.now) }
{
    match words {
        [] => asks_chan(alloc, ChanCall::Pipe, Then::Value),
        _ => wrong_number(alloc, usage),
    }
}

pub(crate) fn detach(alloc: Global, usage: &[u8], words: &[Text]) -> Result<Call, NoMemory>
    ensures { IfOk result (λ call. call ≡ channels.detach (wrong_number usage.now) words.now) }
{
    match words {
        [name] => {
            let chan = name.copy()?;
            asks_chan(alloc, ChanCall::Detach { chan }, Then::Value)
        }
        _ => wrong_number(alloc, usage),
    }
}

pub(crate) fn attach(alloc: Global, usage: &[u8], words: &[Text]) -> Result<Call, NoMemory>
    ensures { IfOk result (λ call. call ≡ channels.attach (wrong_number usage.now) words.now) }
{
    match words {
        [name] => {
            let chan = name.copy()?;
            asks_chan(alloc, ChanCall::Attach { chan }, Then::Value)
        }
        _ => wrong_number(alloc, usage),
    }
}

#[tactic(auto, unfolding(crate::specs::Channels::transfer))]
pub(crate) fn transfer(alloc: Global, usage: &[u8], words: &[Text]) -> Result<Call, NoMemory>
    ensures { IfOk result (λ call. call ≡ channels.transfer (wrong_number usage.now) words.now) }
{
    match words {
        [id, name] => {
            let id = id.copy()?;
            let chan = name.copy()?;
            asks_chan(alloc, ChanCall::Transfer { id, chan }, Then::AwaitMove)
        }
        _ => wrong_number(alloc, usage),
    }
}
