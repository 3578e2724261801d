//! What words come to. Each of these is `NoMemory` if memory is refused.
ghost use Rattle.std.specs.Prelude.{◌≡◌, IfOk};
ghost use Rattle.tt_calls.specs.declared.request.Request.TheVariants as ask;
ghost use Rattle.tt_command_tables.specs.Usages.{bad_option, bad_value, wrong_number};
ghost use Rattle.tt_command_tables.specs.declared.call.Call.TheVariants as calls;

use crate::{Call, Then};
use std::alloc::Global;
use tt_calls::{Boxed, ChanCall, LockCall, PoolCall, Request, TsvCall, usages};
use tt_text::{NoMemory, Text};

/// That words are too few or too many for a usage.
pub fn wrong_number(alloc: Global, usage: &[u8]) -> Result<Call, NoMemory>
    ensures { IfOk result (λ call. call ≡ wrong_number usage.now) }
{
    let message = usages::wrong_number(alloc, usage)?;
    Ok(Call::Bad(message))
}

/// That a word is no option, or no subcommand.
pub fn bad_option(alloc: Global, word: &[u8]) -> Result<Call, NoMemory>
    ensures { IfOk result (λ call. call ≡ bad_option word.now) }
{
    let message = usages::bad_option(alloc, word)?;
    Ok(Call::Bad(message))
}

/// That an option doesn't have such a value.
pub fn bad_value(alloc: Global, word: &[u8]) -> Result<Call, NoMemory>
    ensures { IfOk result (λ call. call ≡ bad_value word.now) }
{
    let message = usages::bad_value(alloc, word)?;
    Ok(Call::Bad(message))
}

/// That a word is an error, in these words.
pub fn bad(alloc: Global, message: &[u8]) -> Result<Call, NoMemory>
    ensures { IfOk result (λ call. call ≡ calls.Bad message.now) }
{
    let message = Text::from_bytes(alloc, message)?;
    Ok(Call::Bad(message))
}

/// This is asked, and then that follows.
pub fn asks(alloc: Global, request: Request, then: Then) -> Result<Call, NoMemory>
    ensures { IfOk result (λ call. call ≡ calls.Ask request then) }
{
    let request = Boxed::new(alloc, request)?;
    Ok(Call::Ask { request, then })
}

/// A call on shared variables.
pub fn asks_tsv(alloc: Global, call: TsvCall, then: Then) -> Result<Call, NoMemory>
    ensures { IfOk result (λ asked. asked ≡ calls.Ask (ask.Tsv call) then) }
{
    let call = Boxed::new(alloc, call)?;
    let asked = asks(alloc, Request::Tsv(call), then)?;
    Ok(asked)
}

/// A call on locks.
pub fn asks_lock(alloc: Global, call: LockCall, then: Then) -> Result<Call, NoMemory>
    ensures { IfOk result (λ asked. asked ≡ calls.Ask (ask.Lock call) then) }
{
    let call = Boxed::new(alloc, call)?;
    let asked = asks(alloc, Request::Lock(call), then)?;
    Ok(asked)
}

/// A call on pools.
pub fn asks_pool(alloc: Global, call: PoolCall, then: Then) -> Result<Call, NoMemory>
    ensures { IfOk result (λ asked. asked ≡ calls.Ask (ask.Pool call) then) }
{
    let call = Boxed::new(alloc, call)?;
    let asked = asks(alloc, Request::Pool(call), then)?;
    Ok(asked)
}

/// A call on channels.
pub fn asks_chan(alloc: Global, call: ChanCall, then: Then) -> Result<Call, NoMemory>
    ensures { IfOk result (λ asked. asked ≡ calls.Ask (ask.Chan call) then) }
{
    let call = Boxed::new(alloc, call)?;
    let asked = asks(alloc, Request::Chan(call), then)?;
    Ok(asked)
}
