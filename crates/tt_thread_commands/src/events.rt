//! Commands that serve events.
ghost use Rattle.std.specs.Prelude.{◌≡◌, IfOk};
ghost use Rattle.tt_command_tables.specs.Usages.{wrong_number};
ghost use Rattle.tt_thread_commands.specs.Threads as threads;

use std::alloc::Global;
use tt_calls::Request;
use tt_command_tables::{Call, Goal, Then, asks, wrong_number};
use tt_text::{NoMemory, Text};

pub(crate) fn vwait(alloc: Global, usage: &[u8], words: &[Text]) -> Result<Call, NoMemory>
    ensures { IfOk result (λ call. call ≡ threads.vwait (wrong_number usage.now) words.now) }
{
    match words {
        [name] => {
            let goal = Goal::Written(name.copy()?);
            asks(alloc, Request::Take, Then::Serve(goal))
        }
        _ => wrong_number(alloc, usage),
    }
}

pub(crate) fn update(alloc: Global, usage: &[u8], words: &[Text]) -> Result<Call, NoMemory>
    ensures { IfOk result (λ call. call ≡ threads.update (wrong_number usage.now) words.now) }
{
    match words {
        [] => asks(alloc, Request::TakeReady, Then::Serve(Goal::Idle)),
        _ => wrong_number(alloc, usage),
    }
}

pub(crate) fn wait(alloc: Global, usage: &[u8], words: &[Text]) -> Result<Call, NoMemory>
    ensures { IfOk result (λ call. call ≡ threads.wait (wrong_number usage.now) words.now) }
{
    match words {
        [] => asks(alloc, Request::Take, Then::Serve(Goal::Stopped)),
        _ => wrong_number(alloc, usage),
    }
}
