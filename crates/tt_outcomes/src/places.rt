//! What commands, procedures and scripts make of an ending that goes out of them.
ghost use Rattle.std.specs.Prelude.{◌≡◌, IfOk};
ghost use Rattle.tt_outcomes.specs.Places.{command_text, in_command, of_procedure, of_returned, of_script, outside};
ghost use Rattle.tt_outcomes.specs.Places.{outside_in, within};

use crate::{Ending, Failure};
use std::alloc::Global;
use tt_calls::Code;
use tt_text::{NoMemory, Text};
use tt_trace::{Trace, line_at};
use tt_value::Value;

/// The text of a command, from its first word to its last. Places are cut to the text.
#[tactic(auto, using(crate::proofs::Cuts::cut))]
pub fn command_text(text: &[u8], start: usize, end: usize) -> &[u8]
    ensures text { result.now ≡ command_text text.now start end }
{
    let from = &text[start.min(text.len())..];
    &from[..end.saturating_sub(start).min(from.len())]
}

// An error that a command ended with adds a line for it.
fn within(failure: Failure, text: &[u8], start: usize, end: usize) -> Result<Failure, NoMemory>
    ensures { IfOk result (λ longer. longer ≡ within failure text.now start end) }
{
    let Failure {
        message,
        mut trace,
        ..
    } = failure;
    trace.add_command(command_text(text, start, end))?;
    Ok(Failure {
        message,
        trace,
        line: line_at(text, start),
    })
}

// A break or continue that no loop takes.
fn outside(alloc: Global, code: Code) -> Result<Failure, NoMemory>
    ensures { IfOk result (λ failure. failure ≡ outside code) }
{
    let message = match code {
        Code::Continued => Text::from_bytes(alloc, b"invoked \"continue\" outside of a loop")?,
        _ => Text::from_bytes(alloc, b"invoked \"break\" outside of a loop")?,
    };
    let trace = Trace::start(alloc, message.as_bytes())?;
    Ok(Failure {
        message,
        trace,
        line: 0,
    })
}

// An error in a procedure's body adds the line of the procedure.
fn in_procedure(failure: Failure, name: &[u8], line: u64) -> Result<Ending, NoMemory>
    ensures { IfOk result (λ ending. ending ≡ outside_in failure name.now line) }
{
    let Failure {
        message,
        mut trace,
        ..
    } = failure;
    trace.add_procedure(name, line)?;
    Ok(Ending::Failed(Failure {
        message,
        trace,
        line: 0,
    }))
}

// What a procedure ends with whose body returned.
fn of_returned(alloc: Global, value: Value, kept: Code) -> Result<Ending, NoMemory>
    ensures { IfOk result (λ ending. ending ≡ of_returned value kept) }
{
    match kept {
        Code::Fine => Ok(Ending::Fine(value)),
        Code::Failed => {
            let ending = Ending::failed(alloc, value.into_text(alloc)?)?;
            Ok(ending)
        }
        Code::Returned => Ok(Ending::Returned(value, Code::Fine)),
        Code::Broke => Ok(Ending::Broke(value.into_text(alloc)?, 0)),
        Code::Continued => Ok(Ending::Continued(value.into_text(alloc)?, 0)),
    }
}

impl Ending {
    /// What a script ends with whose command at these places ended so, if that was no result: an error has a line
    /// more in its trace, but for that of error(n) with an info.
    ///
    /// `NoMemory` if memory for it is refused.
    pub fn in_command(self, text: &[u8], start: usize, end: usize) -> Result<Ending, NoMemory>
        ensures ended { IfOk result (λ ending. ending ≡ in_command text.now start end self) }
    {
        Ok(match self {
            Ending::Fine(value) => Ending::Fine(value),
            Ending::Returned(value, kept) => Ending::Returned(value, kept),
            Ending::Failed(failure) => Ending::Failed(within(failure, text, start, end)?),
            Ending::Raised(Failure { message, trace, .. }) => Ending::Failed(Failure {
                message,
                trace,
                line: line_at(text, start),
            }),
            Ending::Broke(value, _) => Ending::Broke(value, line_at(text, start)),
            Ending::Continued(value, _) => Ending::Continued(value, line_at(text, start)),
        })
    }

    /// What the call of a procedure ends with whose body ended so (proc(n), return(n)): a return gives its value with
    /// the code that it kept, an error has the procedure's line in its trace, and a break or continue is an error.
    ///
    /// `NoMemory` if memory for it is refused.
    pub fn of_procedure(self, alloc: Global, name: &[u8]) -> Result<Ending, NoMemory>
        ensures ended { IfOk result (λ ending. ending ≡ of_procedure name.now self) }
    {
        match self {
            Ending::Fine(value) => Ok(Ending::Fine(value)),
            Ending::Returned(value, kept) => of_returned(alloc, value, kept),
            Ending::Failed(failure) | Ending::Raised(failure) => {
                let line = failure.line;
                in_procedure(failure, name, line)
            }
            Ending::Broke(_, line) => in_procedure(outside(alloc, Code::Broke)?, name, line),
            Ending::Continued(_, line) => {
                in_procedure(outside(alloc, Code::Continued)?, name, line)
            }
        }
    }

    /// What a script that a thread begins with, or that an event brings, comes to: a return is its value, and a break
    /// or continue is an error.
    ///
    /// `NoMemory` if memory for it is refused.
    pub fn of_script(self, alloc: Global) -> Result<Ending, NoMemory>
        ensures ended { IfOk result (λ ending. ending ≡ of_script self) }
    {
        match self {
            Ending::Fine(value) | Ending::Returned(value, _) => Ok(Ending::Fine(value)),
            Ending::Failed(failure) | Ending::Raised(failure) => Ok(Ending::Failed(failure)),
            Ending::Broke(..) => {
                let failure = outside(alloc, Code::Broke)?;
                Ok(Ending::Failed(failure))
            }
            Ending::Continued(..) => {
                let failure = outside(alloc, Code::Continued)?;
                Ok(Ending::Failed(failure))
            }
        }
    }
}
