ghost use Rattle.std.specs.Prelude.{◌≡◌, IfOk};
ghost use Rattle.tt_calls.specs.Outcomes.{error_outcome, fine};
ghost use Rattle.tt_calls.specs.Usages as usages;

use crate::usages;
use std::alloc::Global;
use tt_text::{NoMemory, Text};
use tt_value::Value;

/// How a script ended: the completion codes of return(n), which catch(n) answers as 0 to 4 in this
/// order.
#[derive(Clone, Copy, Debug, PartialEq, Eq)]
pub enum Code {
    /// It ran to its end: `ok`, 0.
    Fine,
    /// It ended with an error: `error`, 1.
    Failed,
    /// It asked its procedure to return: `return`, 2.
    Returned,
    /// It asked the loop around it to end: `break`, 3.
    Broke,
    /// It asked the loop around it for its next turn: `continue`, 4.
    Continued,
}

/// What evaluating a script came to.
#[derive(Debug, Drop)]
pub struct Outcome {
    /// How it ended.
    pub code: Code,
    /// Its result, or the message of its error.
    pub value: Value,
    /// If `code` is `Failed`, the error's trace, as `errorInfo` of tclvars(n) has it; else it says
    /// nothing.
    pub trace: Text,
    /// If `code` is `Returned`, the code that `return -code` of return(n) gave, with which the
    /// procedure ends; `Fine` else.
    pub kept: Code,
}

impl Outcome {
    /// An evaluation that ran to its end, with this text as its result.
    pub fn fine(alloc: Global, text: Text) -> Self
        ensures fine { result ≡ fine text }
    {
        Outcome::with_result(alloc, Value::from_text(text))
    }

    /// An evaluation that ran to its end, with this result.
    pub fn with_result(alloc: Global, value: Value) -> Self
        ensures fine { result ≡ fine value }
    {
        Outcome {
            code: Code::Fine,
            value,
            trace: Text::new(alloc),
            kept: Code::Fine,
        }
    }

    /// An evaluation that ended with this error, whose trace begins with its message.
    ///
    /// `NoMemory` if the memory for the trace is refused.
    pub fn failed(message: Text) -> Result<Self, NoMemory>
        ensures failed { IfOk result (λ outcome. outcome ≡ error_outcome message) }
    {
        let trace = message.copy()?;
        Ok(Outcome {
            code: Code::Failed,
            value: Value::from_text(message),
            trace,
            kept: Code::Fine,
        })
    }

    /// The error that words are too few or too many for a usage.
    ///
    /// `NoMemory` if the memory for it is refused.
    pub fn wrong_number(alloc: Global, usage: &[u8]) -> Result<Self, NoMemory>
        ensures failed { IfOk result (λ outcome. outcome ≡ error_outcome (usages.wrong_number usage.now)) }
    {
        let message = usages::wrong_number(alloc, usage)?;
        Outcome::failed(message)
    }

    /// The error that a word is no option, or no subcommand.
    ///
    /// `NoMemory` if the memory for it is refused.
    pub fn bad_option(alloc: Global, word: &[u8]) -> Result<Self, NoMemory>
        ensures failed { IfOk result (λ outcome. outcome ≡ error_outcome (usages.bad_option word.now)) }
    {
        let message = usages::bad_option(alloc, word)?;
        Outcome::failed(message)
    }

    /// A second outcome that is equal.
    ///
    /// `NoMemory` if the memory for it is refused.
    pub fn copy(&self) -> Result<Self, NoMemory>
        ensures copied { IfOk result (λ outcome. outcome ≡ self.now) }
    {
        Ok(Outcome {
            code: self.code,
            value: self.value.copy()?,
            trace: self.trace.copy()?,
            kept: self.kept,
        })
    }
}
