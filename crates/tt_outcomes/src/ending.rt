ghost use Rattle.std.specs.Prelude.{◌≡◌, [], IfOk};
ghost use Rattle.tt_outcomes.specs.Endings.{code_of, error_ending, fine, of_outcome, of_value, text_of};

use std::alloc::Global;
use tt_calls::{Code, Outcome};
use tt_text::{NoMemory, Text};
use tt_trace::Trace;
use tt_value::Value;

/// An error, as far as it has come.
#[derive(Debug, Drop)]
pub struct Failure {
    /// Its message.
    pub message: Text,
    /// Its trace so far (tclvars(n), errorInfo).
    pub trace: Trace,
    /// The line of its script that the command stood in that ended with it last, the first being 1; 0 if it came out
    /// of no script.
    pub line: u64,
}

/// How an evaluation ended.
#[derive(Debug, Drop)]
pub enum Ending {
    /// It ran to its end, with this result.
    Fine(Value),
    /// It ended with an error.
    Failed(Failure),
    /// It ended with an error that the command itself adds no line to: that of error(n) with an info.
    Raised(Failure),
    /// A return(n) with this value, and the code that its procedure ends with.
    Returned(Value, Code),
    /// A break(n), with the value of the procedure that ended so, and the line of its command.
    Broke(Text, u64),
    /// A continue(n), likewise.
    Continued(Text, u64),
}

impl Ending {
    /// It ran to its end without a result.
    pub fn nothing(alloc: Global) -> Self
        ensures empty { result ≡ fine [] }
    {
        Ending::Fine(Value::new(alloc))
    }

    /// A new error of this message.
    ///
    /// `NoMemory` if memory for its trace is refused.
    pub fn failed(alloc: Global, message: Text) -> Result<Self, NoMemory>
        ensures failed { IfOk result (λ ending. ending ≡ error_ending message) }
    {
        let trace = Trace::start(alloc, message.as_bytes())?;
        Ok(Ending::Failed(Failure {
            message,
            trace,
            line: 0,
        }))
    }

    /// A new error of this message.
    ///
    /// `NoMemory` if memory for it is refused.
    pub fn failed_with(alloc: Global, message: &[u8]) -> Result<Self, NoMemory>
        ensures failed { IfOk result (λ ending. ending ≡ error_ending message.now) }
    {
        let message = Text::from_bytes(alloc, message)?;
        let ending = Ending::failed(alloc, message)?;
        Ok(ending)
    }

    /// An error that goes on with a trace that is there: of another thread or job.
    ///
    /// `NoMemory` if memory for it is refused.
    pub fn of_outcome(alloc: Global, outcome: Outcome) -> Result<Self, NoMemory>
        ensures same { IfOk result (λ ending. ending ≡ of_outcome outcome) }
    {
        let Outcome {
            code,
            value,
            trace,
            kept,
        } = outcome;
        Ok(match code {
            Code::Fine => Ending::Fine(value),
            Code::Failed => Ending::Failed(Failure {
                message: value.into_text(alloc)?,
                trace: Trace::start_within(alloc, trace.as_bytes())?,
                line: 0,
            }),
            Code::Returned => Ending::Returned(value, kept),
            Code::Broke => Ending::Broke(value.into_text(alloc)?, 0),
            Code::Continued => Ending::Continued(value.into_text(alloc)?, 0),
        })
    }

    /// How a command ended that has this answer: an error is a new one.
    ///
    /// `NoMemory` if memory for it is refused.
    pub fn of_value(alloc: Global, outcome: Outcome) -> Result<Self, NoMemory>
        ensures same { IfOk result (λ ending. ending ≡ of_value outcome) }
    {
        let Outcome { code, value, .. } = outcome;
        match code {
            Code::Fine => Ok(Ending::Fine(value)),
            _ => {
                let ending = Ending::failed(alloc, value.into_text(alloc)?)?;
                Ok(ending)
            }
        }
    }

    /// The code, as catch(n) has it.
    pub fn code(&self) -> Code
        ensures code { result ≡ code_of self.now }
    {
        match self {
            Ending::Fine(_) => Code::Fine,
            Ending::Failed(_) | Ending::Raised(_) => Code::Failed,
            Ending::Returned(..) => Code::Returned,
            Ending::Broke(..) => Code::Broke,
            Ending::Continued(..) => Code::Continued,
        }
    }

    /// The result, or the message of the error. It is moved out.
    pub fn into_value(self) -> Value
        ensures value { result ≡ text_of self }
    {
        match self {
            Ending::Fine(value) | Ending::Returned(value, _) => value,
            Ending::Broke(text, _) | Ending::Continued(text, _) => Value::from_text(text),
            Ending::Failed(failure) | Ending::Raised(failure) => Value::from_text(failure.message),
        }
    }
}
