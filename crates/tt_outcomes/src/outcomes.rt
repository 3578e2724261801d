//! Endings as outcomes, which other threads see.
ghost use Rattle.std.specs.Prelude.{◌≡◌, IfOk};
ghost use Rattle.tt_outcomes.specs.Endings.{code_of_return, number_of, outcome_of, trace_of};

use crate::Ending;
use std::alloc::Global;
use tt_calls::{Code, Outcome};
use tt_text::{NoMemory, Text};

/// The number of a code, as catch(n) answers it.
pub fn code_number(code: Code) -> &'static [u8]
    ensures number { result.now ≡ number_of code }
{
    match code {
        Code::Fine => b"0",
        Code::Failed => b"1",
        Code::Returned => b"2",
        Code::Broke => b"3",
        Code::Continued => b"4",
    }
}

impl Ending {
    /// The trace of an error, as errorInfo of tclvars(n) has it; it is empty of another ending.
    ///
    /// `NoMemory` if memory for it is refused.
    pub fn trace(&self, alloc: Global) -> Result<Text, NoMemory>
        ensures trace { IfOk result (λ trace. trace ≡ trace_of self.now) }
    {
        match self {
            Ending::Failed(failure) | Ending::Raised(failure) => {
                let trace = failure.trace.text().copy()?;
                Ok(trace)
            }
            _ => Ok(Text::new(alloc)),
        }
    }

    /// The code that a return keeps (return(n)).
    pub fn kept_code(&self) -> Code
        ensures kept { result ≡ code_of_return self.now }
    {
        match self {
            Ending::Returned(_, kept) => *kept,
            _ => Code::Fine,
        }
    }

    /// The outcome that other threads see.
    ///
    /// `NoMemory` if memory for it is refused.
    pub fn into_outcome(self, alloc: Global) -> Result<Outcome, NoMemory>
        ensures outcome { IfOk result (λ outcome. outcome ≡ outcome_of self) }
    {
        let code = self.code();
        let kept = self.kept_code();
        let trace = self.trace(alloc)?;
        Ok(Outcome {
            code,
            value: self.into_value(),
            trace,
            kept,
        })
    }
}
