ghost use Rattle.std.specs.Prelude.{◌≡◌, IfOk};
ghost use Rattle.tt_number.specs.Messages.{arith_message, number_message};

use crate::numeral::NumberFault;
use crate::operators::ArithFault;
use std::alloc::Global;
use tt_text::{NoMemory, Text};

impl NumberFault {
    /// The text of the error that a command gives for a word that has to be a whole number and isn't
    /// (expr(n), OPERANDS).
    ///
    /// `NoMemory` if the memory for it is refused.
    pub fn message(self, alloc: Global, text: &[u8]) -> Result<Text, NoMemory>
        ensures message { IfOk result (λ message. message ≡ number_message self text.now) }
    {
        match self {
            NumberFault::NotWhole => expected_integer(alloc, text),
            NumberFault::TooLarge => Text::from_bytes(alloc, b"integer overflow"),
            NumberFault::Float => Text::from_bytes(alloc, b"floating-point number refused"),
        }
    }
}

fn expected_integer(alloc: Global, text: &[u8]) -> Result<Text, NoMemory>
    ensures { IfOk result (λ message. message ≡ number_message NumberFault.NotWhole text.now) }
{
    let mut message = Text::from_bytes(alloc, b"expected integer but got \"")?;
    message.push_bytes(text)?;
    message.push_bytes(b"\"")?;
    Ok(message)
}

impl ArithFault {
    /// The text of the error that an operator gives (expr(n), OPERATORS).
    pub fn message(self) -> &'static [u8]
        ensures message { result.now ≡ arith_message self }
    {
        match self {
            ArithFault::Overflow => b"integer overflow",
            ArithFault::DivideByZero => b"divide by zero",
            ArithFault::NegativeShift => b"negative shift argument",
            ArithFault::ZeroPower => b"exponentiation of zero by negative power",
        }
    }
}
