//! Why an operator gives nothing, and the message of that.
ghost use Rattle.std.specs.Prelude.{◌≡◌, IfOk};
ghost use Rattle.tt_exprs.specs.ApplyMessages.{boolean_message, message_of};

use crate::op::Op;
use crate::operators::spelling;
use std::alloc::Global;
use tt_lists::ListFault;
use tt_number::{ArithFault, NumberFault};
use tt_text::{NoMemory, Text};

/// Why an operator gives nothing.
#[derive(Drop)]
pub(crate) enum Refusal {
    /// An operand of this operator is no number.
    NotNumeric(Op),
    /// An operand is a whole number that does not lie in signed 64 bits.
    TooLarge,
    /// An operand is a floating-point number.
    Float,
    /// The numbers have no result.
    Arith(ArithFault),
    /// This operand is no boolean value.
    NotBoolean(Text),
    /// An operand is no list.
    NotList(ListFault),
}

/// The message of the error.
pub(super) fn message(alloc: Global, refusal: &Refusal) -> Result<Text, NoMemory>
    ensures { IfOk result (λ message. message ≡ message_of refusal.now) }
{
    match refusal {
        Refusal::NotNumeric(op) => not_numeric(alloc, *op),
        Refusal::TooLarge => NumberFault::TooLarge.message(alloc, b""),
        Refusal::Float => NumberFault::Float.message(alloc, b""),
        Refusal::Arith(fault) => Text::from_bytes(alloc, fault.message()),
        Refusal::NotBoolean(text) => not_boolean(alloc, text.as_bytes()),
        Refusal::NotList(fault) => fault.message(alloc),
    }
}

fn not_numeric(alloc: Global, op: Op) -> Result<Text, NoMemory>
    ensures { IfOk result (λ message. message ≡ message_of (Refusal.NotNumeric op)) }
{
    let mut message = Text::from_bytes(alloc, b"can't use non-numeric string as operand of \"")?;
    message.push_bytes(spelling(op))?;
    message.push_bytes(b"\"")?;
    Ok(message)
}

/// That a text is no boolean value.
pub(super) fn not_boolean(alloc: Global, text: &[u8]) -> Result<Text, NoMemory>
    ensures { IfOk result (λ message. message ≡ boolean_message text.now) }
{
    let mut message = Text::from_bytes(alloc, b"expected boolean value but got \"")?;
    message.push_bytes(text)?;
    message.push_bytes(b"\"")?;
    Ok(message)
}
