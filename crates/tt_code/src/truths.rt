//! The truth of values (expr(n), Operators).
ghost use Rattle.std.specs.Prelude.{◌≡◌, IfOk};
ghost use Rattle.tt_code.specs.Needs.{bit};
ghost use Rattle.tt_exprs.specs.Apply.{truth_of};

use std::alloc::Global;
use tt_exprs::truth;
use tt_text::{NoMemory, Text};
use tt_value::Value;

/// The truth of a value, or the message of its error. A number that is kept is not read again.
///
/// `NoMemory` if memory is refused.
pub fn truth_value(alloc: Global, value: Value) -> Result<Result<bool, Text>, NoMemory>
    ensures truth { IfOk result (λ truth. truth ≡ truth_of value) }
{
    match value.number() {
        Some(number) => Ok(Ok(number != 0)),
        None => truth(alloc, value.into_text(alloc)?.as_bytes()),
    }
}

/// A truth as a number.
pub fn bit(truth: bool) -> Value
    ensures bit { result ≡ bit truth }
{
    if truth {
        Value::from_whole(1)
    } else {
        Value::from_whole(0)
    }
}
