//! Boolean values.
ghost use Rattle.std.specs.Prelude.{◌≡◌, length, IfOk};
ghost use Rattle.tt_exprs.specs.Apply.{boolean_of, negation_of, truth_of};

use super::refusal::{Refusal, not_boolean};
use crate::words::boolean_word;
use std::alloc::Global;
use tt_number::read_whole;
use tt_text::{NoMemory, Text};

/// Reads a text as a boolean value, by expr(n), Operands: a whole number, of which 0 is false, or one of
/// the words `true`, `yes`, `on`, `false`, `no` and `off` in any ASCII case.
///
/// None for every other text, a floating-point number and one past 64 bits among them.
#[tactic(auto, unfolding(crate::specs::Apply::boolean_of))]
pub fn boolean(text: &[u8]) -> Option<bool>
    ensures answer { result ≡ boolean_of text.now }
{
    match read_whole(text) {
        Ok(number) => Some(number != 0),
        Err(_) => boolean_word(text),
    }
}

/// The truth of a condition, or of an operand of `&&`, `||` or `? :`, as `boolean` reads it (expr(n),
/// Operators); or the message `expected boolean value but got "x"` of its error.
///
/// `NoMemory` if the memory for the message is refused.
#[tactic(auto, unfolding(crate::specs::Apply::truth_of))]
pub fn truth(alloc: Global, text: &[u8]) -> Result<Result<bool, Text>, NoMemory>
    ensures answer { IfOk result (λ truth. truth ≡ truth_of text.now) }
{
    match boolean(text) {
        Some(truth) => Ok(Ok(truth)),
        None => Ok(Err(not_boolean(alloc, text)?)),
    }
}

pub(super) fn negation(alloc: Global, operands: &[Text]) -> Result<Result<i64, Refusal>, NoMemory>
    requires { length operands.now ≡ 1 }
    ensures { IfOk result (λ answer. answer ≡ negation_of operands.now) }
{
    let [operand] = operands else { unreachable!() };
    match boolean(operand.as_bytes()) {
        Some(truth) => Ok(Ok(i64::from(!truth))),
        None => Ok(Err(Refusal::NotBoolean(operand.copy()?))),
    }
}
