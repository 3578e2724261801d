//! What a whole expression results in.
ghost use Rattle.std.specs.Prelude.{◌≡◌, IfOk};
ghost use Rattle.tt_exprs.specs.Apply.{result_of};

use std::alloc::Global;
use tt_calls::Outcome;
use tt_number::{NumberFault, read_whole, whole_text};
use tt_text::{NoMemory, Text};

/// The result of a whole expression that has this value, by expr(n): a whole number is written in
/// decimal, and a text that is no number stays as it is.
///
/// The outcome is `Failed`, its message also its trace, if the value is a whole number past 64 bits
/// (`integer overflow`) or a floating-point number (`floating-point number refused`).
///
/// `NoMemory` if the memory for the outcome is refused.
#[tactic(auto, unfolding(crate::specs::Apply::result_of))]
pub fn result(alloc: Global, value: Text) -> Result<Outcome, NoMemory>
    ensures answer { IfOk result (λ outcome. outcome ≡ result_of value) }
{
    match read_whole(value.as_bytes()) {
        Ok(number) => Ok(Outcome::fine(alloc, whole_text(alloc, number)?)),
        Err(NumberFault::NotWhole) => Ok(Outcome::fine(alloc, value)),
        Err(fault) => Outcome::failed(fault.message(alloc, value.as_bytes())?),
    }
}
