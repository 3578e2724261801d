//! The texts of errors.
ghost use Rattle.std.specs.Prelude.{◌≡◌, IfOk, Some};
ghost use Rattle.tt_calls.specs.Outcomes.{error_outcome};
ghost use Rattle.tt_store.specs.Messages as messages;
ghost use Rattle.tt_store.specs.Spots.{full_name};
ghost use Rattle.tt_vars.specs.declared.answers.VarFault.TheVariants.{NotArray};

use std::alloc::Global;
use tt_calls::Outcome;
use tt_store::full_name;
use tt_text::{NoMemory, Text, quoting};

/// That an element has no element of this index.
pub(crate) fn not_array(alloc: Global, name: &[u8], index: &[u8]) -> Result<Outcome, NoMemory>
    ensures { IfOk result (λ outcome.
        outcome ≡ error_outcome (messages.cannot_set (full_name name.now (Some index.now)) NotArray)) }
{
    let word = full_name(alloc, name, Some(index))?;
    let message = quoting(
        alloc,
        b"can't set \"",
        word.as_bytes(),
        b"\": variable isn't array",
    )?;
    let outcome = Outcome::failed(message)?;
    Ok(outcome)
}

/// Any other error.
pub(crate) fn failed(alloc: Global, message: &[u8]) -> Result<Outcome, NoMemory>
    ensures { IfOk result (λ outcome. outcome ≡ error_outcome message.now) }
{
    let message = Text::from_bytes(alloc, message)?;
    let outcome = Outcome::failed(message)?;
    Ok(outcome)
}
