//! Errors, as they read.
ghost use Rattle.std.specs.Prelude.{◌≡◌, IfOk};
ghost use Rattle.tt_procedures.specs.Messages as messages;

use std::alloc::Global;
use tt_text::{NoMemory, Text, quoting};

/// That a text is no parameter.
pub(crate) fn bad_parameter(alloc: Global, text: &[u8]) -> Result<Text, NoMemory>
    ensures { IfOk result (λ message. message ≡ messages.bad_parameter text.now) }
{
    let message = quoting(alloc, b"bad parameter \"", text, b"\"")?;
    Ok(message)
}
