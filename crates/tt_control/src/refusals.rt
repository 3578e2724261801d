//! The errors of words.
ghost use Rattle.std.specs.Prelude.{◌≡◌, IfOk};
ghost use Rattle.tt_control.specs.Refusals as refusals;

use crate::Control;
use std::alloc::Global;
use tt_calls::usages;
use tt_text::NoMemory;

/// That words are too few or too many for a usage.
pub(crate) fn wrong_number(alloc: Global, usage: &[u8]) -> Result<Control, NoMemory>
    ensures { IfOk result (λ control. control ≡ refusals.wrong_number usage.now) }
{
    let message = usages::wrong_number(alloc, usage)?;
    Ok(Control::Bad(message))
}

/// That a word is no option.
pub(crate) fn bad_option(alloc: Global, word: &[u8]) -> Result<Control, NoMemory>
    ensures { IfOk result (λ control. control ≡ refusals.bad_option word.now) }
{
    let message = usages::bad_option(alloc, word)?;
    Ok(Control::Bad(message))
}

/// That an option doesn't have such a value.
pub(crate) fn bad_value(alloc: Global, word: &[u8]) -> Result<Control, NoMemory>
    ensures { IfOk result (λ control. control ≡ refusals.bad_value word.now) }
{
    let message = usages::bad_value(alloc, word)?;
    Ok(Control::Bad(message))
}
