ghost use Rattle.std.specs.Prelude.{◌≡◌, IfOk};
ghost use Rattle.tt_pure.specs.Usages.{bad_option, wrong_number};

use std::alloc::Global;
use tt_calls::usages;
use tt_lists::ListAnswer;
use tt_text::NoMemory;

/// That words are too few or too many for a usage.
pub(crate) fn wrong_number(alloc: Global, usage: &[u8]) -> Result<ListAnswer, NoMemory>
    ensures { IfOk result (λ answer. answer ≡ wrong_number usage.now) }
{
    let message = usages::wrong_number(alloc, usage)?;
    Ok(ListAnswer::Bad(message))
}

/// That a word is no option.
pub(crate) fn bad_option(alloc: Global, word: &[u8]) -> Result<ListAnswer, NoMemory>
    ensures { IfOk result (λ answer. answer ≡ bad_option word.now) }
{
    let message = usages::bad_option(alloc, word)?;
    Ok(ListAnswer::Bad(message))
}
