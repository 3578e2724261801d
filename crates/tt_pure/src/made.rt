//! What commands make, of what lower crates answer.
ghost use Rattle.std.specs.Prelude.{◌≡◌, IfOk};
ghost use Rattle.tt_lists.specs.Commands.{list_or_message};
ghost use Rattle.tt_lists.specs.Messages.{list_message};
ghost use Rattle.tt_lists.specs.declared.answer.ListAnswer.TheVariants.{Bad};
ghost use Rattle.tt_pure.specs.Usages.{bad_option, outcome_of, wrong_number};

use std::alloc::Global;
use tt_calls::{Outcome, usages};
use tt_lists::ListFault;
use tt_text::{NoMemory, Text, Texts};
use tt_value::{Made, Value};

/// The list of the items that were made, or the message.
pub(crate) fn listed(made: Result<Texts, Text>) -> Result<Made, NoMemory>
    ensures { IfOk result (λ listed. listed ≡ list_or_message made) }
{
    match made {
        Ok(items) => Ok(Made::value(Value::from_items(items.into_vec())?)),
        Err(message) => Ok(Made::bad(message)),
    }
}

/// That words are too few or too many for a usage.
pub(crate) fn refuse(alloc: Global, usage: &[u8]) -> Result<Made, NoMemory>
    ensures { IfOk result (λ made. made ≡ wrong_number usage.now) }
{
    let message = usages::wrong_number(alloc, usage)?;
    Ok(Made::bad(message))
}

/// That a word is no option.
pub(crate) fn no_option(alloc: Global, word: &[u8]) -> Result<Made, NoMemory>
    ensures { IfOk result (λ made. made ≡ bad_option word.now) }
{
    let message = usages::bad_option(alloc, word)?;
    Ok(Made::bad(message))
}

/// That a value is no list.
pub(crate) fn no_list(alloc: Global, fault: &ListFault) -> Result<Made, NoMemory>
    ensures { IfOk result (λ made. made ≡ Bad (list_message fault.now)) }
{
    let message = fault.message(alloc)?;
    Ok(Made::bad(message))
}

/// How a command that made this ends.
pub(crate) fn outcome_of(alloc: Global, made: Made) -> Result<Outcome, NoMemory>
    ensures { IfOk result (λ outcome. outcome ≡ outcome_of made) }
{
    match made.into_result() {
        Ok(value) => Ok(Outcome::with_result(alloc, value)),
        Err(message) => Outcome::failed(message),
    }
}
