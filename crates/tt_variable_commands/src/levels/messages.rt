//! The texts of errors.
ghost use Rattle.std.specs.Prelude.{◌≡◌, IfOk};
ghost use Rattle.tt_calls.specs.Outcomes.{error_outcome};
ghost use Rattle.tt_variable_commands.specs.LevelMessages as messages;

use std::alloc::Global;
use tt_calls::Outcome;
use tt_text::{NoMemory, Text, quoting};

/// That a word is no level, or that there is no such frame.
pub(crate) fn bad_level(alloc: Global, word: &[u8]) -> Result<Outcome, NoMemory>
    ensures { IfOk result (λ outcome. outcome ≡ error_outcome (messages.bad_level word.now)) }
{
    let message = quoting(alloc, b"bad level \"", word, b"\"")?;
    let outcome = Outcome::failed(message)?;
    Ok(outcome)
}

/// That a word can't be the name of a link.
pub(crate) fn bad_name(alloc: Global, word: &[u8]) -> Result<Text, NoMemory>
    ensures { IfOk result (λ text. text ≡ messages.bad_name word.now) }
{
    let text = quoting(alloc, b"bad variable name \"", word, b"\"")?;
    Ok(text)
}

/// That a name is in use.
pub(crate) fn in_use(alloc: Global, word: &[u8]) -> Result<Text, NoMemory>
    ensures { IfOk result (λ text. text ≡ messages.in_use word.now) }
{
    let text = quoting(alloc, b"variable \"", word, b"\" already exists")?;
    Ok(text)
}

/// That a name would be a link to itself.
pub(crate) fn to_itself(alloc: Global) -> Result<Text, NoMemory>
    ensures { IfOk result (λ text. text ≡ messages.to_itself) }
{
    let text = Text::from_bytes(alloc, b"can't upvar from variable to itself")?;
    Ok(text)
}
