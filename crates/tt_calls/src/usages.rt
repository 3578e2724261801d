//! How words that a command doesn't take are reported.
ghost use Rattle.std.specs.Prelude.{◌≡◌, IfOk};
ghost use Rattle.tt_calls.specs.Usages as usages;

use std::alloc::Global;
use tt_text::{NoMemory, Text, quoting};

/// That words are too few or too many for a usage.
///
/// `NoMemory` if the memory for it is refused, as for the others.
pub fn wrong_number(alloc: Global, usage: &[u8]) -> Result<Text, NoMemory>
    ensures message { IfOk result (λ message. message ≡ usages.wrong_number usage.now) }
{
    quoting(alloc, b"wrong # args: should be \"", usage, b"\"")
}

/// That a word is no option, or no subcommand.
pub fn bad_option(alloc: Global, word: &[u8]) -> Result<Text, NoMemory>
    ensures message { IfOk result (λ message. message ≡ usages.bad_option word.now) }
{
    quoting(alloc, b"bad option \"", word, b"\"")
}

/// That an option doesn't have such a value.
pub fn bad_value(alloc: Global, word: &[u8]) -> Result<Text, NoMemory>
    ensures message { IfOk result (λ message. message ≡ usages.bad_value word.now) }
{
    quoting(alloc, b"bad value \"", word, b"\"")
}
