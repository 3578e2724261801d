//! What the commands on levels and those on arrays share.
ghost use Rattle.std.specs.Prelude.{◌≡◌, IfOk};
ghost use Rattle.tt_variable_commands.specs.Vocabulary as vocabulary;

use std::alloc::Global;
use tt_script::split_name;
use tt_text::{NoMemory, Text};

/// Whether this is the name of an element.
pub(crate) fn is_element(name: &Text) -> bool
    ensures { result ≡ vocabulary.is_element name.now }
{
    split_name(name.as_bytes()).is_some()
}

/// `1` for what is so, else `0`.
pub(crate) fn truth(alloc: Global, is: bool) -> Result<Text, NoMemory>
    ensures { IfOk result (λ text. text ≡ vocabulary.truth is) }
{
    let digit: &[u8] = if is { b"1" } else { b"0" };
    Text::from_bytes(alloc, digit)
}
