ghost use Rattle.std.specs.Prelude.{◌≡◌, ◌++◌, IfOk};

use crate::{NoMemory, Text};
use std::alloc::Global;

/// A text with another in it, as messages quote words.
///
/// `NoMemory` if the memory for it is refused.
pub fn quoting(alloc: Global, before: &[u8], quoted: &[u8], after: &[u8]) -> Result<Text, NoMemory>
    ensures text { IfOk result (λ text. text ≡ before.now ++ (quoted.now ++ after.now)) }
{
    let mut text = Text::from_bytes(alloc, before)?;
    text.push_bytes(quoted)?;
    text.push_bytes(after)?;
    Ok(text)
}
