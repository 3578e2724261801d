ghost use Rattle.std.specs.Prelude.{◌≡◌, IfOk};
ghost use Rattle.std.specs.Fmt.{signed_decimal};

use itoa::Buffer;
use std::alloc::Global;
use tt_text::{NoMemory, Text};

/// The number in decimal, with `-` before a negative one, as expr(n) writes its results.
///
/// `NoMemory` if the memory for the text is refused.
pub fn whole_text(alloc: Global, number: i64) -> Result<Text, NoMemory>
    ensures written { IfOk result (λ text. text ≡ signed_decimal number) }
{
    let mut buffer = Buffer::new();
    Text::from_bytes(alloc, buffer.format(number).as_bytes())
}
