//! The texts of errors.
ghost use Rattle.std.specs.Prelude.{◌≡◌, IfOk};
ghost use Rattle.tt_dict.specs.Paths.{missing};

use std::alloc::Global;
use tt_text::{NoMemory, Text, quoting};

/// That a key is not there.
pub(crate) fn missing(alloc: Global, key: &Text) -> Result<Text, NoMemory>
    ensures { IfOk result (λ message. message ≡ missing key.now) }
{
    quoting(
        alloc,
        b"key \"",
        key.as_bytes(),
        b"\" not known in dictionary",
    )
}
