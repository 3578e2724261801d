ghost use Rattle.std.specs.Prelude.{◌≡◌, IfOk};
ghost use Rattle.tt_lists.specs.Messages.{bad_index_message, list_message};

use crate::items::ListFault;
use std::alloc::Global;
use tt_text::{NoMemory, Text, quoting};

impl ListFault {
    /// The text of the error that a command gives for this fault (Tcl(n), lists).
    ///
    /// `NoMemory` if the memory for it is refused.
    pub fn message(&self, alloc: Global) -> Result<Text, NoMemory>
        ensures message { IfOk result (λ text. text ≡ list_message self.now) }
    {
        match self {
            ListFault::OpenBrace => Text::from_bytes(alloc, b"unmatched open brace in list"),
            ListFault::OpenQuote => Text::from_bytes(alloc, b"unmatched open quote in list"),
            ListFault::AfterBrace(follower) => quoting(
                alloc,
                b"list element in braces followed by \"",
                follower.as_bytes(),
                b"\" instead of space",
            ),
            ListFault::AfterQuote(follower) => quoting(
                alloc,
                b"list element in quotes followed by \"",
                follower.as_bytes(),
                b"\" instead of space",
            ),
        }
    }
}

/// The text of the error that a command gives for a word that is no index (lindex(n)).
///
/// `NoMemory` if the memory for it is refused.
pub fn bad_index(alloc: Global, text: &[u8]) -> Result<Text, NoMemory>
    ensures message { IfOk result (λ message. message ≡ bad_index_message text.now) }
{
    quoting(
        alloc,
        b"bad index \"",
        text,
        b"\": must be integer?[+-]integer? or end?[+-]integer?",
    )
}
