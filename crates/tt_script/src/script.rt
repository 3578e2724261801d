//! The first command of a text.
ghost use Rattle.std.specs.Prelude.{◌≡◌, ◌+◌, ◌≤◌, length, drop, IfOk};
ghost use Rattle.tt_script.specs.Plain.{plain_first};
ghost use Rattle.tt_script.specs.Reading as reading;

use crate::command::{Command, First, Place};
use crate::mode::Mode;
use crate::parser::words;
use crate::scan::{gap_end, skip_end};
use crate::stop::Stop;
use std::alloc::Global;
use tt_text::NoMemory;

/// How many brackets and indices of one command are open at once, at most.
pub const DEPTH: usize = 1000;

/// Reads the first command of `text[from..]`, as Tcl(n) says, or the fault that is met first.
///
/// `NoMemory` if the memory for the answer is refused.
pub fn first_command(alloc: Global, text: &[u8], from: usize) -> Result<First, NoMemory>
    requires { from ≤ length text.now }
    ensures exact { IfOk result (λ first.
        plain_first first ≡ reading.first_after from (reading.first (drop from text.now))) }
{
    let start = skip_end(text, from);
    if start == text.len() {
        return Ok(First::Nothing);
    }
    match words(alloc, text, start, Place::Script, DEPTH, Mode::Keep) {
        Ok((words, text_end)) => Ok(First::Command(Command {
            words,
            start,
            text_end,
            next: terminator_end(text, text_end),
        })),
        Err(Stop::Fault(fault)) => Ok(First::Bad(fault, start)),
        Err(Stop::NoMemory) => Err(NoMemory),
    }
}

/// The place after the terminator of a command whose last word ends here (Tcl(n), rule 1).
fn terminator_end(text: &[u8], from: usize) -> usize
    requires { from ≤ length text.now }
    ensures { result ≡ from + reading.terminator_length (drop from text.now) }
{
    let end = gap_end(text, from);
    if end == text.len() { end } else { end + 1 }
}
