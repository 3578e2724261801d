//! Operands of an expression, which are read as parts of a word are (expr(n), OPERANDS).
ghost use Rattle.std.specs.Prelude.{◌≡◌, ◌≤◌, ◌<◌, IfOk, IfSome, length, take};
ghost use Rattle.std.specs.Option.{option_map};
ghost use Rattle.tt_text.specs.Braces.{matching_brace};
ghost use Rattle.tt_script.specs.Operands.{Finds, outer_part, quoted_text};
ghost use Rattle.tt_script.specs.Plain.{plain_part, plain_parts};
ghost use Rattle.tt_script.specs.Reading as reading;

use crate::braces::{closing_brace, inside_braces};
use crate::command::{Ending, Part};
use crate::mode::Mode;
use crate::parser::{brackets, parts, variable};
use crate::script::DEPTH;
use crate::stop::Stop;
use std::alloc::Global;
use tt_text::{NoMemory, Text};

/// The parts of a text that follows a quote, up to the next quote, and how many bytes are before
/// that one; or `None` if they can't be read (Tcl(n), rules 4 and 7 to 9).
///
/// `NoMemory` if the memory for them is refused.
pub fn quoted_parts(alloc: Global, text: &[u8]) -> Result<Option<(Vec<Part>, usize)>, NoMemory>
    ensures read { IfOk result (λ found. Finds (λ parts. plain_parts parts.items) found (quoted_text text.now)) }
    ensures within { IfOk result (λ found. IfSome found (λ r. r.1 < length text.now)) }
{
    match parts(alloc, text, 0, Ending::Quote, DEPTH, Mode::Keep) {
        Ok(found) => Ok(Some(found)),
        Err(Stop::Fault(_)) => Ok(None),
        Err(Stop::NoMemory) => Err(NoMemory),
    }
}

/// The variable of a text that follows a `$`, and how many bytes it takes; or `None` if it can't
/// be read. Before a byte that begins no name, a `$` is a letter (Tcl(n), rule 8).
///
/// `NoMemory` if the memory for it is refused.
pub fn variable_part(alloc: Global, text: &[u8]) -> Result<Option<(Part, usize)>, NoMemory>
    ensures read { IfOk result (λ found. Finds plain_part found (outer_part 36 text.now)) }
    ensures within { IfOk result (λ found. IfSome found (λ r. r.1 ≤ length text.now)) }
{
    match variable(alloc, text, 0, DEPTH, Mode::Keep) {
        Ok(found) => Ok(Some(found)),
        Err(Stop::Fault(_)) => Ok(None),
        Err(Stop::NoMemory) => Err(NoMemory),
    }
}

/// The script of a text that follows a `[`, as a part of a word, and how many bytes it takes with its
/// `]`; or `None` if it can't be read (Tcl(n), rule 7).
///
/// `NoMemory` if the memory for it is refused.
pub fn script_part(alloc: Global, text: &[u8]) -> Result<Option<(Part, usize)>, NoMemory>
    ensures read { IfOk result (λ found. Finds plain_part found (outer_part 91 text.now)) }
    ensures within { IfOk result (λ found. IfSome found (λ r. r.1 ≤ length text.now)) }
{
    match brackets(alloc, text, 0, DEPTH, Mode::Keep) {
        Ok((inside, end)) => Ok(Some((Part::Script(inside), end + 1))),
        Err(Stop::Fault(_)) => Ok(None),
        Err(Stop::NoMemory) => Err(NoMemory),
    }
}

/// A text that follows an open brace, up to the one that closes it and with each backslash-newline
/// and the spaces and tabs after it as one space, and how many bytes are before that brace; or `None`
/// if nothing closes it (Tcl(n), rule 6).
///
/// `NoMemory` if the memory for it is refused.
pub fn braced_text(alloc: Global, text: &[u8]) -> Result<Option<(Text, usize)>, NoMemory>
    ensures read { IfOk result (λ found.
        found ≡ option_map (λ n. (reading.joined_lines 0 (take n text.now), n)) (matching_brace text.now)) }
    ensures within { IfOk result (λ found. IfSome found (λ r. r.1 < length text.now)) }
{
    let Some(closing) = closing_brace(text, 0) else {
        return Ok(None);
    };
    let inside = inside_braces(alloc, text, 0, closing)?;
    Ok(Some((inside, closing.end)))
}
