//! Words in braces (Tcl(n), rule 6).
ghost use Rattle.std.specs.Prelude.{◌≡◌, ◌≢◌, ◌+◌, ◌-◌, ◌≤◌, ◌<◌, Some, None, IfOk, IfSome, false, length, drop, take};
ghost use Rattle.std.specs.Prelude.{slice_range};
ghost use Rattle.std.specs.Option.{option_map};
ghost use Rattle.tt_text.specs.Braces.{further, matching_brace};
ghost use Rattle.tt_script.specs.Reading.{joined_lines, letters_of};
ghost use Rattle.tt_script.specs.Plain.{plain_parts};

use crate::builder::letters;
use crate::command::Part;
use crate::mode::Mode;
use crate::scan::{after_escape, begins, continues_line};
use std::alloc::Global;
use tt_lanes::next_brace;
use tt_text::{NoMemory, Text, backslash};

/// Where a word in braces ends.
#[derive(Clone, Copy, Debug, PartialEq, Eq)]
pub(crate) struct Closing {
    /// The place of the brace that closes it.
    pub(crate) end: usize,
    /// Whether a backslash-newline stands before that.
    pub(crate) joins: bool,
}

/// How many inner braces are open after this byte, or `None` if it closes the outer one.
fn depth_after(byte: u8, depth: usize) -> Option<usize>
    requires { depth < usize.MAX }
    ensures opens { byte ≡ 123 → result ≡ Some (depth + 1) }
    ensures closes_outer { byte ≡ 125 → depth ≡ 0 → result ≡ None }
    ensures closes_inner { byte ≡ 125 → 0 < depth → result ≡ Some (depth - 1) }
    ensures other { byte ≢ 123 → byte ≢ 125 → result ≡ Some depth }
{
    match byte {
        b'{' => Some(depth + 1),
        b'}' if depth == 0 => None,
        b'}' => Some(depth - 1),
        _ => Some(depth),
    }
}

/// The brace that closes the one before here. A byte after a backslash is none.
pub(crate) fn closing_brace(text: &[u8], from: usize) -> Option<Closing>
    requires { from ≤ length text.now }
    ensures place { option_map (λ closing. closing.end) result ≡ further from (matching_brace (drop from text.now)) }
    ensures within { IfSome result (λ closing. (from ≤ closing.end) × (closing.end < length text.now)) }
    ensures plain { IfSome result (λ closing. closing.joins ≡ false
        → let inside = take (closing.end - from) (drop from text.now) in joined_lines 0 inside ≡ inside) }
{
    let mut depth = 0;
    let mut joins = false;
    let mut at = next_brace(text, from);
    while at < text.len() {
        match depth_after(text[at], depth) {
            Some(inner) => depth = inner,
            None => return Some(Closing { end: at, joins }),
        }
        joins |= continues_line(text, at);
        at = next_brace(text, after_escape(text, at));
    }
    None
}

#[tactic(auto, using(crate::proofs::Scanning::next_brace_bounds))]
/// The text in braces, where each backslash-newline with the spaces and tabs after it is one space.
fn joined_lines(alloc: Global, text: &[u8]) -> Result<Text, NoMemory>
    ensures { IfOk result (λ joined. joined ≡ joined_lines 0 text.now) }
{
    let mut joined = Text::new(alloc);
    let mut at = 0;
    while at < text.len() {
        if text[at] != b'\\' {
            let next = next_brace(text, at + 1);
            joined.push_bytes(&text[at..next])?;
            at = next;
        } else if begins(text, at + 1, b'\n') {
            joined.push_bytes(b" ")?;
            at = backslash(text, at).next;
        } else {
            let next = after_escape(text, at);
            joined.push_bytes(&text[at..next])?;
            at = next;
        }
    }
    Ok(joined)
}

/// The text in braces that begins here, up to the brace that closes it.
pub(crate) fn inside_braces(
    alloc: Global,
    text: &[u8],
    from: usize,
    closing: Closing,
) -> Result<Text, NoMemory>
    requires order { from ≤ closing.end }
    requires room { closing.end ≤ length text.now }
    requires plain { closing.joins ≡ false
        → let inside = take (closing.end - from) (drop from text.now) in joined_lines 0 inside ≡ inside }
    ensures { IfOk result (λ inside. inside ≡ joined_lines 0 (take (closing.end - from) (drop from text.now))) }
{
    let inside = &text[from..closing.end];
    if closing.joins {
        joined_lines(alloc, inside)
    } else {
        Text::from_bytes(alloc, inside)
    }
}

/// The parts of a word in braces that begins here: its text, or none if it is skipped.
pub(crate) fn braced_parts(
    alloc: Global,
    text: &[u8],
    from: usize,
    closing: Closing,
    mode: Mode,
) -> Result<Vec<Part>, NoMemory>
    requires order { from ≤ closing.end }
    requires room { closing.end ≤ length text.now }
    requires plain { closing.joins ≡ false
        → let inside = take (closing.end - from) (drop from text.now) in joined_lines 0 inside ≡ inside }
    ensures { let inside = take (closing.end - from) (drop from text.now) in
        mode ≡ Mode.Keep → IfOk result (λ parts. plain_parts parts.items ≡ letters_of (joined_lines 0 inside)) }
{
    match mode {
        Mode::Keep => letters(alloc, inside_braces(alloc, text, from, closing)?),
        Mode::Skip => Ok(Vec::new(alloc)),
    }
}
