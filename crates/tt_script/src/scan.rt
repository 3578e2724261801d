//! What needs no nesting: gaps, comments, names and braces.
ghost use Rattle.std.specs.Prelude.{◌≡◌, ◌+◌, ◌≤◌, ◌<◌, length, drop, take, slice_index, min, ◌≢◌, ◌||◌, ◌==◌, false};
ghost use Rattle.std.specs.Prelude.{true, OnOk, IfErr};
ghost use Rattle.std.specs.List.{prefix_len, position_or_len};
ghost use Rattle.tt_script.specs.inside.Scanning.{ends_run};
ghost use Rattle.tt_text.specs.Characters as characters;
ghost use Rattle.tt_script.specs.Reading as reading;

use crate::command::{Ending, Place};
use tt_lanes::{next_in_index, next_in_quotes, next_special};

/// Whether this byte stands here.
pub(crate) fn begins(text: &[u8], at: usize, byte: u8) -> bool
    ensures { result ≡ reading.begins byte (drop at text.now) }
{
    text.get(at) == Some(&byte)
}

/// Whether words may be parted by this byte: 9 to 13 and 32.
fn is_white_space(byte: u8) -> bool
    ensures { result ≡ characters.is_white_space byte }
{
    matches!(byte, 9..=13 | b' ')
}

/// Whether words of one command may be parted by this byte: white space, but no newline.
fn is_blank(byte: u8) -> bool
    ensures { result ≡ characters.is_blank byte }
{
    is_white_space(byte) && byte != b'\n'
}

/// Whether a backslash and a newline stand here (Tcl(n), rule 9).
pub(crate) fn continues_line(text: &[u8], at: usize) -> bool
    requires { at < length text.now }
    ensures { result ≡ reading.continues_line (slice_index text.now at) (drop (at + 1) text.now) }
{
    text[at] == b'\\' && begins(text, at + 1, b'\n')
}

#[tactic(auto, using(crate::proofs::Scanning::gap_steps))]
/// The place after the blanks and backslash-newlines that stand here (Tcl(n), rule 3).
pub(crate) fn gap_end(text: &[u8], from: usize) -> usize
    requires { from ≤ length text.now }
    ensures place { result ≡ from + reading.gap 0 (drop from text.now) }
    ensures within { result ≤ length text.now }
    ensures blank { result < length text.now → characters.is_blank (slice_index text.now result) ≡ false }
    ensures line { result < length text.now
        → reading.continues_line (slice_index text.now result) (drop (result + 1) text.now) ≡ false }
{
    let mut at = from;
    while at < text.len() {
        if is_blank(text[at]) {
            at += 1;
        } else if continues_line(text, at) {
            at += 2;
        } else {
            break;
        }
    }
    at
}

/// The place after the byte here, and after the byte that it escapes if it is a backslash.
pub(crate) fn after_escape(text: &[u8], at: usize) -> usize
    requires { at < length text.now }
    ensures escaped { slice_index text.now at ≡ 92 → result ≡ min (at + 2) (length text.now) }
    ensures single { slice_index text.now at ≢ 92 → result ≡ at + 1 }
{
    if text[at] == b'\\' && at + 1 < text.len() {
        at + 2
    } else {
        at + 1
    }
}

/// The place of the newline that ends the comment whose `#` is before here, or the end (Tcl(n), rule 10).
#[tactic(auto, using(crate::proofs::Scanning::comment_steps))]
fn comment_end(text: &[u8], from: usize) -> usize
    requires { from ≤ length text.now }
    ensures place { result ≡ from + reading.comment false (drop from text.now) }
    ensures within { result ≤ length text.now }
{
    let mut at = next_special(text, from);
    while at < text.len() && text[at] != b'\n' {
        at = next_special(text, after_escape(text, at));
    }
    at
}

/// Whether this byte stands between commands: white space or a semicolon.
fn is_separator(byte: u8) -> bool
    ensures { result ≡ characters.is_white_space byte || byte == 59 }
{
    is_white_space(byte) || byte == b';'
}

/// The place of the first command from here on, or the end (Tcl(n), rules 1 and 10).
#[tactic(auto, using(crate::proofs::Scanning::skip_steps))]
pub(crate) fn skip_end(text: &[u8], from: usize) -> usize
    requires { from ≤ length text.now }
    ensures place { result ≡ from + reading.skipped 0 (drop from text.now) }
    ensures within { result ≤ length text.now }
    ensures word { result < length text.now → reading.separates Place.Script (drop result text.now) ≡ false }
{
    let mut at = from;
    while at < text.len() {
        if is_separator(text[at]) {
            at += 1;
        } else if continues_line(text, at) {
            at += 2;
        } else if text[at] == b'#' {
            at = comment_end(text, at + 1);
        } else {
            break;
        }
    }
    at
}

/// Whether this byte ends a command: a newline or a semicolon, and in brackets a `]`.
fn is_terminator(byte: u8, place: Place) -> bool
    ensures { result ≡ reading.is_terminator place byte }
{
    match place {
        Place::Script => byte == b'\n' || byte == b';',
        Place::Brackets => byte == b'\n' || byte == b';' || byte == b']',
    }
}

/// Whether a word of a command ends before here: at the end, before a gap or before a terminator.
pub(crate) fn separates(text: &[u8], at: usize, place: Place) -> bool
    requires { at ≤ length text.now }
    ensures { result ≡ reading.separates place (drop at text.now) }
{
    at == text.len()
        || is_white_space(text[at])
        || is_terminator(text[at], place)
        || continues_line(text, at)
}

/// Whether a command ends before here.
pub(crate) fn ends_command(text: &[u8], at: usize, place: Place) -> bool
    requires { at ≤ length text.now }
    ensures { result ≡ reading.ends_command place (drop at text.now) }
{
    at == text.len() || is_terminator(text[at], place)
}

/// Whether parts end before here.
pub(crate) fn ends_parts(text: &[u8], at: usize, ending: Ending) -> bool
    requires { at ≤ length text.now }
    ensures { result ≡ reading.ends_parts ending (drop at text.now) }
{
    match ending {
        Ending::Word(place) => separates(text, at, place),
        Ending::Quote => begins(text, at, b'"'),
        Ending::Parenthesis => begins(text, at, b')'),
    }
}

/// Whether `{*}` and a byte that is no white space stand here (Tcl(n), rule 5).
#[tactic(auto, using(crate::proofs::Scanning::expansion_steps))]
pub(crate) fn expands(text: &[u8], at: usize) -> bool
    requires { at ≤ length text.now }
    ensures { result ≡ reading.expands (drop at text.now) }
{
    begins(text, at, b'{')
        && begins(text, at + 1, b'*')
        && begins(text, at + 2, b'}')
        && begins_black(text, at + 3)
}

/// Whether a byte that is no white space stands here.
fn begins_black(text: &[u8], at: usize) -> bool
    ensures { result ≡ reading.begins_black (drop at text.now) }
{
    at < text.len() && !is_white_space(text[at])
}

/// The end of a run of letters from here on, among parts that end so.
#[inline(always)]
pub(crate) fn letters_end(text: &[u8], from: usize, ending: Ending) -> usize
    requires { from ≤ length text.now }
    ensures { result ≡ from + position_or_len (ends_run ending) (drop from text.now) }
{
    match ending {
        Ending::Word(_) => next_special(text, from),
        Ending::Quote => next_in_quotes(text, from),
        Ending::Parenthesis => next_in_index(text, from),
    }
}
