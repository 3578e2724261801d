//! The names of variables (Tcl(n), rule 8).
ghost use Rattle.std.specs.Prelude.{◌≡◌, ◌+◌, ◌≤◌, ◌<◌, ◌==◌, ◌&&◌, length, drop, slice_index};
ghost use Rattle.std.specs.List.{prefix_len, position_or_len};
ghost use Rattle.tt_script.specs.Reading as reading;

use crate::scan::begins;
use tt_lanes::next_brace;

/// Whether this byte stands in names by itself: an ASCII letter, a digit or `_`.
fn is_name_byte(byte: u8) -> bool
    ensures { result ≡ reading.is_name_byte byte }
{
    byte.is_ascii_alphanumeric() || byte == b'_'
}

/// Whether two colons stand here.
fn is_double_colon(text: &[u8], at: usize) -> bool
    requires { at < length text.now }
    ensures { result ≡ slice_index text.now at == 58 && reading.begins 58 (drop (at + 1) text.now) }
{
    text[at] == b':' && begins(text, at + 1, b':')
}

/// The place after the colons that stand here.
#[tactic(auto, using(crate::proofs::Naming::colon_steps))]
fn colons_end(text: &[u8], from: usize) -> usize
    requires { from ≤ length text.now }
    ensures place { result ≡ from + prefix_len (λ b. b == 58) (drop from text.now) }
    ensures within { result ≤ length text.now }
{
    let mut at = from;
    while at < text.len() && text[at] == b':' {
        at += 1;
    }
    at
}

/// The place after the longest name here: name bytes, and runs of two or more colons.
#[tactic(auto, using(crate::proofs::Naming::name_steps))]
pub(crate) fn name_end(text: &[u8], from: usize) -> usize
    requires { from ≤ length text.now }
    ensures place { result ≡ from + reading.name_length 0 (drop from text.now) }
    ensures within { result ≤ length text.now }
{
    let mut at = from;
    while at < text.len() {
        if is_name_byte(text[at]) {
            at += 1;
        } else if is_double_colon(text, at) {
            at = colons_end(text, at + 1);
        } else {
            break;
        }
    }
    at
}

/// The place of the first `}` from here on, or the end.
#[tactic(auto, using(crate::proofs::Naming::brace_steps))]
pub(crate) fn brace_end(text: &[u8], from: usize) -> usize
    requires { from ≤ length text.now }
    ensures place { result ≡ from + position_or_len (λ b. b == 125) (drop from text.now) }
    ensures within { result ≤ length text.now }
{
    let mut at = next_brace(text, from);
    while at < text.len() && text[at] != b'}' {
        at = next_brace(text, at + 1);
    }
    at
}
