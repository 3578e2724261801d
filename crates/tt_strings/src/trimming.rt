//! Characters left out at the ends of a text.
ghost use Rattle.std.specs.Prelude.{◌≡◌};
ghost use Rattle.tt_text.specs.Characters.{characters};
ghost use Rattle.tt_strings.specs.Places.{bytes_of};
ghost use Rattle.tt_strings.specs.Trimming.{is_among, trim_left, trim_right, trim};

use crate::ends::split_last;
use tt_text::split_character;

/// The ends of a text at which characters are left out.
#[derive(Clone, Copy, Debug, PartialEq, Eq)]
pub enum Side {
    /// At its beginning (string(n), string trimleft).
    Left,
    /// At its end (string(n), string trimright).
    Right,
    /// At both (string(n), string trim).
    Both,
}

/// White space, which is left out if no characters are named.
pub static WHITE_SPACE: &[u8] = b"\t\n\x0b\x0c\r ";

/// The text without those characters at the ends of that side (string(n), string trim).
#[tactic(auto, using(crate::proofs::Ranges::text_of))]
pub fn trim<'a>(text: &'a [u8], trimmed: &[u8], side: Side) -> &'a [u8]
    ensures text { result.now ≡ bytes_of (trim side (characters trimmed.now) (characters text.now)) }
    ensures characters { characters result.now ≡ trim side (characters trimmed.now) (characters text.now) }
{
    match side {
        Side::Left => without_front(text, trimmed),
        Side::Right => without_back(text, trimmed),
        Side::Both => without_back(without_front(text, trimmed), trimmed),
    }
}

// The text from its first character on that is none of these.
#[tactic(auto, using(crate::proofs::Trims::left_out, crate::proofs::Trims::left_stays))]
fn without_front<'a>(mut text: &'a [u8], trimmed: &[u8]) -> &'a [u8]
    ensures { characters result.now ≡ trim_left (characters trimmed.now) (characters text.entry.now) }
{
    while let Some((first, rest)) = split_character(text) {
        if !is_among(first, trimmed) {
            break;
        }
        text = rest;
    }
    text
}

// The text up to its last character that is none of these.
#[tactic(auto, using(crate::proofs::Trims::right_out, crate::proofs::Trims::right_stays))]
fn without_back<'a>(mut text: &'a [u8], trimmed: &[u8]) -> &'a [u8]
    ensures { characters result.now ≡ trim_right (characters trimmed.now) (characters text.entry.now) }
{
    while let Some((front, last)) = split_last(text) {
        if !is_among(last, trimmed) {
            break;
        }
        text = front;
    }
    text
}

// Whether the character is one of those.
pub(crate) fn is_among(character: &[u8], mut listed: &[u8]) -> bool
    ensures { result ≡ is_among (characters listed.entry.now) character.now }
{
    while let Some((first, rest)) = split_character(listed) {
        if character == first {
            return true;
        }
        listed = rest;
    }
    false
}
