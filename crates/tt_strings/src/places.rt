//! Characters by their places.
ghost use Rattle.std.specs.Prelude.{◌≡◌, length, take, drop, min, IsTrue};
ghost use Rattle.tt_text.specs.Characters.{characters};
ghost use Rattle.tt_strings.specs.Places.{character_at, bytes_of, places_before, places_through, range};

use tt_text::{Text, char_count, split_character};

/// The character at a place (string(n), string index): empty if the text has no such place.
///
/// The first character is at place 0.
#[tactic(auto, using(crate::proofs::Ranges::one_character))]
pub fn character_at(text: &[u8], place: i128) -> &[u8]
    ensures { result.now ≡ character_at place (characters text.now) }
{
    range(text, place, place)
}

/// The characters from the place `first` to the place `last`, as far as there are any (string(n), string range).
///
/// The first character is at place 0.
#[tactic(auto, using(crate::proofs::Ranges::between, crate::proofs::Ranges::text_of))]
pub fn range(text: &[u8], first: i128, last: i128) -> &[u8]
    ensures text { result.now ≡ bytes_of (range first last (characters text.now)) }
    ensures characters { characters result.now ≡ range first last (characters text.now) }
{
    let front = leading(text, places_through(last, text.len()));
    after(front, places_before(first, text.len()))
}

/// The same part of a text that knows whether each of its characters is one byte: then in constant time.
#[tactic(auto, using(crate::proofs::Ranges::text_of))]
pub fn range_in(text: &Text, first: i128, last: i128) -> &[u8]
    ensures text { result.now ≡ bytes_of (range first last (characters text.now)) }
{
    if text.is_narrow() {
        narrow_range(text.as_bytes(), first, last)
    } else {
        range(text.as_bytes(), first, last)
    }
}

/// The same character of such a text.
#[tactic(auto, using(crate::proofs::Ranges::one_character))]
pub fn character_in(text: &Text, place: i128) -> &[u8]
    ensures { result.now ≡ character_at place (characters text.now) }
{
    range_in(text, place, place)
}

// The same part of a text of which each character is one byte.
#[tactic(auto, using(crate::proofs::Narrow::narrow_range))]
fn narrow_range(text: &[u8], first: i128, last: i128) -> &[u8]
    requires narrow { length (characters text.now) ≡ length text.now }
    ensures characters { characters result.now ≡ range first last (characters text.now) }
{
    let (front, _) = text.split_at(places_through(last, text.len()));
    let (_, part) = front.split_at(places_before(first, text.len()).min(front.len()));
    part
}

// How many places are less than this one, and at most so many.
fn places_before(place: i128, most: usize) -> usize
    ensures { result ≡ min (places_before place) most }
{
    if place < 0 {
        0
    } else if place < most as i128 {
        place as usize
    } else {
        most
    }
}

// How many places are at most this one, and at most so many.
fn places_through(place: i128, most: usize) -> usize
    ensures { result ≡ min (places_through place) most }
{
    if place < 0 {
        0
    } else if place < most as i128 {
        place as usize + 1
    } else {
        most
    }
}

/// The first characters of a text, so many, or all if it has fewer.
pub fn leading(text: &[u8], count: usize) -> &[u8]
    ensures text { result.now ≡ bytes_of (take count (characters text.now)) }
    ensures characters { characters result.now ≡ take count (characters text.now) }
{
    let rest = after(text, count);
    &text[..text.len() - rest.len()]
}

// The text after its first characters, so many. If each is one byte, no character is looked at.
#[tactic(auto, using(crate::proofs::Narrow::narrow_rest))]
fn after(text: &[u8], count: usize) -> &[u8]
    ensures { characters result.now ≡ drop count (characters text.now) }
{
    if is_narrow(text) {
        let (_, rest) = text.split_at(count.min(text.len()));
        return rest;
    }
    after_each(text, count)
}

// Whether each of its characters is one byte.
fn is_narrow(text: &[u8]) -> bool
    ensures { IsTrue result → length (characters text.now) ≡ length text.now }
{
    char_count(text) == text.len()
}

// The text after its first characters, so many, one after another.
fn after_each(mut text: &[u8], mut count: usize) -> &[u8]
    ensures { characters result.now ≡ drop count (characters text.entry.now) }
{
    while count > 0 {
        let Some((_, rest)) = split_character(text) else {
            return text;
        };
        text = rest;
        count -= 1;
    }
    text
}
