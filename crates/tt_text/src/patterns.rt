//! Glob patterns.
ghost use Rattle.std.specs.Prelude.{◌≡◌, ◌∷◌, ◌<◌, ◌≤◌, ◌↔◌, ◌≢◌, [], codes, length, IsTrue, MatchOption, IfSome};
ghost use Rattle.tt_text.specs.Characters.{characters};
ghost use Rattle.tt_text.specs.GlobFunction.{is_match};
ghost use Rattle.tt_text.specs.Glob.{Matches};
ghost use Rattle.tt_text.specs.inside.GlobScan.{BeginsWithNoRun, IsSegmentOf, IsShorterThan, Means, RefusesFirst};
ghost use Rattle.tt_text.specs.inside.GlobScan.{TakesFirst};

use crate::characters::{is_byte, split_character};
use crate::glob_set::{after_set, is_listed};

// How a pattern fares against a text, up to its first `*`.
#[derive(Clone, Copy)]
enum Segment<'a> {
    // It has no `*`, and matches the whole text.
    Whole,
    Fails,
    // The pattern after the `*`, and the remaining text.
    Run(&'a [u8], &'a [u8]),
}

/// Whether the pattern matches the whole text (string(n), string match).
///
/// Both are read as characters. It takes time up to the length of the pattern times that of the text.
pub fn glob(pattern: &[u8], text: &[u8]) -> bool
    ensures matches { IsTrue result ↔ Matches (characters pattern.now) (characters text.now) }
    ensures answer { result ≡ is_match (characters pattern.now) (characters text.now) }
{
    let matches = scanned(pattern, text);
    matches
}

fn scanned(pattern: &[u8], text: &[u8]) -> bool
    ensures { IsTrue result ↔ Matches (characters pattern.now) (characters text.now) }
{
    let (mut left, mut rest) = match scan_segment(pattern, text) {
        Segment::Whole => return true,
        Segment::Fails => return false,
        Segment::Run(left, rest) => (left, rest),
    };

    // What a later `*` skips an earlier one need not, so the first place that fits a segment is the one to take.
    'places: loop {
        match scan_segment(left, rest) {
            Segment::Whole => return true,
            Segment::Run(after, text) => {
                left = after;
                rest = text;
            }
            Segment::Fails => match split_character(rest) {
                None => return false,
                Some((_, later)) => rest = later,
            },
        }
    }
}

fn scan_segment<'a>(pattern: &'a [u8], text: &'a [u8]) -> Segment<'a>
    ensures cases { IsSegmentOf result (characters pattern.now) (characters text.now) }
    ensures shorter { IsShorterThan result pattern.now text.now }
{
    let mut left = pattern;
    let mut rest = text;
    'pieces: loop {
        if let Some(after) = after_run(left) {
            return Segment::Run(after, rest);
        }
        let Some((character, later)) = split_character(rest) else {
            return if left.is_empty() {
                Segment::Whole
            } else {
                Segment::Fails
            };
        };
        let Some(after) = after_character(left, character) else {
            return Segment::Fails;
        };
        left = after;
        rest = later;
    }
}

// The pattern after a `*` at its front.
fn after_run(pattern: &[u8]) -> Option<&[u8]>
    ensures cases { MatchOption result
        (BeginsWithNoRun (characters pattern.now))
        (λ after. characters pattern.now ≡ codes "*" ∷ characters after.now) }
    ensures shorter { IfSome result (λ after. length after.now < length pattern.now) }
{
    let (first, after) = split_character(pattern)?;
    if is_byte(first, b'*') {
        Some(after)
    } else {
        None
    }
}

// The pattern after its first piece, if that takes the character.
fn after_character<'a>(pattern: &'a [u8], character: &[u8]) -> Option<&'a [u8]>
    requires { BeginsWithNoRun (characters pattern.now) }
    ensures cases { MatchOption result
        (RefusesFirst (characters pattern.now) character.now)
        (λ after. TakesFirst (characters pattern.now) (characters after.now) character.now) }
    ensures shorter { IfSome result (λ after. length after.now < length pattern.now) }
{
    let (first, rest) = split_character(pattern)?;
    if is_byte(first, b'?') {
        return Some(rest);
    }
    if is_byte(first, b'[') {
        return if is_listed(rest, character) {
            after_set(rest)
        } else {
            None
        };
    }
    let (meant, after) = meant_character(first, rest);
    if is_same(meant, character) {
        Some(after)
    } else {
        None
    }
}

// The character that an escape or an ordinary character at the front means, and the pattern after it.
fn meant_character<'a>(first: &'a [u8], rest: &'a [u8]) -> (&'a [u8], &'a [u8])
    requires no_run { first.now ≢ codes "*" }
    requires no_any { first.now ≢ codes "?" }
    requires no_set { first.now ≢ codes "[" }
    ensures means { Means (first.now ∷ characters rest.now) (characters result.1.now) result.0.now }
    ensures no_longer { length result.1.now ≤ length rest.now }
{
    if !is_byte(first, b'\\') {
        return (first, rest);
    }
    match split_character(rest) {
        Some((escaped, after)) => (escaped, after),
        // A last backslash means itself.
        None => (first, rest),
    }
}

fn is_same(character: &[u8], other: &[u8]) -> bool
    ensures { IsTrue result ↔ (character.now ≡ other.now) }
{
    character == other
}
