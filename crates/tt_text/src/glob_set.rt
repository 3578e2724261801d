//! The sets of glob patterns, `[..]`.
ghost use Rattle.std.specs.Prelude.{◌≡◌, ◌∷◌, ◌||◌, ◌<◌, [], length, List, ℕ, MatchOption, IfSome};
ghost use Rattle.tt_text.specs.Characters.{characters};
ghost use Rattle.tt_text.specs.Glob.{after_set, is_at_most, is_between, is_listed, set_members};

use crate::characters::{is_byte, split_character};

// A range of a set, by its two ends, and the set after it.
#[derive(Clone, Copy)]
struct Range<'a> {
    from: &'a [u8],
    to: &'a [u8],
    rest: &'a [u8],
}

/// Whether the set that begins at the front lists the character.
pub(crate) fn is_listed(set: &[u8], character: &[u8]) -> bool
    ensures { result ≡ is_listed (set_members (characters set.now)) character.now }
{
    let mut rest = set;
    while let Some(range) = first_range(rest) {
        if is_between(range.from, range.to, character) {
            return true;
        }
        rest = range.rest;
    }
    false
}

/// The pattern after the set that begins at the front, if the set is closed.
pub(crate) fn after_set(pattern: &[u8]) -> Option<&[u8]>
    ensures cases { MatchOption result
        (after_set (characters pattern.now) ≡ None)
        (λ after. after_set (characters pattern.now) ≡ Some (characters after.now)) }
    ensures shorter { IfSome result (λ after. length after.now < length pattern.now) }
{
    let mut rest = pattern;
    while let Some((character, after)) = split_character(rest) {
        if is_byte(character, b']') {
            return Some(after);
        }
        rest = after;
    }
    None
}

fn first_range(set: &[u8]) -> Option<Range<'_>>
    ensures cases { MatchOption result
        (set_members (characters set.now) ≡ [])
        (λ range. (c : List ℕ) → is_listed (set_members (characters set.now)) c ≡
        (is_between (record { from = range.from.now; to = range.to.now }) c
        || is_listed (set_members (characters range.rest.now)) c)) }
    ensures shorter { IfSome result (λ range. length range.rest.now < length set.now) }
{
    let (from, rest) = first_member(set)?;
    if let Some((dash, after)) = first_member(rest)
        && is_byte(dash, b'-')
        && let Some((to, rest)) = first_member(after)
    {
        return Some(Range { from, to, rest });
    }
    Some(Range {
        from,
        to: from,
        rest,
    })
}

fn first_member(set: &[u8]) -> Option<(&[u8], &[u8])>
    ensures cases { MatchOption result
        (set_members (characters set.now) ≡ [])
        (λ parts. set_members (characters set.now) ≡ parts.0.now ∷ set_members (characters parts.1.now)) }
    ensures shorter { IfSome result (λ parts. length parts.1.now < length set.now) }
{
    let (character, rest) = split_character(set)?;
    if is_byte(character, b']') {
        None
    } else {
        Some((character, rest))
    }
}

fn is_between(from: &[u8], to: &[u8], character: &[u8]) -> bool
    ensures { result ≡ is_between (record { from = from.now; to = to.now }) character.now }
{
    let is_up = is_at_most(from, character) && is_at_most(character, to);
    let is_down = is_at_most(to, character) && is_at_most(character, from);
    is_up || is_down
}

fn is_at_most(character: &[u8], other: &[u8]) -> bool
    ensures { result ≡ is_at_most character.now other.now }
{
    character.cmp(&other).is_le()
}
