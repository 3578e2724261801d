//! Parts of a text replaced.
ghost use Rattle.std.specs.Prelude.{◌≡◌, ◌≢◌, ◌<◌, ◌++◌, ℕ, List, [], length, IfOk, IfSome, MatchOption};
ghost use Rattle.tt_text.specs.Characters.{characters};
ghost use Rattle.tt_strings.specs.inside.Ends.{goes_on};
ghost use Rattle.tt_strings.specs.Mapping.{HasNoPair, IsAtFront, IsFirstPair, IsMapped, IsNotAtFront, IsStep};

use std::alloc::Global;
use tt_text::{NoMemory, Text, continues_character, split_character};

/// The text with each key of the pairs replaced by the value after it (string(n), string map).
///
/// At each place the first pair counts whose key stands there, and what has been put is not looked at again. An
/// empty key and a last key without a value are passed over. `NoMemory` if memory for the text is refused.
pub fn mapped(alloc: Global, pairs: &[Text], text: &[u8]) -> Result<Text, NoMemory>
    ensures { IfOk result (λ made. IsMapped pairs.now (characters text.now) made) }
{
    let mut made = Vec::new(alloc);
    let mut left = text;
    'places: while let Some((part, rest)) = next_part(pairs, left) {
        made.extend_from_slice(part)?;
        left = rest;
    }
    Ok(Text::from_vec(alloc, made)?)
}

// What stands at the front of the text becomes, and the text after it.
#[tactic(auto, using(crate::proofs::Pairs::step_kept, crate::proofs::Pairs::step_replaced))]
fn next_part<'a>(pairs: &'a [Text], text: &'a [u8]) -> Option<(&'a [u8], &'a [u8])>
    ensures cases { MatchOption result (text.now ≡ [])
        (λ parts. IsStep pairs.now (characters text.now) parts.0.now (characters parts.1.now)) }
    ensures shorter { IfSome result (λ parts. length parts.1.now < length text.now) }
{
    let (first, rest) = split_character(text)?;
    match first_pair(pairs, text) {
        Some((value, after)) => Some((value, after)),
        None => Some((first, rest)),
    }
}

// The value of the first pair whose key stands at the front of the text, and the text after the key.
fn first_pair<'a>(pairs: &'a [Text], text: &'a [u8]) -> Option<(&'a [u8], &'a [u8])>
    ensures cases { MatchOption result (HasNoPair pairs.now (characters text.now))
        (λ parts. IsFirstPair pairs.now (characters text.now) parts.0.now (characters parts.1.now)) }
    ensures shorter { IfSome result (λ parts. length parts.1.now < length text.now) }
{
    let mut left = pairs;
    'pairs: while let [key, value, more @ ..] = left {
        if let Some(after) = after_key(text, key.as_bytes()) {
            return Some((value.as_bytes(), after));
        }
        left = more;
    }
    None
}

// The text after a key at its front, if the key stands there as whole characters and isn't empty.
#[tactic(auto, using(crate::proofs::Keys::empty_nowhere, crate::proofs::Keys::no_bytes, crate::proofs::Keys::cut_character, crate::proofs::Keys::found, crate::proofs::Keys::found_shorter))]
fn after_key<'a>(text: &'a [u8], key: &[u8]) -> Option<&'a [u8]>
    ensures cases { MatchOption result (IsNotAtFront key.now (characters text.now))
        (λ after. IsAtFront key.now (characters text.now) (characters after.now)) }
    ensures shorter { IfSome result (λ after. length after.now < length text.now) }
{
    let [_, ..] = key else {
        return None;
    };
    let Some(after) = after_bytes(text, key) else {
        return None;
    };
    if goes_on(after) { None } else { Some(after) }
}

// The text after these bytes at its front.
fn after_bytes<'a>(text: &'a [u8], front: &[u8]) -> Option<&'a [u8]>
    ensures { MatchOption result ((rest : List ℕ) → text.now ≢ front.now ++ rest)
        (λ after. text.now ≡ front.now ++ after.now) }
{
    let after = text.strip_prefix(front);
    after
}

// Whether the text's first byte goes on a character that began before it.
pub(crate) fn goes_on(text: &[u8]) -> bool
    ensures { result ≡ goes_on text.now }
{
    match text.split_first() {
        Some((first, _)) => continues_character(*first),
        None => false,
    }
}
