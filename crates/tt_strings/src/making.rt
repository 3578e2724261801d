//! Texts made from texts, and texts compared.
ghost use Rattle.std.specs.Prelude.{◌≡◌, ◌*◌, ◌<◌, ◌≤◌, ◌^◌, length, map, reverse, IfOk};
ghost use Rattle.std.specs.Char.{to_ascii_lowercase, to_ascii_uppercase};
ghost use Rattle.std.specs.List.{repeat};
ghost use Rattle.tt_text.specs.Characters.{characters};
ghost use Rattle.tt_strings.specs.Making.{IsRepeated, comparison, times};
ghost use Rattle.tt_strings.specs.Places.{bytes_of};

use crate::ends::split_last;
use std::alloc::Global;
use std::cmp::Ordering;
use tt_text::{NoMemory, Text};

/// The greatest length of a repeated text, in bytes.
pub const LONGEST: usize = 268_435_456;

/// What repeating a text comes to (string(n), string repeat).
#[derive(Debug, Drop)]
pub enum Repetition {
    /// The text so many times over.
    Made(Text),
    /// It would be longer than `LONGEST`; nothing was made.
    TooLong,
}

/// The text so many times over, and no time if the count is below 1 (string(n), string repeat).
///
/// `NoMemory` if memory for it is refused.
#[tactic(auto, using(crate::proofs::Copies::empty_repeated, crate::proofs::Copies::empty_fits))]
pub fn repeated(alloc: Global, text: &[u8], count: i64) -> Result<Repetition, NoMemory>
    ensures { IfOk result (λ answer. IsRepeated answer text.now count) }
{
    let [_, ..] = text else {
        return Ok(Repetition::Made(Text::new(alloc)));
    };
    let count = times(count);
    match count.checked_mul(text.len()) {
        Some(size) if size <= LONGEST => {
            let made = copies(alloc, text, count)?;
            Ok(Repetition::Made(made))
        }
        _ => Ok(Repetition::TooLong),
    }
}

// How often the count repeats.
fn times(count: i64) -> usize
    ensures { result ≡ times count }
{
    if count < 1 { 0 } else { count as usize }
}

#[tactic(auto, using(crate::proofs::Copies::one_more))]
fn copies(alloc: Global, text: &[u8], count: usize) -> Result<Text, NoMemory>
    ensures { IfOk result (λ made. made ≡ repeat count text.now) }
{
    let mut made = Vec::new(alloc);
    for _ in 0..count {
        made.extend_from_slice(text)?;
    }
    Ok(Text::from_vec(alloc, made)?)
}

/// The text's characters in reverse order (string(n), string reverse).
///
/// `NoMemory` if memory for it is refused.
pub fn reversed(alloc: Global, text: &[u8]) -> Result<Text, NoMemory>
    ensures { IfOk result (λ made. made ≡ bytes_of (reverse (characters text.now))) }
{
    let mut made = Vec::with_capacity(alloc, text.len())?;
    let mut left = text;
    'ends: while let Some((front, last)) = split_last(left) {
        made.extend_from_slice(last)?;
        left = front;
    }
    Ok(Text::from_vec(alloc, made)?)
}

/// The text with each of `A` to `Z` in lower case (string(n), string tolower, for ASCII letters).
///
/// `NoMemory` if memory for it is refused.
pub fn lower(alloc: Global, text: &[u8]) -> Result<Text, NoMemory>
    ensures { IfOk result (λ made. made ≡ map to_ascii_lowercase text.now) }
{
    Ok(Text::from_vec(alloc, text.to_ascii_lowercase(alloc)?)?)
}

/// The text with each of `a` to `z` in upper case (string(n), string toupper, for ASCII letters).
///
/// `NoMemory` if memory for it is refused.
pub fn upper(alloc: Global, text: &[u8]) -> Result<Text, NoMemory>
    ensures { IfOk result (λ made. made ≡ map to_ascii_uppercase text.now) }
{
    Ok(Text::from_vec(alloc, text.to_ascii_uppercase(alloc)?)?)
}

/// -1, 0 or 1, as the first text comes before the other, is it, or comes after it, by their bytes (string(n),
/// string compare).
pub fn compare(text: &[u8], other: &[u8]) -> i64
    ensures { result ≡ comparison text.now other.now }
{
    match text.cmp(other) {
        Ordering::Less => -1,
        Ordering::Equal => 0,
        Ordering::Greater => 1,
    }
}
