//! Texts split into fields.
ghost use Rattle.std.specs.Prelude.{◌≡◌, ◌<◌, length, IfOk, IfSome, MatchOption};
ghost use Rattle.tt_text.specs.Characters.{characters};
ghost use Rattle.tt_strings.specs.Splitting.{BeginsWithField, HasNone, IsSplit, IsSplitInto};

use crate::trimming::is_among;
use std::alloc::Global;
use tt_text::{NoMemory, Text, Texts, split_character};

/// The fields of a text between the splitting characters (split(n)).
///
/// Without splitting characters each character is a field. An empty text has no fields. `NoMemory` if memory
/// for them is refused.
#[tactic(auto, using(crate::proofs::Fields::no_text, crate::proofs::Fields::each_one, crate::proofs::Fields::between_some))]
pub fn split_at(alloc: Global, text: &[u8], splitting: &[u8]) -> Result<Texts, NoMemory>
    ensures { IfOk result (λ fields. IsSplitInto (characters splitting.now) (characters text.now) fields) }
{
    let [_, ..] = text else {
        return Ok(Texts::new(alloc));
    };
    let [_, ..] = splitting else {
        let fields = each_character(alloc, text)?;
        return Ok(fields);
    };
    let fields = fields(alloc, text, splitting)?;
    Ok(fields)
}

fn each_character(alloc: Global, text: &[u8]) -> Result<Texts, NoMemory>
    ensures { IfOk result (λ all. all ≡ characters text.now) }
{
    let mut all = Texts::new(alloc);
    let mut left = text;
    'characters: while let Some((first, rest)) = split_character(left) {
        all.push(Text::from_bytes(alloc, first)?)?;
        left = rest;
    }
    Ok(all)
}

fn fields(alloc: Global, text: &[u8], splitting: &[u8]) -> Result<Texts, NoMemory>
    ensures { IfOk result (λ fields. IsSplit (characters splitting.now) (characters text.now) fields) }
{
    let mut fields = Texts::new(alloc);
    let mut left = text;
    'fields: while let Some((field, after)) = next_field(left, splitting) {
        fields.push(Text::from_bytes(alloc, field)?)?;
        left = after;
    }
    fields.push(Text::from_bytes(alloc, left)?)?;
    Ok(fields)
}

// The text before the first splitting character, and the text after it.
#[tactic(auto, using(crate::proofs::Fields::none_passed, crate::proofs::Fields::one_passed, crate::proofs::Fields::all_passed, crate::proofs::Fields::found_field))]
fn next_field<'a>(text: &'a [u8], splitting: &[u8]) -> Option<(&'a [u8], &'a [u8])>
    ensures cases { MatchOption result (HasNone (characters splitting.now) (characters text.now))
        (λ parts. BeginsWithField (characters splitting.now) (characters text.now) (characters parts.0.now)
        (characters parts.1.now)) }
    ensures shorter { IfSome result (λ parts. length parts.1.now < length text.now) }
{
    let mut left = text;
    'characters: while let Some((first, rest)) = split_character(left) {
        if is_among(first, splitting) {
            return Some((&text[..text.len() - left.len()], rest));
        }
        left = rest;
    }
    None
}
