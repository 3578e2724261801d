//! How texts are read as dictionaries.
ghost use Rattle.std.specs.Prelude.{◌≡◌, ◌<◌, ◌==◌, Some, None, if◌then◌else◌, length, IfOk, IfSome};
ghost use Rattle.std.specs.Option.{option_map};
ghost use Rattle.tt_pairs.specs.Reading.{pairs_of, reading_of, whole};
ghost use Rattle.tt_pairs.specs.inside.Front.{first_pair};

use crate::Dictionary;
use std::alloc::Global;
use tt_lists::{Split, split};
use tt_text::{NoMemory, Text};

/// Reads a text as a dictionary (dict(n)): the pairs that its list has, if of equal keys the first has the place and
/// the last the value.
///
/// `Err` has the message if the text is no list, or its last key has no value. `NoMemory` if memory is refused.
pub fn read(alloc: Global, text: &[u8]) -> Result<Result<Dictionary, Text>, NoMemory>
    ensures reading { IfOk result (λ reading. reading ≡ reading_of text.now) }
{
    match split(alloc, text)? {
        Split::Items(items) => read_items(alloc, items.as_slice()),
        Split::Bad(fault) => Ok(Err(fault.message(alloc)?)),
    }
}

fn read_items(alloc: Global, items: &[Text]) -> Result<Result<Dictionary, Text>, NoMemory>
    ensures { IfOk result (λ reading. reading ≡ whole (pairs_of items.now)) }
{
    match paired(alloc, items)? {
        Some(dictionary) => Ok(Ok(dictionary)),
        None => Ok(Err(Text::from_bytes(alloc, b"missing value to go with key")?)),
    }
}

/// The pairs of keys and values in turn, put in one after the other; `None` if the last key has no value.
///
/// `NoMemory` if memory is refused.
#[tactic(auto, using(crate::proofs::Pairing::pair_more, crate::proofs::Pairing::pair_last))]
pub fn paired(alloc: Global, items: &[Text]) -> Result<Option<Dictionary>, NoMemory>
    ensures pairs { IfOk result (λ pairs. pairs ≡ pairs_of items.now) }
{
    let mut dictionary = Dictionary::new(alloc);
    let mut left = items;
    'pairs: while let Some((key, value, later)) = first_pair(left) {
        dictionary.put(key.copy()?, value.copy()?)?;
        left = later;
    }
    Ok(if_none_left(dictionary, left))
}

// The first two items, and those after them.
fn first_pair(items: &[Text]) -> Option<(&Text, &Text, &[Text])>
    ensures pair { option_map (λ parts. (parts.0.now, parts.1.now, parts.2.now)) result ≡ first_pair items.now }
    ensures shorter { IfSome result (λ parts. length parts.2.now < length items.now) }
{
    match items {
        [key, value, later @ ..] => Some((key, value, later)),
        _ => None,
    }
}

fn if_none_left(dictionary: Dictionary, left: &[Text]) -> Option<Dictionary>
    ensures { result ≡ (if length left.now == 0 then Some dictionary else None) }
{
    if left.is_empty() {
        Some(dictionary)
    } else {
        None
    }
}
