//! An item taken out of the list in an element.
ghost use Rattle.std.specs.Prelude.{◌≡◌, ◌<◌, length, IfOk, IfSome};
ghost use Rattle.std.specs.Option.{ForSome};
ghost use Rattle.tt_lists.specs.Reading.{split_of};
ghost use Rattle.tt_tsv.specs.Elements.{place_within, pops, pops_among, pops_at, pops_of};
ghost use Rattle.tt_tsv.specs.inside.Changed.{value_left};

use crate::change::{Change, not_asked};
use std::alloc::Global;
use tt_lists::{ListAnswer, bad_index, index};
use tt_text::{NoMemory, Text};
use tt_value::{Items, Value};

/// The first item, or that of an index; outside the list none.
pub(crate) fn pop(alloc: Global, value: &mut Value, words: &[Text]) -> Result<Change, NoMemory>
    ensures change { IfOk result (λ change. change ≡ pops value.old words.now) }
    ensures value { IfOk result (λ change. value.new ≡ value_left change value.old) }
{
    match words {
        [] => pop_of(alloc, value, b"0"),
        [index] => pop_of(alloc, value, index.as_bytes()),
        _ => not_asked(alloc),
    }
}

#[tactic(auto, using(crate::proofs::ListAnswers::is_split, crate::proofs::ListAnswers::is_no_list))]
fn pop_of(alloc: Global, value: &mut Value, word: &[u8]) -> Result<Change, NoMemory>
    ensures change { IfOk result (λ change. change ≡ pops_of (split_of value.old) word.now) }
    ensures value { IfOk result (λ change. value.new ≡ value_left change value.old) }
{
    match value.items(alloc)? {
        Ok(items) => pop_among(alloc, value, items, word),
        Err(fault) => {
            let message = fault.message(alloc)?;
            Ok(Change::Kept(ListAnswer::Bad(message)))
        }
    }
}

fn pop_among(
    alloc: Global,
    value: &mut Value,
    items: Items,
    word: &[u8],
) -> Result<Change, NoMemory>
    ensures change { IfOk result (λ change. change ≡ pops_among items word.now) }
    ensures value { IfOk result (λ change. value.new ≡ value_left change value.old) }
{
    let Some(index) = index(word) else {
        let message = bad_index(alloc, word)?;
        return Ok(Change::Kept(ListAnswer::Bad(message)));
    };
    let count = items.as_slice().len();
    let place = place_within(index.place(count), count);
    pop_at(alloc, value, items, place)
}

// A place, if it is one of so many.
fn place_within(place: i128, count: usize) -> Option<usize>
    ensures is { result ≡ place_within place count }
    ensures within { IfSome result (λ place. place < count) }
{
    if 0 <= place && place < count as i128 {
        Some(place as usize)
    } else {
        None
    }
}

// The others are the value then, as a list whose text is made when it is asked for. The value gives up its share of the
// items first, so that none is copied if nobody else has them.
fn pop_at(
    alloc: Global,
    value: &mut Value,
    items: Items,
    place: Option<usize>,
) -> Result<Change, NoMemory>
    requires { ForSome place (λ place. place < length items) }
    ensures change { IfOk result (λ change. change ≡ pops_at items place) }
    ensures value { IfOk result (λ change. value.new ≡ value_left change value.old) }
{
    let Some(place) = place else {
        return Ok(Change::Kept(ListAnswer::Made(Text::new(alloc))));
    };
    *value = Value::new(alloc);
    let mut others = items.into_vec()?;
    let item = others.remove(place);
    *value = Value::from_items(others)?;
    Ok(Change::Put(value.copy()?, item))
}
