//! Elements are set.
ghost use Rattle.std.specs.Prelude.{◌≡◌, ◌<◌, IfOk, IfSome, length};
ghost use Rattle.std.specs.Option.{option_map};
ghost use Rattle.tt_lists.specs.Reading.{split_of};
ghost use Rattle.tt_variable_commands.specs.ArrayChanging as changing;

use crate::arrays::messages::{failed, not_array};
use crate::vocabulary::is_element;
use std::alloc::Global;
use tt_calls::{Code, Outcome};
use tt_lists::{Split, split};
use tt_store::{Store, outcome_by};
use tt_text::{NoMemory, Text};
use tt_value::Value;

/// `array set`.
pub(crate) fn set(
    alloc: Global,
    store: &mut Store,
    usage: &[u8],
    words: &[Text],
) -> Result<Outcome, NoMemory>
    ensures { IfOk result (λ outcome. changing.array_set usage.now words.now store.old outcome store.new) }
{
    match words {
        [name, list] => set_list(alloc, store, name, list),
        _ => Outcome::wrong_number(alloc, usage),
    }
}

fn set_list(alloc: Global, store: &mut Store, name: &Text, list: &Text) -> Result<Outcome, NoMemory>
    ensures { IfOk result (λ outcome. changing.SetsItems (split_of list.now) name.now store.old outcome store.new) }
{
    match split(alloc, list.as_bytes())? {
        Split::Items(items) => set_items(alloc, store, name, items.as_slice()),
        Split::Bad(fault) => Outcome::failed(fault.message(alloc)?),
    }
}

fn set_items(
    alloc: Global,
    store: &mut Store,
    name: &Text,
    items: &[Text],
) -> Result<Outcome, NoMemory>
    ensures { IfOk result (λ outcome.
        changing.SetsIf (changing.is_paired items.now) name.now items.now store.old outcome store.new) }
{
    if !is_paired(items) {
        return failed(alloc, b"list must have an even number of elements");
    }
    set_pairs(alloc, store, is_element(name), name, items)
}

fn set_pairs(
    alloc: Global,
    store: &mut Store,
    element: bool,
    name: &Text,
    items: &[Text],
) -> Result<Outcome, NoMemory>
    ensures { IfOk result (λ outcome. changing.SetsPairs element name.now items.now store.old outcome store.new) }
{
    if element {
        return set_none(alloc, name, items);
    }
    let message = set_each(alloc, store, name, items)?;
    let outcome = outcome_by(alloc, message)?;
    Ok(outcome)
}

fn set_none(alloc: Global, name: &Text, items: &[Text]) -> Result<Outcome, NoMemory>
    ensures { IfOk result (λ outcome. outcome ≡ changing.none_set name.now items.now) }
{
    match items {
        [index, ..] => not_array(alloc, name.as_bytes(), index.as_bytes()),
        [] => Ok(Outcome::fine(alloc, Text::new(alloc))),
    }
}

// The message, if an element can't be set.
fn set_each(
    alloc: Global,
    store: &mut Store,
    name: &Text,
    items: &[Text],
) -> Result<Option<Text>, NoMemory>
    ensures { IfOk result (λ message.
        changing.SetsEach name.now (changing.pairs_in items.now) store.old message store.new) }
{
    let mut left = items;
    'pairs: while let Some((index, text, later)) = first_pair(left) {
        if let Some(message) = set_one(alloc, store, name, index, text)? {
            return Ok(Some(message));
        }
        left = later;
    }
    Ok(None)
}

fn set_one(
    alloc: Global,
    store: &mut Store,
    name: &Text,
    index: &Text,
    text: &Text,
) -> Result<Option<Text>, NoMemory>
    ensures { IfOk result (λ message. changing.SetsOne name.now index.now text.now store.old message store.new) }
{
    let value = Value::from_text(text.copy()?);
    let outcome = store.write(name.as_bytes(), Some(index.as_bytes()), value)?;
    message_of(alloc, outcome)
}

fn message_of(alloc: Global, outcome: Outcome) -> Result<Option<Text>, NoMemory>
    ensures { IfOk result (λ message. message ≡ changing.message_by outcome.code outcome.value) }
{
    match outcome.code {
        Code::Failed => Ok(Some(outcome.value.into_text(alloc)?)),
        _ => Ok(None),
    }
}

// The first two items, and those after them.
fn first_pair(items: &[Text]) -> Option<(&Text, &Text, &[Text])>
    ensures pair { option_map (λ parts. (parts.0.now, parts.1.now, parts.2.now)) result
        ≡ changing.first_pair items.now }
    ensures shorter { IfSome result (λ parts. length parts.2.now < length items.now) }
{
    match items {
        [index, text, later @ ..] => Some((index, text, later)),
        _ => None,
    }
}

fn is_paired(items: &[Text]) -> bool
    ensures { result ≡ changing.is_paired items.now }
{
    items.len() % 2 == 0
}
