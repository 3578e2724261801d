//! Commands that read arrays.
ghost use Rattle.std.specs.Prelude.{◌≡◌, IfOk, OnOk};
ghost use Rattle.std.specs.Option.{option_copied};
ghost use Rattle.tt_variable_commands.specs.ArrayReading as reading;

use crate::arrays::patterns::names_like;
use crate::arrays::spots::{indices_of, size_of};
use crate::vocabulary::truth;
use std::alloc::Global;
use tt_calls::Outcome;
use tt_lists::count_text;
use tt_store::Store;
use tt_text::{NoMemory, Text, Texts};
use tt_value::Value;

/// `array exists`.
pub(crate) fn exists(
    alloc: Global,
    store: &Store,
    usage: &[u8],
    words: &[Text],
) -> Result<Outcome, NoMemory>
    ensures { IfOk result (λ outcome. reading.exists usage.now words.now store.now outcome store.now) }
{
    match words {
        [name] => tell_exists(alloc, store, name),
        _ => Outcome::wrong_number(alloc, usage),
    }
}

fn tell_exists(alloc: Global, store: &Store, name: &Text) -> Result<Outcome, NoMemory>
    ensures { IfOk result (λ outcome. reading.TellsSize reading.exists_report name.now store.now outcome store.now) }
{
    let size = size_of(store, name)?;
    let text = truth(alloc, size.is_some())?;
    Ok(Outcome::fine(alloc, text))
}

/// `array size`.
pub(crate) fn size(
    alloc: Global,
    store: &Store,
    usage: &[u8],
    words: &[Text],
) -> Result<Outcome, NoMemory>
    ensures { IfOk result (λ outcome. reading.size usage.now words.now store.now outcome store.now) }
{
    match words {
        [name] => tell_size(alloc, store, name),
        _ => Outcome::wrong_number(alloc, usage),
    }
}

fn tell_size(alloc: Global, store: &Store, name: &Text) -> Result<Outcome, NoMemory>
    ensures { IfOk result (λ outcome. reading.TellsSize reading.size_report name.now store.now outcome store.now) }
{
    let size = size_of(store, name)?;
    let text = size_text(alloc, size)?;
    Ok(Outcome::fine(alloc, text))
}

fn size_text(alloc: Global, size: Option<usize>) -> Result<Text, NoMemory>
    ensures { IfOk result (λ text. text ≡ reading.size_report size) }
{
    match size {
        Some(size) => count_text(alloc, size),
        None => count_text(alloc, 0),
    }
}

/// `array names`.
pub(crate) fn names(
    alloc: Global,
    store: &Store,
    usage: &[u8],
    words: &[Text],
) -> Result<Outcome, NoMemory>
    ensures { IfOk result (λ outcome. reading.names usage.now words.now store.now outcome store.now) }
{
    match words {
        [name] => tell_names(alloc, store, name, None),
        [name, pattern] => tell_names(alloc, store, name, Some(pattern)),
        _ => Outcome::wrong_number(alloc, usage),
    }
}

fn tell_names(
    alloc: Global,
    store: &Store,
    name: &Text,
    pattern: Option<&Text>,
) -> Result<Outcome, NoMemory>
    ensures { IfOk result (λ outcome.
        reading.Names (option_copied pattern.entry) name.now store.now outcome store.now) }
{
    let indices = indices_of(alloc, store, name)?;
    let like = names_like(alloc, pattern, indices)?;
    let list = Value::from_items(like.into_vec())?;
    Ok(Outcome::with_result(alloc, list))
}

/// `array get`.
pub(crate) fn get(
    alloc: Global,
    store: &Store,
    usage: &[u8],
    words: &[Text],
) -> Result<Outcome, NoMemory>
    ensures { IfOk result (λ outcome. reading.get usage.now words.now store.now outcome store.now) }
{
    match words {
        [name] => tell_pairs(alloc, store, name, None),
        [name, pattern] => tell_pairs(alloc, store, name, Some(pattern)),
        _ => Outcome::wrong_number(alloc, usage),
    }
}

fn tell_pairs(
    alloc: Global,
    store: &Store,
    name: &Text,
    pattern: Option<&Text>,
) -> Result<Outcome, NoMemory>
    ensures { IfOk result (λ outcome. reading.Gets (option_copied pattern.entry) name.now store.now outcome store.now) }
{
    let indices = indices_of(alloc, store, name)?;
    let like = names_like(alloc, pattern, indices)?;
    let items = pairs_of(alloc, store, name, like.as_slice())?;
    let list = Value::from_items(items.into_vec())?;
    Ok(Outcome::with_result(alloc, list))
}

fn pairs_of(alloc: Global, store: &Store, name: &Text, indices: &[Text]) -> Result<Texts, NoMemory>
    ensures { IfOk result (reading.PairsOf store.now name.now indices.now) }
{
    let mut items = Texts::new(alloc);
    for index in indices {
        add_pair(store, name, index, &mut items)?;
    }
    Ok(items)
}

fn add_pair(store: &Store, name: &Text, index: &Text, items: &mut Texts) -> Result<(), NoMemory>
    ensures { OnOk result (reading.AddsPair store.now name.now index.now items.old items.new) }
{
    if let Ok(text) = store.look_up(name.as_bytes(), Some(index.as_bytes()))? {
        items.push(index.copy()?)?;
        items.push(text)?;
    }
    Ok(())
}
