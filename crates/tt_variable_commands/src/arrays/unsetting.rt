//! Arrays and elements are removed.
ghost use Rattle.std.specs.Prelude.{IfOk, OnOk};
ghost use Rattle.tt_variable_commands.specs.ArrayChanging as changing;

use crate::arrays::patterns::names_like;
use crate::arrays::spots::{indices_of, size_of};
use std::alloc::Global;
use tt_calls::Outcome;
use tt_store::Store;
use tt_text::{NoMemory, Text};

/// `array unset`.
pub(crate) fn unset(
    alloc: Global,
    store: &mut Store,
    usage: &[u8],
    words: &[Text],
) -> Result<Outcome, NoMemory>
    ensures { IfOk result (λ outcome. changing.array_unset usage.now words.now store.old outcome store.new) }
{
    match words {
        [name] => unset_whole(alloc, store, name),
        [name, pattern] => unset_like(alloc, store, name, pattern),
        _ => Outcome::wrong_number(alloc, usage),
    }
}

fn unset_whole(alloc: Global, store: &mut Store, name: &Text) -> Result<Outcome, NoMemory>
    ensures { IfOk result (λ outcome. changing.DropsWhole name.now store.old outcome store.new) }
{
    let size = size_of(store, name)?;
    unset_if(store, size.is_some(), name)?;
    Ok(Outcome::fine(alloc, Text::new(alloc)))
}

fn unset_if(store: &mut Store, there: bool, name: &Text) -> Result<(), NoMemory>
    ensures { OnOk result (changing.DropsIf there name.now store.old store.new) }
{
    if there {
        let _removed = store.remove(name.as_bytes(), None)?;
    }
    Ok(())
}

fn unset_like(
    alloc: Global,
    store: &mut Store,
    name: &Text,
    pattern: &Text,
) -> Result<Outcome, NoMemory>
    ensures { IfOk result (λ outcome. changing.DropsLike pattern.now name.now store.old outcome store.new) }
{
    let indices = indices_of(alloc, store, name)?;
    let like = names_like(alloc, Some(pattern), indices)?;
    unset_each(store, name, like.as_slice())?;
    Ok(Outcome::fine(alloc, Text::new(alloc)))
}

fn unset_each(store: &mut Store, name: &Text, indices: &[Text]) -> Result<(), NoMemory>
    ensures { OnOk result (changing.DropsEach name.now indices.now store.old store.new) }
{
    for index in indices {
        unset_one(store, name, index)?;
    }
    Ok(())
}

fn unset_one(store: &mut Store, name: &Text, index: &Text) -> Result<(), NoMemory>
    ensures { OnOk result (changing.DropsOne name.now index.now store.old store.new) }
{
    let _removed = store.remove(name.as_bytes(), Some(index.as_bytes()))?;
    Ok(())
}
