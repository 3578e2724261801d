//! What `dict for` goes over.
ghost use Rattle.std.specs.Prelude.{◌≡◌, IfOk};
ghost use Rattle.tt_pairs.specs.Loops as loops;
ghost use Rattle.tt_pairs.specs.Reading.{reading_of};

use crate::{Dictionary, read};
use std::alloc::Global;
use tt_lists::{Split, split};
use tt_text::{NoMemory, Text, Texts};

/// What `dict for` goes over (dict(n)).
#[derive(Debug, Drop)]
pub struct Looping {
    /// The variable that gets the keys.
    pub key: Text,
    /// The variable that gets the values.
    pub value: Text,
    /// Each key, followed by its value.
    pub pairs: Texts,
    /// What is evaluated for each pair.
    pub body: Text,
}

/// What the words after `dict for` say (dict(n)): a list of two names, a dictionary, and a body.
///
/// `Err` has the message of the first that is wrong: the names are no list or not two, or the text is no dictionary.
/// `NoMemory` if memory is refused.
pub fn read_loop(
    alloc: Global,
    names: &[u8],
    dictionary: &[u8],
    body: &Text,
) -> Result<Result<Looping, Text>, NoMemory>
    ensures looping { IfOk result (λ looping.
        looping ≡ loops.looping_of names.now (reading_of dictionary.now) body.now) }
{
    match split(alloc, names)? {
        Split::Items(names) => by_names(alloc, names.as_slice(), dictionary, body),
        Split::Bad(fault) => Ok(Err(fault.message(alloc)?)),
    }
}

fn by_names(
    alloc: Global,
    names: &[Text],
    dictionary: &[u8],
    body: &Text,
) -> Result<Result<Looping, Text>, NoMemory>
    ensures { IfOk result (λ looping. looping ≡ loops.by_names names.now (reading_of dictionary.now) body.now) }
{
    match names {
        [key, value] => by_text(alloc, key, value, dictionary, body),
        _ => Ok(Err(Text::from_bytes(alloc, b"must have exactly two variable names")?)),
    }
}

fn by_text(
    alloc: Global,
    key: &Text,
    value: &Text,
    dictionary: &[u8],
    body: &Text,
) -> Result<Result<Looping, Text>, NoMemory>
    ensures { IfOk result (λ looping.
        looping ≡ loops.by_reading key.now value.now (reading_of dictionary.now) body.now) }
{
    match read(alloc, dictionary)? {
        Ok(dictionary) => Ok(Ok(over(key, value, &dictionary, body)?)),
        Err(message) => Ok(Err(message)),
    }
}

fn over(key: &Text, value: &Text, dictionary: &Dictionary, body: &Text) -> Result<Looping, NoMemory>
    ensures { IfOk result (λ looping. looping ≡ loops.over key.now value.now body.now dictionary.now) }
{
    Ok(Looping {
        key: key.copy()?,
        value: value.copy()?,
        pairs: dictionary.items()?,
        body: body.copy()?,
    })
}
