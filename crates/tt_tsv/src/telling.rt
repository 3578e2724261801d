//! What is answered, and which names are like a pattern.
ghost use Rattle.std.specs.Prelude.{◌≡◌, [], IfOk};
ghost use Rattle.std.specs.Option.{option_copied};
ghost use Rattle.tt_calls.specs.declared.reply.Reply.TheVariants.{Refused, Value};
ghost use Rattle.tt_lists.specs.Spelling.{list_of};
ghost use Rattle.tt_tsv.specs.Calls as answers;
ghost use Rattle.tt_tsv.specs.Elements as elements;

use std::alloc::Global;
use tt_calls::Reply;
use tt_lists::{ListAnswer, join_list};
use tt_text::{NoMemory, Text, Texts, glob, quoting};

/// That an array has no element of this key.
pub(crate) fn missing_message(alloc: Global, array: &Text, key: &Text) -> Result<Text, NoMemory>
    ensures { IfOk result (λ message. message ≡ elements.missing_message array.now key.now) }
{
    let in_array = quoting(alloc, b"\" in array \"", array.as_bytes(), b"\"")?;
    quoting(
        alloc,
        b"no such key \"",
        key.as_bytes(),
        in_array.as_bytes(),
    )
}

/// The same, as a reply.
pub(crate) fn missing(alloc: Global, array: &Text, key: &Text) -> Result<Reply, NoMemory>
    ensures { IfOk result (λ reply. reply ≡ Refused (elements.missing_message array.now key.now)) }
{
    let message = missing_message(alloc, array, key)?;
    Ok(Reply::Refused(message))
}

/// That an array has an element of this key.
pub(crate) fn exists(alloc: Global, key: &Text) -> Result<Reply, NoMemory>
    ensures { IfOk result (λ reply. reply ≡ Refused (answers.exists_message key.now)) }
{
    let message = quoting(alloc, b"key \"", key.as_bytes(), b"\" exists")?;
    Ok(Reply::Refused(message))
}

/// For words that no command asks.
pub(crate) fn not_asked(alloc: Global) -> Reply
    ensures { result ≡ Refused [] }
{
    Reply::Refused(Text::new(alloc))
}

/// The empty answer.
pub(crate) fn empty(alloc: Global) -> Reply
    ensures { result ≡ Value [] }
{
    Reply::Value(Text::new(alloc))
}

pub(crate) fn list_reply(answer: ListAnswer) -> Reply
    ensures { result ≡ answers.list_reply answer }
{
    match answer {
        ListAnswer::Made(text) => Reply::Value(text),
        ListAnswer::Bad(message) => Reply::Refused(message),
    }
}

pub(crate) fn refused(alloc: Global, message: &[u8]) -> Result<Reply, NoMemory>
    ensures { IfOk result (λ reply. reply ≡ Refused message.now) }
{
    let text = Text::from_bytes(alloc, message)?;
    Ok(Reply::Refused(text))
}

/// 1 for what is so, and 0.
pub(crate) fn truth(alloc: Global, is: bool) -> Result<Reply, NoMemory>
    ensures { IfOk result (λ reply. reply ≡ Value (answers.truth is)) }
{
    let digit: &[u8] = if is { b"1" } else { b"0" };
    let text = Text::from_bytes(alloc, digit)?;
    Ok(Reply::Value(text))
}

pub(crate) fn found(alloc: Global, value: Option<&tt_value::Value>) -> Result<Reply, NoMemory>
    ensures { IfOk result (λ reply. reply ≡ answers.found (option_copied value.entry)) }
{
    match value {
        Some(value) => Ok(Reply::Found(true, value.to_text(alloc)?)),
        None => Ok(Reply::Found(false, Text::new(alloc))),
    }
}

/// Whether a text is like the pattern, if there is one.
pub(crate) fn is_like(pattern: &[Text], text: &[u8]) -> bool
    ensures { result ≡ answers.is_like pattern.now text.now }
{
    match pattern {
        [pattern, ..] => glob(pattern.as_bytes(), text),
        [] => true,
    }
}

/// The list of the names that are like the pattern.
pub(crate) fn names_reply(
    alloc: Global,
    pattern: &[Text],
    names: &[Text],
) -> Result<Reply, NoMemory>
    ensures { IfOk result (λ reply. reply ≡ Value (list_of (answers.names_like pattern.now names.now))) }
{
    let like = names_like(alloc, pattern, names)?;
    let list = join_list(alloc, like.as_slice())?;
    Ok(Reply::Value(list))
}

fn names_like(alloc: Global, pattern: &[Text], names: &[Text]) -> Result<Texts, NoMemory>
    ensures { IfOk result (λ like. like ≡ answers.names_like pattern.now names.now) }
{
    let mut like = Texts::new(alloc);
    for name in names {
        if is_like(pattern, name.as_bytes()) {
            like.push(name.copy()?)?;
        }
    }
    Ok(like)
}
