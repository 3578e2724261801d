//! What info(n) reports of variables and levels.
ghost use Rattle.std.specs.Prelude.{◌≡◌, IfOk};
ghost use Rattle.tt_variable_commands.specs.Telling as telling;

use crate::vocabulary::truth;
use std::alloc::Global;
use tt_calls::Outcome;
use tt_lists::count_text;
use tt_store::{Answer, Store};
use tt_text::{NoMemory, Text};

/// What info(n) reports of.
#[derive(Clone, Copy, Debug, PartialEq, Eq)]
pub(crate) enum Topic {
    Exists,
    Level,
    Procs,
}

/// Tells of a topic; `Other` if it is that of procedures.
pub(crate) fn info(
    alloc: Global,
    store: &Store,
    usage: &[u8],
    words: &[Text],
) -> Result<Answer, NoMemory>
    ensures { IfOk result (λ answer. telling.info usage.now words.now store.now answer store.now) }
{
    match words {
        [word, words @ ..] => tell(alloc, store, topic_of(word.as_bytes()), word, words),
        [] => Ok(Answer::Outcome(Outcome::wrong_number(alloc, usage)?)),
    }
}

fn topic_of(word: &[u8]) -> Option<Topic>
    ensures { result ≡ telling.topic_of word.now }
{
    if word == b"exists".as_slice() {
        Some(Topic::Exists)
    } else if word == b"level".as_slice() {
        Some(Topic::Level)
    } else if word == b"procs".as_slice() {
        Some(Topic::Procs)
    } else {
        None
    }
}

fn tell(
    alloc: Global,
    store: &Store,
    topic: Option<Topic>,
    word: &Text,
    words: &[Text],
) -> Result<Answer, NoMemory>
    ensures { IfOk result (λ answer. telling.Tells topic word.now words.now store.now answer store.now) }
{
    match topic {
        Some(Topic::Exists) => Ok(Answer::Outcome(exists(alloc, store, words)?)),
        Some(Topic::Level) => Ok(Answer::Outcome(level(alloc, store, words)?)),
        Some(Topic::Procs) => Ok(Answer::Other),
        None => Ok(Answer::Outcome(Outcome::bad_option(alloc, word.as_bytes())?)),
    }
}

fn exists(alloc: Global, store: &Store, words: &[Text]) -> Result<Outcome, NoMemory>
    ensures { IfOk result (λ outcome. telling.exists words.now store.now outcome store.now) }
{
    match words {
        [name] => bit(alloc, store.exists(name)?),
        _ => Outcome::wrong_number(alloc, b"info exists varName"),
    }
}

fn bit(alloc: Global, there: bool) -> Result<Outcome, NoMemory>
    ensures { IfOk result (λ outcome. outcome ≡ telling.bit there) }
{
    let text = truth(alloc, there)?;
    Ok(Outcome::fine(alloc, text))
}

fn level(alloc: Global, store: &Store, words: &[Text]) -> Result<Outcome, NoMemory>
    ensures { IfOk result (λ outcome. telling.level words.now store.now outcome store.now) }
{
    match words {
        [] => {
            let text = count_text(alloc, store.depth() as usize)?;
            Ok(Outcome::fine(alloc, text))
        }
        _ => Outcome::wrong_number(alloc, b"info level"),
    }
}
