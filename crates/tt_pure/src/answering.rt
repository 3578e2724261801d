ghost use Rattle.std.specs.Prelude.{◌≡◌, IfOk, IsTrue};
ghost use Rattle.tt_pure.specs.Table as table;

use crate::command::{Command, command_of, usage};
use crate::formatting::format;
use crate::made::outcome_of;
use crate::searching::lsearch;
use crate::sorting::lsort;
use crate::strings::string;
use crate::{lists, texts};
use std::alloc::Global;
use tt_calls::Outcome;
use tt_text::NoMemory;
use tt_value::{Made, Value, texts_of};

/// Whether a name is that of a command which answers by its words alone.
pub fn is_pure(name: &[u8]) -> bool
    ensures known { result ≡ table.is_pure name.now }
{
    command_of(name).is_some()
}

/// How the command of this name ends with these words, which are those after its name: its result, or its error. A list
/// that it makes is kept as one, whose text is made when it is asked for.
///
/// Errors come in this order: an option that isn't known, from the left; a wrong number of words; what the words say.
/// `NoMemory` if memory is refused.
pub fn pure(alloc: Global, name: &[u8], words: &[Value]) -> Result<Outcome, NoMemory>
    requires known { IsTrue (table.is_pure name.now) }
    ensures outcome { IfOk result (table.IsOutcome (table.command_of name.now) words.now) }
{
    match command_of(name) {
        Some(command) => outcome(alloc, command, words),
        None => unreachable!(),
    }
}

fn outcome(alloc: Global, command: Command, words: &[Value]) -> Result<Outcome, NoMemory>
    ensures { IfOk result (table.IsOutcome (Some command) words.now) }
{
    let made = make(alloc, command, words)?;
    outcome_of(alloc, made)
}

fn make(alloc: Global, command: Command, words: &[Value]) -> Result<Made, NoMemory>
    ensures { IfOk result (λ made. table.IsAnswer command words.now made) }
{
    let usage = usage(command);
    match command {
        Command::Concat => {
            let words = texts_of(alloc, words)?;
            Ok(Made::from_answer(texts::concat(alloc, words.as_slice())?))
        }
        Command::Format => {
            let words = texts_of(alloc, words)?;
            Ok(Made::from_answer(format(alloc, usage, words.as_slice())?))
        }
        Command::Join => lists::join(alloc, usage, words),
        Command::Lindex => lists::lindex(alloc, usage, words),
        Command::Linsert => lists::linsert(alloc, usage, words),
        Command::List => lists::list(alloc, words),
        Command::Llength => lists::llength(alloc, usage, words),
        Command::Lrange => lists::lrange(alloc, usage, words),
        Command::Lrepeat => lists::lrepeat(alloc, usage, words),
        Command::Lreplace => lists::lreplace(alloc, usage, words),
        Command::Lreverse => lists::lreverse(alloc, usage, words),
        Command::Lsearch => lsearch(alloc, usage, words),
        Command::Lsort => lsort(alloc, usage, words),
        Command::Split => texts::split(alloc, usage, words),
        Command::String => {
            let words = texts_of(alloc, words)?;
            Ok(Made::from_answer(string(alloc, usage, words.as_slice())?))
        }
    }
}
