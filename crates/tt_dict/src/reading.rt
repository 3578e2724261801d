//! What the words of `dict` come to.
ghost use Rattle.std.specs.Prelude.{◌≡◌, Option, IfOk};
ghost use Rattle.tt_calls.specs.Outcomes.{error_outcome};
ghost use Rattle.tt_calls.specs.Usages.{wrong_number};
ghost use Rattle.tt_dict.specs.Table as table;

use crate::DictCall;
use crate::subcommand::{Subcommand, subcommand_of, usage_of};
use crate::telling::{create, exists, get, keys, merge, remove, replace, size, values};
use crate::variables::{append, incr, lappend, set, unset};
use std::alloc::Global;
use tt_calls::Outcome;
use tt_pairs::{Looping, read_loop};
use tt_text::{NoMemory, Text};
use tt_value::{Value, texts_of};

/// What the words after `dict` come to (dict(n)).
///
/// Errors come as `Done` with the code `Failed`, in this order: a subcommand that isn't known, a wrong number of words,
/// and what the words say, from the left. `NoMemory` if memory is refused.
pub fn read_dict(alloc: Global, words: &[Value]) -> Result<DictCall, NoMemory>
    ensures call { IfOk result (λ call. call ≡ table.call_of words.now) }
{
    match words {
        [word, words @ ..] => {
            let word = word.to_text(alloc)?;
            by_subcommand(alloc, subcommand_of(word.as_bytes()), &word, words)
        }
        [] => {
            let outcome = Outcome::wrong_number(alloc, usage_of(Subcommand::Create))?;
            Ok(DictCall::Done(outcome))
        }
    }
}

fn by_subcommand(
    alloc: Global,
    subcommand: Option<Subcommand>,
    word: &Text,
    words: &[Value],
) -> Result<DictCall, NoMemory>
    ensures { IfOk result (λ call. call ≡ table.by_subcommand subcommand word.now words.now) }
{
    match subcommand {
        Some(subcommand) => meaning(alloc, subcommand, usage_of(subcommand), words),
        None => {
            let outcome = Outcome::bad_option(alloc, word.as_bytes())?;
            Ok(DictCall::Done(outcome))
        }
    }
}

fn meaning(
    alloc: Global,
    subcommand: Subcommand,
    usage: &[u8],
    words: &[Value],
) -> Result<DictCall, NoMemory>
    ensures { IfOk result (λ call.
        call ≡ (table.row_of subcommand).meaning (error_outcome (wrong_number usage.now)) words.now) }
{
    let outcome = match subcommand {
        Subcommand::Create => create(alloc, usage, words)?,
        Subcommand::Get => get(alloc, usage, words)?,
        Subcommand::Exists => exists(alloc, usage, words)?,
        Subcommand::Size => size(alloc, usage, words)?,
        Subcommand::Keys => keys(alloc, usage, words)?,
        Subcommand::Values => values(alloc, usage, words)?,
        Subcommand::Merge => merge(alloc, words)?,
        Subcommand::Remove => remove(alloc, usage, words)?,
        Subcommand::Replace => replace(alloc, usage, words)?,
        Subcommand::Set => return set(alloc, usage, texts_of(alloc, words)?.as_slice()),
        Subcommand::Unset => return unset(alloc, usage, texts_of(alloc, words)?.as_slice()),
        Subcommand::Incr => return incr(alloc, usage, texts_of(alloc, words)?.as_slice()),
        Subcommand::Append => return append(alloc, usage, texts_of(alloc, words)?.as_slice()),
        Subcommand::Lappend => return lappend(alloc, usage, texts_of(alloc, words)?.as_slice()),
        Subcommand::For => return for_each(alloc, usage, words),
    };
    Ok(DictCall::Done(outcome))
}

fn for_each(alloc: Global, usage: &[u8], words: &[Value]) -> Result<DictCall, NoMemory>
    ensures { IfOk result (λ call. call ≡ table.for_each (error_outcome (wrong_number usage.now)) words.now) }
{
    match words {
        [names, dictionary, body] => {
            let names = names.to_text(alloc)?;
            let dictionary = dictionary.to_text(alloc)?;
            let body = body.to_text(alloc)?;
            let found = read_loop(alloc, names.as_bytes(), dictionary.as_bytes(), &body)?;
            looped(found)
        }
        _ => {
            let outcome = Outcome::wrong_number(alloc, usage)?;
            Ok(DictCall::Done(outcome))
        }
    }
}

fn looped(found: Result<Looping, Text>) -> Result<DictCall, NoMemory>
    ensures { IfOk result (λ call. call ≡ table.pair_loop found) }
{
    match found {
        Ok(looping) => Ok(DictCall::Loop(looping)),
        Err(message) => Ok(DictCall::Done(Outcome::failed(message)?)),
    }
}
