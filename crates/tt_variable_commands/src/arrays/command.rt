//! What a whole command comes to.
ghost use Rattle.std.specs.Prelude.{◌≡◌, IfOk};
ghost use Rattle.tt_variable_commands.specs.ArrayCommands as table;
ghost use Rattle.tt_script.specs.Names.{plain_name};

use crate::arrays::reading::{exists, get, names, size};
use crate::arrays::setting::set;
use crate::arrays::subcommand::{Subcommand, row_of, subcommand_of};
use crate::arrays::unsetting::unset;
use std::alloc::Global;
use tt_calls::Outcome;
use tt_script::plain_name;
use tt_store::{Answer, Store};
use tt_text::{NoMemory, Text};
use tt_value::{Value, texts_of};

/// Runs a whole command, its name first: array(n), and it has ended; `Other` if it has another name, and then
/// nothing has changed.
///
/// `NoMemory` if memory is refused.
pub fn run(alloc: Global, store: &mut Store, words: &[Value]) -> Result<Answer, NoMemory>
    ensures runs { IfOk result (λ answer. table.Runs words.now store.old answer store.new) }
{
    match words {
        [word, words @ ..] => {
            let word = word.to_text(alloc)?;
            run_if(alloc, store, is_array(&word), words)
        }
        [] => Ok(Answer::Other),
    }
}

fn run_if(
    alloc: Global,
    store: &mut Store,
    named: bool,
    words: &[Value],
) -> Result<Answer, NoMemory>
    ensures { IfOk result (λ answer. table.RunsIf named words.now store.old answer store.new) }
{
    if !named {
        return Ok(Answer::Other);
    }
    let words = texts_of(alloc, words)?;
    let outcome = array(alloc, store, words.as_slice())?;
    Ok(Answer::Outcome(outcome))
}

fn array(alloc: Global, store: &mut Store, words: &[Text]) -> Result<Outcome, NoMemory>
    ensures { IfOk result (λ outcome. table.array words.now store.old outcome store.new) }
{
    match words {
        [word, words @ ..] => by_word(alloc, store, word, words),
        [] => Outcome::wrong_number(alloc, row_of(Subcommand::Exists).usage),
    }
}

fn by_word(
    alloc: Global,
    store: &mut Store,
    word: &Text,
    words: &[Text],
) -> Result<Outcome, NoMemory>
    ensures { IfOk result (λ outcome.
        table.IsSubcommand (table.first_named table.subcommands word.now) word.now words.now store.old outcome
        store.new) }
{
    match subcommand_of(word.as_bytes()) {
        Some(subcommand) => by_row(alloc, store, subcommand, words),
        None => Outcome::bad_option(alloc, word.as_bytes()),
    }
}

fn by_row(
    alloc: Global,
    store: &mut Store,
    subcommand: Subcommand,
    words: &[Text],
) -> Result<Outcome, NoMemory>
    ensures { IfOk result (λ outcome. table.by_row (table.row_of subcommand) words.now store.old outcome store.new) }
{
    let usage = row_of(subcommand).usage;
    match subcommand {
        Subcommand::Exists => exists(alloc, store, usage, words),
        Subcommand::Get => get(alloc, store, usage, words),
        Subcommand::Names => names(alloc, store, usage, words),
        Subcommand::Set => set(alloc, store, usage, words),
        Subcommand::Size => size(alloc, store, usage, words),
        Subcommand::Unset => unset(alloc, store, usage, words),
    }
}

fn is_array(word: &Text) -> bool
    ensures { result ≡ table.is_array word.now }
{
    plain_name(word.as_bytes()) == b"array".as_slice()
}
