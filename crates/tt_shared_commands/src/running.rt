//! What is asked of shared variables.
ghost use Rattle.std.specs.Prelude.{◌≡◌, ◌∷◌, IfOk};
ghost use Rattle.tt_command_tables.specs.Usages.{wrong_number};
ghost use Rattle.tt_shared_commands.specs.Shared as table;

use crate::command::{SharedCommand, row_of};
use crate::counted::is_between;
use std::alloc::Global;
use tt_calls::TsvCall;
use tt_command_tables::{Call, Then, asks_tsv, wrong_number};
use tt_list_commands::concat;
use tt_text::{NoMemory, Text, Texts};

/// The words go on, the command's name first.
pub(crate) fn runs(alloc: Global, name: &[u8], words: &[Text], then: Then) -> Result<Call, NoMemory>
    ensures { IfOk result (λ call. call ≡ table.runs name.now words.now then) }
{
    let words = with_name(alloc, name, words)?;
    asks_tsv(alloc, TsvCall::Run { words }, then)
}

fn with_name(alloc: Global, name: &[u8], words: &[Text]) -> Result<Texts, NoMemory>
    ensures { IfOk result (λ all. all ≡ name.now ∷ words.now) }
{
    let mut all = Texts::new(alloc);
    all.push(Text::from_bytes(alloc, name)?)?;
    for word in words {
        all.push(word.copy()?)?;
    }
    Ok(all)
}

/// The words go on, if the usage has so many.
pub(crate) fn elements(
    alloc: Global,
    command: SharedCommand,
    name: &[u8],
    words: &[Text],
) -> Result<Call, NoMemory>
    ensures { IfOk result (λ call. call ≡ table.elements command name.now words.now) }
{
    if !fits(command, words) {
        return wrong_number(alloc, row_of(command).usage);
    }
    let then = after_reply(command, words)?;
    runs(alloc, name, words, then)
}

fn fits(command: SharedCommand, words: &[Text]) -> bool
    ensures { result ≡ table.fits (table.shared_row command) words.now }
{
    let row = row_of(command);
    is_between(row.least, row.most, words.len())
}

// What follows the reply: `tsv::get` with a variable sets it.
fn after_reply(command: SharedCommand, words: &[Text]) -> Result<Then, NoMemory>
    ensures { IfOk result (λ then. then ≡ table.after_reply command words.now) }
{
    match (command, words) {
        (SharedCommand::Get, [_, _, variable, ..]) => Ok(Then::Store(variable.copy()?)),
        _ => Ok(Then::Value),
    }
}

/// `tsv::lock`
#[tactic(auto, unfolding(crate::specs::Shared::locks))]
pub(crate) fn locks(alloc: Global, usage: &[u8], words: &[Text]) -> Result<Call, NoMemory>
    ensures { IfOk result (λ call. call ≡ table.locks (wrong_number usage.now) words.now) }
{
    match words {
        [array, args @ ..] => lock(alloc, usage, array, args),
        [] => wrong_number(alloc, usage),
    }
}

#[tactic(auto, unfolding(crate::specs::Shared::locks))]
fn lock(alloc: Global, usage: &[u8], array: &Text, args: &[Text]) -> Result<Call, NoMemory>
    ensures { IfOk result (λ call. call ≡ table.locks (wrong_number usage.now) (array.now ∷ args.now)) }
{
    if args.is_empty() {
        return wrong_number(alloc, usage);
    }
    let array = array.copy()?;
    let script = concat(alloc, args)?;
    asks_tsv(alloc, TsvCall::Hold { array }, Then::Held(script))
}
