//! tsv::lsearch.
ghost use Rattle.std.specs.Prelude.{◌≡◌, IfOk};
ghost use Rattle.std.specs.Option.{option_map};
ghost use Rattle.tt_shared_commands.specs.Shared as table;

use crate::command::{SharedCommand, row_of};
use crate::running::{elements, runs};
use std::alloc::Global;
use tt_command_tables::{Call, Then, bad_option, is_meant, wrong_number};
use tt_text::{NoMemory, Text};

/// The words between the key and the pattern are modes: an unknown one is an error, and so are several.
pub(crate) fn searches(alloc: Global, name: &[u8], words: &[Text]) -> Result<Call, NoMemory>
    ensures { IfOk result (λ call. call ≡ table.searches name.now words.now) }
{
    let modes = modes(words);
    match unknown_mode(modes) {
        Some(word) => bad_option(alloc, word.as_bytes()),
        None => searches_by(alloc, name, words, modes),
    }
}

fn searches_by(alloc: Global, name: &[u8], words: &[Text], modes: &[Text]) -> Result<Call, NoMemory>
    ensures { IfOk result (λ call. call ≡ table.searches_by name.now words.now modes.now) }
{
    match modes {
        [] => elements(alloc, SharedCommand::Lsearch, name, words),
        [mode] => searches_by_mode(alloc, name, mode.as_bytes(), words),
        _ => wrong_number(alloc, row_of(SharedCommand::Lsearch).usage),
    }
}

fn searches_by_mode(
    alloc: Global,
    name: &[u8],
    mode: &[u8],
    words: &[Text],
) -> Result<Call, NoMemory>
    ensures { IfOk result (λ call. call ≡ table.searches_by_mode name.now mode.now words.now) }
{
    if is_mode(mode) {
        runs(alloc, name, words, Then::Value)
    } else {
        bad_option(alloc, mode)
    }
}

fn is_mode(word: &[u8]) -> bool
    ensures { result ≡ table.is_mode word.now }
{
    word == b"-exact".as_slice() || word == b"-glob".as_slice()
}

// The words between the key and the pattern.
fn modes(words: &[Text]) -> &[Text]
    ensures { result.now ≡ table.modes words.now }
{
    after_two(&words[..words.len().saturating_sub(1)])
}

fn after_two(words: &[Text]) -> &[Text]
    ensures { result.now ≡ table.after_two words.now }
{
    match words {
        [_, _, words @ ..] => words,
        _ => &[],
    }
}

// The first of these that is meant as a mode, and is none.
fn unknown_mode(modes: &[Text]) -> Option<&Text>
    ensures { option_map (λ mode. mode.now) result ≡ table.unknown_mode modes.now }
{
    modes.iter().find(|mode| is_meant(mode.as_bytes()) && !is_mode(mode.as_bytes()))
}
