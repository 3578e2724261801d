//! What a whole command comes to.
ghost use Rattle.std.specs.Prelude.{◌≡◌, ◌≤◌, IfOk};
ghost use Rattle.tt_variable_commands.specs.Beginning as beginning;
ghost use Rattle.tt_variable_commands.specs.LevelCommands as table;
ghost use Rattle.tt_store.specs.Commands.{by_row};

use crate::levels::command::{Command, command_of, row_of};
use crate::levels::counting::frame_of;
use crate::levels::linking::{global, upvar};
use crate::levels::messages::bad_level;
use crate::levels::telling::info;
use crate::levels::words::{is_levelled, parted};
use std::alloc::Global;
use tt_calls::Outcome;
use tt_list_commands::concat;
use tt_outcomes::Body;
use tt_script::plain_name;
use tt_store::{Answer, Store};
use tt_text::{NoMemory, Text};
use tt_value::{Value, texts_of};

/// Runs a whole command, its name first: `global`, `upvar`, `uplevel`, or `info` but for its subcommand `procs`;
/// `Other` if it is none of them, and then nothing has changed.
///
/// After `Body` what is begun is ended by `Store::leave`. `NoMemory` if memory is refused.
pub fn run(alloc: Global, store: &mut Store, words: &[Value]) -> Result<Answer, NoMemory>
    ensures runs { IfOk result (λ answer. table.Runs words.now store.old answer store.new) }
{
    match words {
        [word, words @ ..] => {
            let word = word.to_text(alloc)?;
            run_command(alloc, store, command_of(plain_name(word.as_bytes())), words)
        }
        [] => Ok(Answer::Other),
    }
}

fn run_command(
    alloc: Global,
    store: &mut Store,
    command: Option<Command>,
    words: &[Value],
) -> Result<Answer, NoMemory>
    ensures { IfOk result (λ answer. table.IsCommand command words.now store.old answer store.new) }
{
    match command {
        Some(command) => {
            let words = texts_of(alloc, words)?;
            run_row(alloc, store, command, words.as_slice())
        }
        None => Ok(Answer::Other),
    }
}

fn run_row(
    alloc: Global,
    store: &mut Store,
    command: Command,
    words: &[Text],
) -> Result<Answer, NoMemory>
    ensures { IfOk result (λ answer. by_row (table.row_of command) words.now store.old answer store.new) }
{
    let usage = row_of(command).usage;
    match command {
        Command::Global => Ok(Answer::Outcome(global(alloc, store, words)?)),
        Command::Upvar => Ok(Answer::Outcome(upvar(alloc, store, usage, words)?)),
        Command::Uplevel => uplevel(alloc, store, usage, words),
        Command::Info => info(alloc, store, usage, words),
    }
}

fn uplevel(
    alloc: Global,
    store: &mut Store,
    usage: &[u8],
    words: &[Text],
) -> Result<Answer, NoMemory>
    ensures { IfOk result (λ answer. beginning.uplevel usage.now words.now store.old answer store.new) }
{
    if words.is_empty() {
        return Ok(Answer::Outcome(Outcome::wrong_number(alloc, usage)?));
    }
    let (level, script) = parted(is_levelled(words), words);
    begin(alloc, store, level, script)
}

fn begin(
    alloc: Global,
    store: &mut Store,
    level: &[u8],
    script: &[Text],
) -> Result<Answer, NoMemory>
    ensures { IfOk result (λ answer. beginning.BeginsAt (level.now, script.now) store.old answer store.new) }
{
    match frame_of(store, level) {
        Some(frame) => begin_in(alloc, store, frame, script),
        None => Ok(Answer::Outcome(bad_level(alloc, level)?)),
    }
}

fn begin_in(
    alloc: Global,
    store: &mut Store,
    frame: u64,
    script: &[Text],
) -> Result<Answer, NoMemory>
    requires lower { frame ≤ store.old.levels.current }
    ensures { IfOk result (λ answer. beginning.BeginsIn frame script.now store.old answer store.new) }
{
    let text = concat(alloc, script)?;
    store.begin(frame)?;
    Ok(Answer::Body {
        body: Body::Level,
        text,
    })
}
