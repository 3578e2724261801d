//! tsv::array.
ghost use Rattle.std.specs.Prelude.{◌≡◌, IfOk};
ghost use Rattle.tt_shared_commands.specs.Shared as table;

use crate::command::{SharedCommand, row_of};
use crate::counted::{CountedRow, is_between};
use crate::running::runs;
use std::alloc::Global;
use tt_command_tables::{Call, Command, Row, Then, bad_option, command_named, wrong_number};
use tt_text::{NoMemory, Text};

/// A subcommand of `tsv::array` (tsv(n)).
#[derive(Clone, Copy, Debug, PartialEq, Eq)]
pub(crate) enum ArrayCommand {
    Set,
    Get,
    Names,
    Size,
    Reset,
}

const COMMANDS: [ArrayCommand; 5] = [
    ArrayCommand::Set,
    ArrayCommand::Get,
    ArrayCommand::Names,
    ArrayCommand::Size,
    ArrayCommand::Reset,
];

fn array_row(command: ArrayCommand) -> CountedRow
    ensures name { result.name.now ≡ (table.array_row command).name }
    ensures usage { result.usage.now ≡ (table.array_row command).usage }
    ensures least { result.least ≡ (table.array_row command).least }
    ensures most { result.most ≡ (table.array_row command).most }
{
    match command {
        ArrayCommand::Set => CountedRow::new(b"set", b"tsv::array set a list", 2, Some(2)),
        ArrayCommand::Get => CountedRow::new(b"get", b"tsv::array get a ?pattern?", 1, Some(2)),
        ArrayCommand::Names => CountedRow::new(
            b"names",
            b"tsv::array names a ?pattern?",
            1,
            Some(2),
        ),
        ArrayCommand::Size => CountedRow::new(b"size", b"tsv::array size a", 1, Some(1)),
        ArrayCommand::Reset => CountedRow::new(b"reset", b"tsv::array reset a list", 2, Some(2)),
    }
}

impl Command for ArrayCommand {
    ghost name_of = { λ command. (table.array_row command).name };

    ghost usage_of = { λ command. (table.array_row command).usage };

    fn row(self) -> Row {
        array_row(self).row()
    }
}

pub(crate) fn arrays(alloc: Global, name: &[u8], words: &[Text]) -> Result<Call, NoMemory>
    ensures { IfOk result (λ call. call ≡ table.arrays name.now words.now) }
{
    let [sub, after @ ..] = words else {
        return wrong_number(alloc, row_of(SharedCommand::Array).usage);
    };
    match command_named(&COMMANDS, sub.as_bytes()) {
        Some(command) => array_runs(alloc, command, name, words, after.len()),
        None => bad_option(alloc, sub.as_bytes()),
    }
}

fn array_runs(
    alloc: Global,
    command: ArrayCommand,
    name: &[u8],
    words: &[Text],
    count: usize,
) -> Result<Call, NoMemory>
    ensures { IfOk result (λ call. call ≡ table.array_runs command name.now words.now count) }
{
    let row = array_row(command);
    if !is_between(row.least, row.most, count) {
        return wrong_number(alloc, row.usage);
    }
    runs(alloc, name, words, Then::Value)
}
