//! The table of commands.
ghost use Rattle.std.specs.Prelude.{◌≡◌};
ghost use Rattle.tt_variable_commands.specs.LevelCommands as table;

use crate::row::Row;

/// A command on levels and links.
#[derive(Clone, Copy, Debug, PartialEq, Eq)]
pub(crate) enum Command {
    Global,
    Upvar,
    Uplevel,
    Info,
}

const COMMANDS: [Command; 4] = [
    Command::Global,
    Command::Upvar,
    Command::Uplevel,
    Command::Info,
];

/// Its row.
pub(crate) fn row_of(command: Command) -> Row
    ensures name { result.name.now ≡ (table.row_of command).name }
    ensures usage { result.usage.now ≡ (table.row_of command).usage }
{
    match command {
        Command::Global => Row::new(b"global", b"global ?varName ...?"),
        Command::Upvar => Row::new(
            b"upvar",
            b"upvar ?level? otherVar localVar ?otherVar localVar ...?",
        ),
        Command::Uplevel => Row::new(b"uplevel", b"uplevel ?level? arg ?arg ...?"),
        Command::Info => Row::new(b"info", b"info exists varName"),
    }
}

/// The command of this name.
pub(crate) fn command_of(name: &[u8]) -> Option<Command>
    ensures { result ≡ table.first_named table.commands name.now }
{
    first_named(&COMMANDS, name)
}

fn first_named(commands: &[Command], name: &[u8]) -> Option<Command>
    ensures { result ≡ table.first_named commands.now name.now }
{
    commands
        .iter()
        .copied()
        .find(|command| name == row_of(*command).name)
}
