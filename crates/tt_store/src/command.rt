//! The table of commands.
ghost use Rattle.std.specs.Prelude.{◌≡◌};
ghost use Rattle.tt_store.specs.Commands as table;

use crate::row::Row;

/// A command that needs what an interpreter keeps, and nothing else.
#[derive(Clone, Copy, Debug, PartialEq, Eq)]
pub(crate) enum Command {
    Set,
    Unset,
    Incr,
    Append,
    Lappend,
    Lassign,
    Eval,
    Package,
    Flush,
}

const COMMANDS: [Command; 9] = [
    Command::Set,
    Command::Unset,
    Command::Incr,
    Command::Append,
    Command::Lappend,
    Command::Lassign,
    Command::Eval,
    Command::Package,
    Command::Flush,
];

/// Its row.
pub(crate) fn row_of(command: Command) -> Row
    ensures name { result.name.now ≡ (table.row_of command).name }
    ensures usage { result.usage.now ≡ (table.row_of command).usage }
{
    match command {
        Command::Set => Row::new(b"set", b"set varName ?newValue?"),
        Command::Unset => Row::new(b"unset", b"unset ?-nocomplain? ?varName ...?"),
        Command::Incr => Row::new(b"incr", b"incr varName ?increment?"),
        Command::Append => Row::new(b"append", b"append varName ?value ...?"),
        Command::Lappend => Row::new(b"lappend", b"lappend varName ?value ...?"),
        Command::Lassign => Row::new(b"lassign", b"lassign list ?varName ...?"),
        Command::Eval => Row::new(b"eval", b"eval arg ?arg ...?"),
        Command::Package => Row::new(b"package", b"package require name ?version?"),
        Command::Flush => Row::new(b"flush", b"flush channelId"),
    }
}

/// The command of this name.
pub(crate) fn command_of(name: &[u8]) -> Option<Command>
    ensures { result ≡ table.first_named table.commands name.now }
{
    first_named(&COMMANDS, name)
}

fn first_named(commands: &[Command], name: &[u8]) -> Option<Command>
    ensures { result ≡ table.first_named commands.now name.now }
{
    commands
        .iter()
        .copied()
        .find(|command| name == row_of(*command).name)
}
