//! The table of commands: names and usages.
ghost use Rattle.std.specs.Prelude.{◌≡◌};
ghost use Rattle.tt_pure.specs.Table as table;

use crate::row::Row;

/// A command of the table.
#[derive(Clone, Copy, Debug, PartialEq, Eq)]
pub(crate) enum Command {
    Concat,
    Format,
    Join,
    Lindex,
    Linsert,
    List,
    Llength,
    Lrange,
    Lrepeat,
    Lreplace,
    Lreverse,
    Lsearch,
    Lsort,
    Split,
    String,
}

const COMMANDS: [Command; 15] = [
    Command::Concat,
    Command::Format,
    Command::Join,
    Command::Lindex,
    Command::Linsert,
    Command::List,
    Command::Llength,
    Command::Lrange,
    Command::Lrepeat,
    Command::Lreplace,
    Command::Lreverse,
    Command::Lsearch,
    Command::Lsort,
    Command::Split,
    Command::String,
];

/// The table.
fn row_of(command: Command) -> Row
    ensures name { result.name.now ≡ (table.row_of command).name }
    ensures usage { result.usage.now ≡ (table.row_of command).usage }
{
    match command {
        Command::Concat => Row::new(b"concat", b"concat ?arg ...?"),
        Command::Format => Row::new(b"format", b"format template ?value ...?"),
        Command::Join => Row::new(b"join", b"join list ?joinString?"),
        Command::Lindex => Row::new(b"lindex", b"lindex list ?index ...?"),
        Command::Linsert => Row::new(b"linsert", b"linsert list index ?element ...?"),
        Command::List => Row::new(b"list", b"list ?value ...?"),
        Command::Llength => Row::new(b"llength", b"llength list"),
        Command::Lrange => Row::new(b"lrange", b"lrange list first last"),
        Command::Lrepeat => Row::new(b"lrepeat", b"lrepeat count ?value ...?"),
        Command::Lreplace => Row::new(b"lreplace", b"lreplace list first last ?element ...?"),
        Command::Lreverse => Row::new(b"lreverse", b"lreverse list"),
        Command::Lsearch => Row::new(
            b"lsearch",
            b"lsearch ?-exact? ?-glob? ?-all? ?-inline? ?-not? list pattern",
        ),
        Command::Lsort => Row::new(
            b"lsort",
            b"lsort ?-ascii? ?-integer? ?-increasing? ?-decreasing? ?-unique? list",
        ),
        Command::Split => Row::new(b"split", b"split string ?splitChars?"),
        Command::String => Row::new(b"string", b"string length s"),
    }
}

/// How the command is used.
pub(crate) fn usage(command: Command) -> &'static [u8]
    ensures { result.now ≡ (table.row_of command).usage }
{
    row_of(command).usage
}

fn first_named(commands: &[Command], name: &[u8]) -> Option<Command>
    ensures { result ≡ table.first_named commands.now name.now }
{
    commands
        .iter()
        .copied()
        .find(|command| name == row_of(*command).name)
}

/// The command of this name.
pub(crate) fn command_of(name: &[u8]) -> Option<Command>
    ensures { result ≡ table.command_of name.now }
{
    first_named(&COMMANDS, name)
}
