//! The table of subcommands.
ghost use Rattle.std.specs.Prelude.{◌≡◌};
ghost use Rattle.tt_variable_commands.specs.ArrayCommands as table;

use crate::row::Row;

/// What is asked of an array.
#[derive(Clone, Copy, Debug, PartialEq, Eq)]
pub(crate) enum Subcommand {
    Exists,
    Get,
    Names,
    Set,
    Size,
    Unset,
}

const SUBCOMMANDS: [Subcommand; 6] = [
    Subcommand::Exists,
    Subcommand::Get,
    Subcommand::Names,
    Subcommand::Set,
    Subcommand::Size,
    Subcommand::Unset,
];

/// Its row.
pub(crate) fn row_of(subcommand: Subcommand) -> Row
    ensures name { result.name.now ≡ (table.row_of subcommand).name }
    ensures usage { result.usage.now ≡ (table.row_of subcommand).usage }
{
    match subcommand {
        Subcommand::Exists => Row::new(b"exists", b"array exists a"),
        Subcommand::Get => Row::new(b"get", b"array get a ?pattern?"),
        Subcommand::Names => Row::new(b"names", b"array names a ?pattern?"),
        Subcommand::Set => Row::new(b"set", b"array set a list"),
        Subcommand::Size => Row::new(b"size", b"array size a"),
        Subcommand::Unset => Row::new(b"unset", b"array unset a ?pattern?"),
    }
}

/// The subcommand of this word.
pub(crate) fn subcommand_of(word: &[u8]) -> Option<Subcommand>
    ensures { result ≡ table.first_named table.subcommands word.now }
{
    first_named(&SUBCOMMANDS, word)
}

fn first_named(subcommands: &[Subcommand], name: &[u8]) -> Option<Subcommand>
    ensures { result ≡ table.first_named subcommands.now name.now }
{
    subcommands
        .iter()
        .copied()
        .find(|subcommand| name == row_of(*subcommand).name)
}
