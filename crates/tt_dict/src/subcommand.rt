//! The table of subcommands: names and usages.
ghost use Rattle.std.specs.Prelude.{◌≡◌};
ghost use Rattle.tt_dict.specs.Table as table;

use crate::row::Row;

/// A subcommand of the table.
#[derive(Clone, Copy, Debug, PartialEq, Eq)]
pub(crate) enum Subcommand {
    Create,
    Get,
    Exists,
    Size,
    Keys,
    Values,
    Merge,
    Remove,
    Replace,
    Set,
    Unset,
    Incr,
    Append,
    Lappend,
    For,
}

const SUBCOMMANDS: [Subcommand; 15] = [
    Subcommand::Create,
    Subcommand::Get,
    Subcommand::Exists,
    Subcommand::Size,
    Subcommand::Keys,
    Subcommand::Values,
    Subcommand::Merge,
    Subcommand::Remove,
    Subcommand::Replace,
    Subcommand::Set,
    Subcommand::Unset,
    Subcommand::Incr,
    Subcommand::Append,
    Subcommand::Lappend,
    Subcommand::For,
];

/// The table.
fn row_of(subcommand: Subcommand) -> Row
    ensures name { result.name.now ≡ (table.row_of subcommand).name }
    ensures usage { result.usage.now ≡ (table.row_of subcommand).usage }
{
    match subcommand {
        Subcommand::Create => Row::new(b"create", b"dict create ?key value ...?"),
        Subcommand::Get => Row::new(b"get", b"dict get d ?key ...?"),
        Subcommand::Exists => Row::new(b"exists", b"dict exists d key ?key ...?"),
        Subcommand::Size => Row::new(b"size", b"dict size d"),
        Subcommand::Keys => Row::new(b"keys", b"dict keys d ?pattern?"),
        Subcommand::Values => Row::new(b"values", b"dict values d ?pattern?"),
        Subcommand::Merge => Row::new(b"merge", b"dict merge ?d ...?"),
        Subcommand::Remove => Row::new(b"remove", b"dict remove d ?key ...?"),
        Subcommand::Replace => Row::new(b"replace", b"dict replace d ?key value ...?"),
        Subcommand::Set => Row::new(b"set", b"dict set varName key ?key ...? value"),
        Subcommand::Unset => Row::new(b"unset", b"dict unset varName key ?key ...?"),
        Subcommand::Incr => Row::new(b"incr", b"dict incr varName key ?n?"),
        Subcommand::Append => Row::new(b"append", b"dict append varName key ?v ...?"),
        Subcommand::Lappend => Row::new(b"lappend", b"dict lappend varName key ?v ...?"),
        Subcommand::For => Row::new(b"for", b"dict for {k v} d body"),
    }
}

/// How the subcommand is used.
pub(crate) fn usage_of(subcommand: Subcommand) -> &'static [u8]
    ensures { result.now ≡ (table.row_of subcommand).usage }
{
    row_of(subcommand).usage
}

/// The subcommand of this name.
pub(crate) fn subcommand_of(name: &[u8]) -> Option<Subcommand>
    ensures { result ≡ table.first_named table.subcommands name.now }
{
    first_named(&SUBCOMMANDS, name)
}

fn first_named(subcommands: &[Subcommand], name: &[u8]) -> Option<Subcommand>
    ensures { result ≡ table.first_named subcommands.now name.now }
{
    subcommands
        .iter()
        .copied()
        .find(|subcommand| name == row_of(*subcommand).name)
}
