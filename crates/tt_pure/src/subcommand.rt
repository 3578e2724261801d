//! The table of the subcommands of string(n): names and usages.
ghost use Rattle.std.specs.Prelude.{◌≡◌};
ghost use Rattle.tt_pure.specs.StringTable as table;

use crate::row::Row;

/// A subcommand of the table.
#[derive(Clone, Copy, Debug, PartialEq, Eq)]
pub(crate) enum Subcommand {
    Length,
    Index,
    Range,
    Reverse,
    Compare,
    Equal,
    Match,
    First,
    Last,
    Repeat,
    Map,
    Tolower,
    Toupper,
    Trim,
    Trimleft,
    Trimright,
}

const SUBCOMMANDS: [Subcommand; 16] = [
    Subcommand::Length,
    Subcommand::Index,
    Subcommand::Range,
    Subcommand::Reverse,
    Subcommand::Compare,
    Subcommand::Equal,
    Subcommand::Match,
    Subcommand::First,
    Subcommand::Last,
    Subcommand::Repeat,
    Subcommand::Map,
    Subcommand::Tolower,
    Subcommand::Toupper,
    Subcommand::Trim,
    Subcommand::Trimleft,
    Subcommand::Trimright,
];

/// The table.
fn row_of(subcommand: Subcommand) -> Row
    ensures name { result.name.now ≡ (table.string_row subcommand).name }
    ensures usage { result.usage.now ≡ (table.string_row subcommand).usage }
{
    match subcommand {
        Subcommand::Length => Row::new(b"length", b"string length s"),
        Subcommand::Index => Row::new(b"index", b"string index s i"),
        Subcommand::Range => Row::new(b"range", b"string range s first last"),
        Subcommand::Reverse => Row::new(b"reverse", b"string reverse s"),
        Subcommand::Compare => Row::new(b"compare", b"string compare a b"),
        Subcommand::Equal => Row::new(b"equal", b"string equal a b"),
        Subcommand::Match => Row::new(b"match", b"string match pattern s"),
        Subcommand::First => Row::new(b"first", b"string first needle s"),
        Subcommand::Last => Row::new(b"last", b"string last needle s"),
        Subcommand::Repeat => Row::new(b"repeat", b"string repeat s count"),
        Subcommand::Map => Row::new(b"map", b"string map list s"),
        Subcommand::Tolower => Row::new(b"tolower", b"string tolower s"),
        Subcommand::Toupper => Row::new(b"toupper", b"string toupper s"),
        Subcommand::Trim => Row::new(b"trim", b"string trim s ?chars?"),
        Subcommand::Trimleft => Row::new(b"trimleft", b"string trimleft s ?chars?"),
        Subcommand::Trimright => Row::new(b"trimright", b"string trimright s ?chars?"),
    }
}

/// How the subcommand is used.
pub(crate) fn usage_of(subcommand: Subcommand) -> &'static [u8]
    ensures { result.now ≡ (table.string_row subcommand).usage }
{
    row_of(subcommand).usage
}

/// The subcommand of this name.
pub(crate) fn subcommand_of(name: &[u8]) -> Option<Subcommand>
    ensures { result ≡ table.first_subcommand table.subcommands name.now }
{
    first_named(&SUBCOMMANDS, name)
}

fn first_named(subcommands: &[Subcommand], name: &[u8]) -> Option<Subcommand>
    ensures { result ≡ table.first_subcommand subcommands.now name.now }
{
    subcommands
        .iter()
        .copied()
        .find(|subcommand| name == row_of(*subcommand).name)
}
