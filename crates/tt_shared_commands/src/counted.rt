//! Rows of tables with numbers of words.
ghost use Rattle.std.specs.Prelude.{◌≡◌};
ghost use Rattle.tt_shared_commands.specs.Shared as table;

use tt_command_tables::Row;

/// What a table says of a command.
#[derive(Clone, Copy)]
pub(crate) struct CountedRow {
    /// Its name.
    pub(crate) name: &'static [u8],
    /// How it is used.
    pub(crate) usage: &'static [u8],
    /// How many words follow it at least.
    pub(crate) least: usize,
    /// How many do at most; any number if there is no bound.
    pub(crate) most: Option<usize>,
}

impl CountedRow {
    pub(crate) fn new(
        name: &'static [u8],
        usage: &'static [u8],
        least: usize,
        most: Option<usize>,
    ) -> Self
        ensures name { result.name.now ≡ name.now }
        ensures usage { result.usage.now ≡ usage.now }
        ensures least { result.least ≡ least }
        ensures most { result.most ≡ most }
    {
        CountedRow {
            name,
            usage,
            least,
            most,
        }
    }

    /// Its name and its usage.
    pub(crate) fn row(self) -> Row
        ensures name { result.name.now ≡ self.name.now }
        ensures usage { result.usage.now ≡ self.usage.now }
    {
        Row::new(self.name, self.usage)
    }
}

/// Whether so many words are as many as follow a name.
pub(crate) fn is_between(least: usize, most: Option<usize>, count: usize) -> bool
    ensures { result ≡ table.is_between least most count }
{
    least <= count && is_most(most, count)
}

fn is_most(most: Option<usize>, count: usize) -> bool
    ensures { result ≡ table.is_most most count }
{
    match most {
        Some(most) => count <= most,
        None => true,
    }
}
