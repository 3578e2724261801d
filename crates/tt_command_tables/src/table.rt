//! Tables of commands.
ghost use Rattle.std.specs.Prelude.{◌≡◌, ℕ, List};
ghost use Rattle.tt_command_tables.specs.Tables.{first_named};

use crate::Row;

/// A command that a table has a row of.
pub trait Command: Copy {
    ghost name_of: { Self → List ℕ };

    ghost usage_of: { Self → List ℕ };

    /// Its row.
    fn row(self) -> Row
        ensures name { result.name.now ≡ name_of self }
        ensures usage { result.usage.now ≡ usage_of self };
}

/// The first of these commands that has this name.
pub fn command_named<C: Command>(commands: &[C], name: &[u8]) -> Option<C>
    ensures { result ≡ first_named C.name_of commands.now name.now }
{
    commands
        .iter()
        .copied()
        .find(|command| name == command.row().name)
}
