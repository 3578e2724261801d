ghost use Rattle.std.specs.Prelude.{map, string_bytes, IfOk};
ghost use Rattle.tt_words.specs.inside.Matches.{AreParts};

use crate::command::command;
use clap::ArgMatches;
use clap::error::ErrorKind;
use std::alloc::Global;
use tt_text::NoMemory;

/// The options and the ordinary words; `None` exactly if the words do not split into them: a dashed word before the
/// end mark is no option, or an option has no value.
///
/// `NoMemory` if memory for the parse is refused.
pub(crate) fn parse(alloc: Global, words: &[String]) -> Result<Option<ArgMatches<'_>>, NoMemory>
    ensures { IfOk result (AreParts (map string_bytes words.now)) }
{
    let Ok(command) = command(alloc) else {
        return Err(NoMemory);
    };
    match command.try_get_matches_from(words) {
        Ok(matches) => Ok(Some(matches)),
        Err(error) => match error.kind() {
            ErrorKind::OutOfMemory => Err(NoMemory),
            _ => Ok(None),
        },
    }
}
