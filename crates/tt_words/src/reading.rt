ghost use Rattle.std.specs.Prelude.{map, string_bytes, IfOk};
ghost use Rattle.std.specs.Option.{option_map};
ghost use Rattle.tt_words.specs.Asked.{IsReading};
ghost use Rattle.tt_words.specs.CodeValues.{asked_as_text};

use crate::asked::{Asked, asked_by};
use crate::parsing::parse;
use crate::values::{ordinary, read_values};
use std::alloc::Global;
use tt_text::NoMemory;

/// How the program is called.
pub const USAGE: &[u8] =
    b"tclthread [--workers N] [--steps N] [--limit N] [--record FILE] [--replay FILE] [--generate NUMBER] \
      [--waits] [--races] [--debug FILE] SCRIPT [ARG ...]";

/// What the words after the program's name ask for (`USAGE`).
///
/// The value of an option is the next word, unless that begins with `-` and is longer than `-`, or follows `=` in the
/// same word. `--waits` and `--races` are flags: they have no value. Each option and each flag comes at most once,
/// before or after other words, and up to the word `--`; the words after that are ordinary. A number is 1 to 20 digits,
/// and a name is not empty.
///
/// `--replay` excludes each other option but `--limit` and one of `--waits`, `--races` and `--debug`, which need it.
/// `--generate` excludes `--workers`, and then the one ordinary word is a number of jobs.
///
/// `None` exactly if the words are not so. `NoMemory` if memory for the words is refused.
pub fn read_words(alloc: Global, words: &[String]) -> Result<Option<Asked<'_>>, NoMemory>
    ensures { IfOk result (λ asked. IsReading (map string_bytes words.now) (option_map asked_as_text asked)) }
{
    let Some(matches) = parse(alloc, words)? else {
        return Ok(None);
    };
    let Some(values) = read_values(&matches) else {
        return Ok(None);
    };
    let ordinary = ordinary(alloc, &matches)?;
    let asked = asked_by(&values, ordinary);
    Ok(asked)
}
