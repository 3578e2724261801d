ghost use Rattle.std.specs.Prelude.{map, string_bytes, IfOk};
ghost use Rattle.std.specs.Option.{option_map};
ghost use Rattle.tt_search_words.specs.Asked.{IsReading};
ghost use Rattle.tt_search_words.specs.CodeValues.{search_as_text};

use crate::asked::{Search, read_search};
use crate::parts::{Parts, split};
use crate::values::read_values;
use std::alloc::Global;
use tt_text::NoMemory;

/// How the program is called.
pub const USAGE: &[u8] =
    b"tclsearch [--runs N] [--seed N] [--switches N] [--steps N] [--limit N] [--workers N] [--differ] \
      [--record FILE] SCRIPT [ARG ...]";

/// What the words after the program's name ask for (`USAGE`).
///
/// The value of an option is the next word, unless that begins with `-` and is longer than `-`, or follows `=` in the
/// same word. `--differ` has no value. Each option comes at most once, before or after other words, and up to the word
/// `--`; the words after that are ordinary. A number is 1 to 20 digits, and a name is not empty.
///
/// `None` exactly if the words are not so. `NoMemory` if memory for the words is refused.
pub fn read_words(alloc: Global, words: &[String]) -> Result<Option<Search<'_>>, NoMemory>
    ensures { IfOk result (λ asked. IsReading (map string_bytes words.now) (option_map search_as_text asked)) }
{
    let Some(parts) = split(alloc, words)? else {
        return Ok(None);
    };
    let Parts { options, ordinary } = parts;
    let Some(values) = read_values(options.as_slice()) else {
        return Ok(None);
    };
    let asked = read_search(&values, ordinary);
    Ok(asked)
}
