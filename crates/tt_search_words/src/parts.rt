ghost use Rattle.std.specs.Prelude.{◌≡◌, map, string_bytes, IfOk};
ghost use Rattle.std.specs.Option.{option_map};
ghost use Rattle.tt_search_words.specs.CodeValues.{parts_as_text};
ghost use Rattle.tt_search_words.specs.inside.Places.{parts_of};

use crate::places::{Choice, Place, Step, may_end, step_at};
use std::alloc::Global;
use tt_text::NoMemory;

/// The options and the ordinary words of a command line, each in the order in which they stand.
#[derive(Drop)]
pub(crate) struct Parts<'a> {
    pub(crate) options: Vec<Choice<'a>>,
    pub(crate) ordinary: Vec<&'a str>,
}

/// The options and the ordinary words; `None` exactly if the words do not split into them: a dashed word before the
/// end mark is no option, an option lacks its value, or one has a value that takes none.
///
/// `NoMemory` if memory for them is refused.
pub(crate) fn split<'a>(alloc: Global, words: &'a [String]) -> Result<Option<Parts<'a>>, NoMemory>
    ensures { IfOk result (λ parts. option_map parts_as_text parts ≡ parts_of (map string_bytes words.now)) }
{
    let mut options = Vec::new(alloc);
    let mut ordinary = Vec::new(alloc);
    let mut place = Place::Open;
    for word in words {
        let text = word.as_str();
        match step_at(place, text) {
            Step::Plain => ordinary.push(text)?,
            Step::Chooses(choice) => {
                options.push(choice)?;
                place = Place::Open;
            }
            Step::Leads(next) => place = next,
            Step::Fails => return Ok(None),
        }
    }
    if !may_end(place) {
        return Ok(None);
    }
    Ok(Some(Parts { options, ordinary }))
}
