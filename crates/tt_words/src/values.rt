ghost use Rattle.std.specs.Prelude.{◌≡◌, ◌≤◌, ◌<◌, IfSome, IfNone, IfOk, is_some, map, length};
ghost use Rattle.std.specs.Option.{option_map};
ghost use Rattle.tt_words.specs.Asked.{first};
ghost use Rattle.tt_words.specs.inside.Program.{bare, words_name};
ghost use Rattle.tt_words.specs.CodeValues.{text_of, values_as_text};
ghost use Rattle.tt_words.specs.inside.Matches.{IsOnceBy, given_in, values_by};

use crate::command::WORDS;
use crate::setting::Setting;
use clap::ArgMatches;
use std::alloc::Global;
use tt_text::NoMemory;

/// What each option has, and whether each flag is given.
#[derive(Clone, Copy)]
pub(crate) struct Values<'a> {
    pub(crate) workers: Option<&'a str>,
    pub(crate) steps: Option<&'a str>,
    pub(crate) limit: Option<&'a str>,
    pub(crate) kept: Option<&'a str>,
    pub(crate) replay: Option<&'a str>,
    pub(crate) generate: Option<&'a str>,
    pub(crate) waits: bool,
    pub(crate) races: bool,
    pub(crate) debug: Option<&'a str>,
}

/// What each option has, and whether each flag is given; `None` exactly if one comes twice.
pub(crate) fn read_values<'a>(matches: &ArgMatches<'a>) -> Option<Values<'a>>
    ensures found { IfSome result (λ values.
        values_as_text values ≡ values_by (λ setting. given_in matches.now (bare setting))) }
    ensures once { IfSome result (λ values. IsOnceBy (λ setting. given_in matches.now (bare setting))) }
    ensures none { IfNone result (¬ IsOnceBy (λ setting. given_in matches.now (bare setting))) }
{
    Some(Values {
        workers: value(matches, Setting::Workers)?,
        steps: value(matches, Setting::Steps)?,
        limit: value(matches, Setting::Limit)?,
        kept: value(matches, Setting::Record)?,
        replay: value(matches, Setting::Replay)?,
        generate: value(matches, Setting::Generate)?,
        waits: is_given(matches, Setting::Waits)?,
        races: is_given(matches, Setting::Races)?,
        debug: value(matches, Setting::Debug)?,
    })
}

/// Whether a flag is given; `None` exactly if it is given twice.
fn is_given(matches: &ArgMatches<'_>, setting: Setting) -> Option<bool>
    ensures found { IfSome result (λ given. given ≡ is_some (first (given_in matches.now (bare setting)))) }
    ensures once { IfSome result (λ given. length (given_in matches.now (bare setting)) ≤ 1) }
    ensures none { IfNone result (1 < length (given_in matches.now (bare setting))) }
{
    let value = value(matches, setting)?;
    Some(value.is_some())
}

/// The value that an option is given, if it is given one; `None` exactly if it is given two.
fn value<'a>(matches: &ArgMatches<'a>, setting: Setting) -> Option<Option<&'a str>>
    ensures found { IfSome result (λ value. option_map text_of value ≡ first (given_in matches.now (bare setting))) }
    ensures once { IfSome result (λ value. length (given_in matches.now (bare setting)) ≤ 1) }
    ensures none { IfNone result (1 < length (given_in matches.now (bare setting))) }
{
    match matches.get_raw(setting.name()) {
        None | Some([]) => Some(None),
        Some([value]) => Some(Some(*value)),
        Some(_) => None,
    }
}

/// The ordinary words.
///
/// `NoMemory` if memory for their list is refused.
pub(crate) fn ordinary<'a>(
    alloc: Global,
    matches: &ArgMatches<'a>,
) -> Result<Vec<&'a str>, NoMemory>
    ensures { IfOk result (λ words. map text_of words.items ≡ given_in matches.now words_name) }
{
    match matches.get_raw(WORDS) {
        Some(words) => {
            let words = Vec::from_slice(alloc, words)?;
            Ok(words)
        }
        None => Ok(Vec::new(alloc)),
    }
}
