ghost use Rattle.std.specs.Prelude.{◌≡◌, ◌≤◌, ◌<◌, IfSome, IfNone, map, length};
ghost use Rattle.std.specs.Option.{option_map};
ghost use Rattle.tt_words.specs.Asked.{first};
ghost use Rattle.tt_words.specs.CodeValues.{text_of};
ghost use Rattle.tt_search_words.specs.Asked.{IsOnce, values_in, values_of};
ghost use Rattle.tt_search_words.specs.CodeValues.{choice_as_text, values_as_text};

use crate::places::Choice;
use crate::setting::Setting;

/// What each option has.
#[derive(Clone, Copy)]
pub(crate) struct Values<'a> {
    pub(crate) runs: Option<&'a str>,
    pub(crate) seed: Option<&'a str>,
    pub(crate) switches: Option<&'a str>,
    pub(crate) steps: Option<&'a str>,
    pub(crate) limit: Option<&'a str>,
    pub(crate) workers: Option<&'a str>,
    pub(crate) differ: Option<&'a str>,
    pub(crate) kept: Option<&'a str>,
}

/// What each option has; `None` exactly if one comes twice.
pub(crate) fn read_values<'a>(options: &[Choice<'a>]) -> Option<Values<'a>>
    ensures found { IfSome result (λ values. values_as_text values ≡ values_in (map choice_as_text options.now)) }
    ensures once { IfSome result (λ values. IsOnce (map choice_as_text options.now)) }
    ensures none { IfNone result (¬ IsOnce (map choice_as_text options.now)) }
{
    Some(Values {
        runs: value(options, Setting::Runs)?,
        seed: value(options, Setting::Seed)?,
        switches: value(options, Setting::Switches)?,
        steps: value(options, Setting::Steps)?,
        limit: value(options, Setting::Limit)?,
        workers: value(options, Setting::Workers)?,
        differ: value(options, Setting::Differ)?,
        kept: value(options, Setting::Record)?,
    })
}

/// The value that an option is given, if it is given one; `None` exactly if it is given two.
fn value<'a>(options: &[Choice<'a>], setting: Setting) -> Option<Option<&'a str>>
    ensures found { IfSome result (λ value.
        option_map text_of value ≡ first (values_of setting (map choice_as_text options.now))) }
    ensures once { IfSome result (λ value. length (values_of setting (map choice_as_text options.now)) ≤ 1) }
    ensures none { IfNone result (1 < length (values_of setting (map choice_as_text options.now))) }
{
    let mut found = None;
    for choice in options {
        if setting.is_same(choice.setting) {
            if found.is_some() {
                return None;
            }
            found = Some(choice.value);
        }
    }
    Some(found)
}
