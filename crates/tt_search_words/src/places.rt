//! What each word does, by what came before it.
ghost use Rattle.std.specs.Prelude.{◌≡◌};
ghost use Rattle.std.specs.Option.{option_map};
ghost use Rattle.tt_words.specs.CodeValues.{text_of};
ghost use Rattle.tt_words.specs.Splitting.{is_dashed};
ghost use Rattle.tt_search_words.specs.CodeValues.{step_as_text};
ghost use Rattle.tt_search_words.specs.inside.Places as spec;

use crate::setting::{Setting, setting_named};

/// An option with its value, which is empty if it has none.
#[derive(Clone, Copy)]
pub(crate) struct Choice<'a> {
    pub(crate) setting: Setting,
    pub(crate) value: &'a str,
}

/// What the next word may be.
#[derive(Clone, Copy)]
pub(crate) enum Place {
    /// An option, the end mark or an ordinary word.
    Open,
    /// The value of an option.
    Value(Setting),
    /// An ordinary word: the end mark stands before it.
    Ordinary,
}

/// What a word does.
#[derive(Clone, Copy)]
pub(crate) enum Step<'a> {
    /// It is an ordinary word.
    Plain,
    /// An option has its value.
    Chooses(Choice<'a>),
    /// It says what the next word may be.
    Leads(Place),
    /// It can't stand there.
    Fails,
}

/// What a word does at a place.
pub(crate) fn step_at(place: Place, word: &str) -> Step<'_>
    ensures { step_as_text result ≡ spec.step_at place word.now }
{
    match place {
        Place::Open => open_step(word),
        Place::Value(setting) => value_step(setting, word),
        Place::Ordinary => Step::Plain,
    }
}

/// Whether words may end at a place.
pub(crate) fn may_end(place: Place) -> bool
    ensures { result ≡ spec.may_end place }
{
    matches!(place, Place::Open | Place::Ordinary)
}

fn open_step(word: &str) -> Step<'_>
    ensures { step_as_text result ≡ spec.open_step word.now }
{
    if !is_dashed(word) {
        return Step::Plain;
    }
    if word == "--" {
        return Step::Leads(Place::Ordinary);
    }
    let (name, value) = cut(word);
    match setting_named(name) {
        Some(setting) => setting_step(setting, value),
        None => Step::Fails,
    }
}

fn value_step(setting: Setting, word: &str) -> Step<'_>
    ensures { step_as_text result ≡ spec.value_step setting word.now }
{
    if is_dashed(word) {
        return Step::Fails;
    }
    Step::Chooses(Choice {
        setting,
        value: word,
    })
}

/// What an option does, by the value that follows `=`, if one does.
fn setting_step<'a>(setting: Setting, value: Option<&'a str>) -> Step<'a>
    ensures { step_as_text result ≡ spec.setting_step setting (option_map text_of value.entry) }
{
    match value {
        None if setting.takes_value() => Step::Leads(Place::Value(setting)),
        None => Step::Chooses(Choice { setting, value: "" }),
        Some(value) if setting.takes_value() => Step::Chooses(Choice { setting, value }),
        Some(_) => Step::Fails,
    }
}

/// Whether a word begins with `-` and is longer than that.
fn is_dashed(word: &str) -> bool
    ensures { result ≡ is_dashed word.now }
{
    matches!(word.as_bytes(), [b'-', _, ..])
}

/// What stands before the first `=`, and what stands after it if there is one.
fn cut(word: &str) -> (&str, Option<&str>)
    ensures name { result.0.now ≡ spec.before_sign word.now }
    ensures value { option_map text_of result.1 ≡ spec.after_sign word.now }
{
    match word.split_once('=') {
        Some((name, value)) => (name, Some(value)),
        None => (word, None),
    }
}
