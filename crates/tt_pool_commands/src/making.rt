//! tpool::create.
ghost use Rattle.std.specs.Prelude.{◌≡◌, IfOk};
ghost use Rattle.std.specs.Option.{option_map};
ghost use Rattle.tt_pool_commands.specs.Pools as pools;
ghost use Rattle.tt_command_tables.specs.Usages.{wrong_number};
ghost use Rattle.tt_number.specs.Numerals.{whole_of};

use std::alloc::Global;
use tt_calls::PoolCall;
use tt_command_tables::{Call, Then, asks_pool, bad_option, bad_value, is_meant, wrong_number};
use tt_number::read_whole;
use tt_text::{NoMemory, Text};

/// An option of `tpool::create`, which has a value (tpool(n)).
#[derive(Clone, Copy, Debug, PartialEq, Eq)]
pub(crate) enum Setting {
    Least,
    Most,
    Idle,
    Init,
    Exit,
}

const SETTINGS: [Setting; 5] = [
    Setting::Least,
    Setting::Most,
    Setting::Idle,
    Setting::Init,
    Setting::Exit,
];

fn spelling(setting: Setting) -> &'static [u8]
    ensures { result.now ≡ pools.spelling setting }
{
    match setting {
        Setting::Least => b"-minworkers",
        Setting::Most => b"-maxworkers",
        Setting::Idle => b"-idletime",
        Setting::Init => b"-initcmd",
        Setting::Exit => b"-exitcmd",
    }
}

// Its value if it is left out.
fn default(setting: Setting) -> &'static [u8]
    ensures { result.now ≡ pools.default setting }
{
    match setting {
        Setting::Least | Setting::Idle => b"0",
        Setting::Most => b"4",
        Setting::Init | Setting::Exit => b"",
    }
}

pub(crate) fn create(alloc: Global, usage: &[u8], words: &[Text]) -> Result<Call, NoMemory>
    ensures { IfOk result (λ call. call ≡ pools.create (wrong_number usage.now) words.now) }
{
    if let Some(option) = first_unknown(words) {
        return bad_option(alloc, option.as_bytes());
    }
    if !are_settings(words) {
        return wrong_number(alloc, usage);
    }
    by_most(alloc, words)
}

// The values are tested in one order, whatever the order of the options: the most workers, the least, the idle time.
fn by_most(alloc: Global, words: &[Text]) -> Result<Call, NoMemory>
    ensures { IfOk result (λ call. call ≡ pools.by_most words.now) }
{
    let word = value_of(Setting::Most, words);
    match number_between(1, 900, word) {
        Some(most) => by_least(alloc, words, most),
        None => bad_value(alloc, word),
    }
}

fn by_least(alloc: Global, words: &[Text], most: u32) -> Result<Call, NoMemory>
    ensures { IfOk result (λ call. call ≡ pools.by_least words.now most) }
{
    let word = value_of(Setting::Least, words);
    match number_between(0, most, word) {
        Some(least) => by_idle_time(alloc, words, most, least),
        None => bad_value(alloc, word),
    }
}

fn by_idle_time(alloc: Global, words: &[Text], most: u32, least: u32) -> Result<Call, NoMemory>
    ensures { IfOk result (λ call. call ≡ pools.by_idle_time words.now most least) }
{
    let word = value_of(Setting::Idle, words);
    match number_between(0, 0, word) {
        Some(_) => new_pool(alloc, words, most, least),
        None => bad_value(alloc, word),
    }
}

fn new_pool(alloc: Global, words: &[Text], most: u32, least: u32) -> Result<Call, NoMemory>
    ensures { IfOk result (λ call. call ≡ pools.new_pool words.now most least) }
{
    let call = PoolCall::Create {
        least,
        most,
        init: Text::from_bytes(alloc, value_of(Setting::Init, words))?,
        exit: Text::from_bytes(alloc, value_of(Setting::Exit, words))?,
    };
    asks_pool(alloc, call, Then::Value)
}

fn is_setting(word: &[u8]) -> bool
    ensures { result ≡ pools.is_setting word.now }
{
    is_among(&SETTINGS, word)
}

fn is_among(settings: &[Setting], word: &[u8]) -> bool
    ensures { result ≡ pools.is_among settings.now word.now }
{
    settings.iter().any(|setting| word == spelling(*setting))
}

fn is_unknown(word: &[u8]) -> bool
    ensures { result ≡ pools.is_unknown word.now }
{
    is_meant(word) && !is_setting(word)
}

// The first word at the place of an option that is meant as one, and is none.
fn first_unknown(words: &[Text]) -> Option<&Text>
    ensures { option_map (λ option. option.now) result ≡ pools.first_unknown words.now }
{
    let mut rest = words;
    while let [option, _, later @ ..] = rest {
        if is_unknown(option.as_bytes()) {
            return Some(option);
        }
        rest = later;
    }
    unknown_alone(rest)
}

// The same of at most one word.
fn unknown_alone(words: &[Text]) -> Option<&Text>
    ensures { option_map (λ option. option.now) result ≡ pools.unknown_alone words.now }
{
    match words {
        [option, ..] if is_unknown(option.as_bytes()) => Some(option),
        _ => None,
    }
}

// Whether each word at the place of an option is one, and has a value.
fn are_settings(words: &[Text]) -> bool
    ensures { result ≡ pools.are_settings words.now }
{
    let mut rest = words;
    while let [option, _, later @ ..] = rest {
        if !is_setting(option.as_bytes()) {
            return false;
        }
        rest = later;
    }
    rest.is_empty()
}

// The last value of an option, or the one that it has if it is left out.
fn value_of(setting: Setting, words: &[Text]) -> &[u8]
    ensures { result.now ≡ pools.value_of setting words.now }
{
    let mut value = default(setting);
    let mut rest = words;
    while let [option, next, later @ ..] = rest {
        value = newer(setting, value, option.as_bytes(), next.as_bytes());
        rest = later;
    }
    value
}

fn newer<'a>(setting: Setting, value: &'a [u8], option: &[u8], next: &'a [u8]) -> &'a [u8]
    ensures { result.now ≡ pools.newer setting value.now option.now next.now }
{
    if option == spelling(setting) {
        next
    } else {
        value
    }
}

// The number that a word is, if it is a whole one between these.
fn number_between(low: u32, high: u32, word: &[u8]) -> Option<u32>
    ensures { result ≡ pools.number_between low high (whole_of word.now) }
{
    let number = read_whole(word).ok()?;
    let number = u32::try_from(number).ok()?;
    (low..=high).contains(&number).then_some(number)
}
