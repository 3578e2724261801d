//! thread::configure.
ghost use Rattle.std.specs.Prelude.{◌≡◌, ◌++◌, IfOk};
ghost use Rattle.std.specs.Option.{option_map};
ghost use Rattle.tt_thread_commands.specs.Configuring as configuring;
ghost use Rattle.tt_command_tables.specs.Usages.{wrong_number};
ghost use Rattle.tt_number.specs.Numerals.{whole_of};

use std::alloc::Global;
use tt_calls::Request;
use tt_command_tables::{Call, Then, asks, bad_option, bad_value, wrong_number};
use tt_exprs::boolean;
use tt_number::read_whole;
use tt_text::{NoMemory, Text, Texts};

fn is_mark(option: &[u8]) -> bool
    ensures { result ≡ configuring.is_mark option.now }
{
    option == b"-eventmark".as_slice()
}

fn is_unwinding(option: &[u8]) -> bool
    ensures { result ≡ configuring.is_unwinding option.now }
{
    option == b"-unwindonerror".as_slice()
}

pub(crate) fn configure(alloc: Global, usage: &[u8], words: &[Text]) -> Result<Call, NoMemory>
    ensures { IfOk result (λ call. call ≡ configuring.configure (wrong_number usage.now) words.now) }
{
    match words {
        [id, words @ ..] => configure_words(alloc, usage, id, words),
        [] => wrong_number(alloc, usage),
    }
}

fn configure_words(alloc: Global, usage: &[u8], id: &Text, words: &[Text]) -> Result<Call, NoMemory>
    ensures { IfOk result (λ call. call ≡ configuring.configure_words (wrong_number usage.now) id.now words.now) }
{
    if let Some(option) = first_unknown(words) {
        return bad_option(alloc, option.as_bytes());
    }
    if !is_number(words) {
        return wrong_number(alloc, usage);
    }
    configures(alloc, id, words)
}

fn configures(alloc: Global, id: &Text, words: &[Text]) -> Result<Call, NoMemory>
    ensures { IfOk result (λ call. call ≡ configuring.configures id.now words.now) }
{
    if let Some(value) = first_bad(words) {
        return bad_value(alloc, value.as_bytes());
    }
    let request = Request::Configure {
        id: id.copy()?,
        words: setting_words(alloc, words)?,
    };
    asks(alloc, request, Then::Value)
}

fn is_option(option: &[u8]) -> bool
    ensures { result ≡ configuring.is_option option.now }
{
    is_mark(option) || is_unwinding(option)
}

// The first word at the place of an option that is none.
fn first_unknown(words: &[Text]) -> Option<&Text>
    ensures { option_map (λ option. option.now) result ≡ configuring.first_unknown words.now }
{
    let mut rest = words;
    while let [option, _, later @ ..] = rest {
        if !is_option(option.as_bytes()) {
            return Some(option);
        }
        rest = later;
    }
    unknown_alone(rest)
}

// The same of at most one word.
fn unknown_alone(words: &[Text]) -> Option<&Text>
    ensures { option_map (λ option. option.now) result ≡ configuring.unknown_alone words.now }
{
    match words {
        [option, ..] if !is_option(option.as_bytes()) => Some(option),
        _ => None,
    }
}

fn is_number(words: &[Text]) -> bool
    ensures { result ≡ configuring.is_number words.now }
{
    match words {
        [_] => true,
        _ => words.len() % 2 == 0,
    }
}

// The first value that its option can't have.
fn first_bad(words: &[Text]) -> Option<&Text>
    ensures { option_map (λ value. value.now) result ≡ configuring.first_bad words.now }
{
    let mut rest = words;
    while let [option, value, later @ ..] = rest {
        if !is_value(option.as_bytes(), value.as_bytes()) {
            return Some(value);
        }
        rest = later;
    }
    None
}

fn is_value(option: &[u8], value: &[u8]) -> bool
    ensures { result ≡ configuring.is_value option.now value.now }
{
    if is_mark(option) {
        return is_mark_value(value);
    }
    boolean(value).is_some()
}

fn is_mark_value(value: &[u8]) -> bool
    ensures { result ≡ configuring.is_mark_value (whole_of value.now) }
{
    match read_whole(value) {
        Ok(mark) => !mark.is_negative(),
        Err(_) => false,
    }
}

// The words with booleans written as 1 or 0.
fn setting_words(alloc: Global, words: &[Text]) -> Result<Texts, NoMemory>
    ensures { IfOk result (λ settings. settings ≡ configuring.setting_words words.now) }
{
    let mut settings = Texts::new(alloc);
    let mut rest = words;
    while let [option, value, later @ ..] = rest {
        settings.push(option.copy()?)?;
        settings.push(setting_text(alloc, option.as_bytes(), value)?)?;
        rest = later;
    }
    last_option(settings, rest)
}

// These, and after them at most one word as it is.
fn last_option(settings: Texts, words: &[Text]) -> Result<Texts, NoMemory>
    ensures { IfOk result (λ all. all ≡ settings ++ configuring.last_option words.now) }
{
    let mut settings = settings;
    if let [option, ..] = words {
        settings.push(option.copy()?)?;
    }
    Ok(settings)
}

fn setting_text(alloc: Global, option: &[u8], value: &Text) -> Result<Text, NoMemory>
    ensures { IfOk result (λ text. text ≡ configuring.setting_text option.now value.now) }
{
    if is_mark(option) {
        return value.copy();
    }
    boolean_text(alloc, boolean(value.as_bytes()))
}

fn boolean_text(alloc: Global, truth: Option<bool>) -> Result<Text, NoMemory>
    ensures { IfOk result (λ text. text ≡ configuring.boolean_text truth) }
{
    match truth {
        Some(true) => Text::from_bytes(alloc, b"1"),
        _ => Text::from_bytes(alloc, b"0"),
    }
}
