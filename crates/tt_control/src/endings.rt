//! Commands that end what is evaluated around them.
ghost use Rattle.std.specs.Prelude.{◌≡◌, IfOk, codes};
ghost use Rattle.std.specs.Option.{option_map};
ghost use Rattle.tt_control.specs.Refusals.{wrong_number};
ghost use Rattle.tt_control.specs.Endings as endings;

use crate::Control;
use crate::options::is_meant;
use crate::refusals::{bad_option, bad_value, wrong_number};
use std::alloc::Global;
use tt_calls::Code;
use tt_text::{NoMemory, Text};
use tt_value::{Value, texts_of};

pub(crate) fn break_loop(alloc: Global, usage: &[u8], words: &[Text]) -> Result<Control, NoMemory>
    ensures { IfOk result (λ control. control ≡ endings.break_loop (wrong_number usage.now) words.now) }
{
    match words {
        [] => Ok(Control::Break),
        _ => wrong_number(alloc, usage),
    }
}

pub(crate) fn continue_loop(
    alloc: Global,
    usage: &[u8],
    words: &[Text],
) -> Result<Control, NoMemory>
    ensures { IfOk result (λ control. control ≡ endings.continue_loop (wrong_number usage.now) words.now) }
{
    match words {
        [] => Ok(Control::Continue),
        _ => wrong_number(alloc, usage),
    }
}

pub(crate) fn error(alloc: Global, usage: &[u8], words: &[Text]) -> Result<Control, NoMemory>
    ensures { IfOk result (λ control. control ≡ endings.error (wrong_number usage.now) words.now) }
{
    match words {
        [message] => Ok(Control::Error {
            message: message.copy()?,
            info: None,
        }),
        [message, info] | [message, info, _] => Ok(Control::Error {
            message: message.copy()?,
            info: info_of(info)?,
        }),
        _ => wrong_number(alloc, usage),
    }
}

// An empty text counts as left out.
fn info_of(info: &Text) -> Result<Option<Text>, NoMemory>
    ensures { IfOk result (λ found. found ≡ endings.info_of info.now) }
{
    if info.is_empty() {
        return Ok(None);
    }
    let info = info.copy()?;
    Ok(Some(info))
}

pub(crate) fn return_value(
    alloc: Global,
    usage: &[u8],
    words: &[Value],
) -> Result<Control, NoMemory>
    ensures { IfOk result (λ control. control ≡ endings.return_value (wrong_number usage.now) words.now) }
{
    match words {
        [value] => Ok(Control::Return {
            kept: Code::Fine,
            value: value.copy()?,
        }),
        _ => {
            let words = texts_of(alloc, words)?;
            return_by(alloc, usage, words.as_slice())
        }
    }
}

fn return_by(alloc: Global, usage: &[u8], words: &[Text]) -> Result<Control, NoMemory>
    ensures { IfOk result (λ control. control ≡ endings.return_value (wrong_number usage.now) words.now) }
{
    match first_unknown(words) {
        Some(word) => bad_option(alloc, word.as_bytes()),
        None => returned(alloc, usage, last_code(b"ok", words), after_codes(words)),
    }
}

fn is_code(word: &[u8]) -> bool
    ensures { result ≡ endings.is_code word.now }
{
    word == b"-code".as_slice()
}

// The first word before the last that is meant as an option and isn't -code, whose value is passed over.
fn first_unknown(words: &[Text]) -> Option<&Text>
    ensures { option_map (λ word. word.now) result ≡ endings.first_unknown words.now }
{
    let mut rest = words;
    while let [word, next, later @ ..] = rest {
        if is_code(word.as_bytes()) {
            rest = later;
        } else if is_meant(word.as_bytes()) {
            return Some(word);
        } else {
            rest = &rest[1..];
        }
    }
    None
}

// The words after -code and its value, any number of times.
fn after_codes(words: &[Text]) -> &[Text]
    ensures { result.now ≡ endings.after_codes words.now }
{
    let mut rest = words;
    while let [option, _, later @ ..] = rest {
        if !is_code(option.as_bytes()) {
            return rest;
        }
        rest = later;
    }
    rest
}

// The last value of -code, or else this one.
fn last_code<'a>(name: &'a [u8], words: &'a [Text]) -> &'a [u8]
    ensures { result.now ≡ endings.last_code name.now words.now }
{
    let mut last = name;
    let mut rest = words;
    while let [option, value, later @ ..] = rest {
        if !is_code(option.as_bytes()) {
            return last;
        }
        last = value.as_bytes();
        rest = later;
    }
    last
}

fn returned(alloc: Global, usage: &[u8], name: &[u8], words: &[Text]) -> Result<Control, NoMemory>
    ensures { IfOk result (λ control. control ≡ endings.return_control (wrong_number usage.now) name.now words.now) }
{
    match words {
        [] => returns(alloc, name, b""),
        [value] => returns(alloc, name, value.as_bytes()),
        _ => wrong_number(alloc, usage),
    }
}

fn returns(alloc: Global, code: &[u8], value: &[u8]) -> Result<Control, NoMemory>
    ensures { IfOk result (λ control. control ≡ endings.returns code.now value.now) }
{
    match code_named(code) {
        Some(kept) => {
            let value = Value::from_text(Text::from_bytes(alloc, value)?);
            Ok(Control::Return { kept, value })
        }
        None => bad_value(alloc, code),
    }
}

const CODES: [Code; 5] = [
    Code::Fine,
    Code::Failed,
    Code::Returned,
    Code::Broke,
    Code::Continued,
];

fn spelling(code: Code) -> &'static [u8]
    ensures { result.now ≡ endings.spelling code }
{
    match code {
        Code::Fine => b"ok",
        Code::Failed => b"error",
        Code::Returned => b"return",
        Code::Broke => b"break",
        Code::Continued => b"continue",
    }
}

fn code_named(word: &[u8]) -> Option<Code>
    ensures { result ≡ endings.code_named word.now }
{
    CODES.iter().copied().find(|code| word == spelling(*code))
}
