//! switch(n): its options, its patterns, and the body that is chosen.
ghost use Rattle.std.specs.Prelude.{◌≡◌, IfOk};
ghost use Rattle.tt_control.specs.Refusals.{wrong_number};
ghost use Rattle.tt_control.specs.Choices as choices;
ghost use Rattle.tt_lists.specs.Searching.{is_alike};

use crate::Control;
use crate::options::is_meant;
use crate::refusals::{bad_option, wrong_number};
use std::alloc::Global;
use tt_lists::{Matching, Split, split};
use tt_text::{NoMemory, Text, glob};

/// What a word is where options may stand.
#[derive(Clone, Copy, Debug, PartialEq, Eq)]
pub(crate) enum Sign {
    /// An option: how patterns are compared.
    Compares(Matching),
    /// `--`, which ends the options.
    Ends,
    /// It is meant as an option, and is none.
    Unknown,
    /// No option.
    Plain,
}

pub(crate) fn switch(alloc: Global, usage: &[u8], words: &[Text]) -> Result<Control, NoMemory>
    ensures { IfOk result (λ control. control ≡ choices.switch (wrong_number usage.now) Matching.Exact words.now) }
{
    let mut matching = Matching::Exact;
    let mut rest = words;
    while let [word, _, _, ..] = rest {
        match sign_of(word.as_bytes()) {
            Sign::Compares(chosen) => {
                matching = chosen;
                rest = &rest[1..];
            }
            Sign::Ends => return switched(alloc, usage, matching, &rest[1..]),
            Sign::Unknown => return bad_option(alloc, word.as_bytes()),
            Sign::Plain => return switched(alloc, usage, matching, rest),
        }
    }
    switched(alloc, usage, matching, rest)
}

fn sign_of(word: &[u8]) -> Sign
    ensures { result ≡ choices.sign_of word.now }
{
    if word == b"-exact".as_slice() {
        return Sign::Compares(Matching::Exact);
    }
    if word == b"-glob".as_slice() {
        return Sign::Compares(Matching::Glob);
    }
    if word == b"--".as_slice() {
        return Sign::Ends;
    }
    if is_meant(word) {
        Sign::Unknown
    } else {
        Sign::Plain
    }
}

fn switched(
    alloc: Global,
    usage: &[u8],
    matching: Matching,
    words: &[Text],
) -> Result<Control, NoMemory>
    ensures { IfOk result (λ control. control ≡ choices.switch_control (wrong_number usage.now) matching words.now) }
{
    match words {
        [text, words @ ..] => paired(alloc, usage, matching, text.as_bytes(), words),
        [] => wrong_number(alloc, usage),
    }
}

fn paired(
    alloc: Global,
    usage: &[u8],
    matching: Matching,
    text: &[u8],
    words: &[Text],
) -> Result<Control, NoMemory>
    ensures { IfOk result
        (λ control. control ≡ choices.choice_in_words (wrong_number usage.now) matching text.now words.now) }
{
    match words {
        [] => wrong_number(alloc, usage),
        [list] => in_list(alloc, matching, text, list.as_bytes()),
        [_, _, ..] => chosen(alloc, matching, text, words),
    }
}

fn in_list(alloc: Global, matching: Matching, text: &[u8], list: &[u8]) -> Result<Control, NoMemory>
    ensures { IfOk result (λ control. control ≡ choices.in_list matching text.now list.now) }
{
    match split(alloc, list)? {
        Split::Items(pairs) => chosen(alloc, matching, text, pairs.as_slice()),
        Split::Bad(fault) => {
            let message = fault.message(alloc)?;
            Ok(Control::Bad(message))
        }
    }
}

fn chosen(
    alloc: Global,
    matching: Matching,
    text: &[u8],
    pairs: &[Text],
) -> Result<Control, NoMemory>
    ensures { IfOk result (λ control. control ≡ choices.choice_among matching text.now pairs.now) }
{
    if !is_whole(pairs) {
        let message = Text::from_bytes(alloc, b"switch pattern without body")?;
        return Ok(Control::Bad(message));
    }
    let body = Text::from_bytes(alloc, first_body(matching, text, pairs))?;
    Ok(Control::Script(body))
}

// A body that stands for the next one.
fn falls_through(body: &[u8]) -> bool
    ensures { result ≡ choices.falls_through body.now }
{
    body == b"-".as_slice()
}

// Whether each pattern has a body of its own or of a later one.
fn is_whole(pairs: &[Text]) -> bool
    ensures { result ≡ choices.is_whole pairs.now }
{
    let mut rest = pairs;
    while let [_, _, _, ..] = rest {
        rest = &rest[2..];
    }
    match rest {
        [_, body] => !falls_through(body.as_bytes()),
        _ => rest.is_empty(),
    }
}

// The body of the first pattern that takes a text, or no bytes.
fn first_body<'a>(matching: Matching, text: &[u8], pairs: &'a [Text]) -> &'a [u8]
    ensures { result.now ≡ choices.first_body matching text.now pairs.now }
{
    let mut rest = pairs;
    while let [pattern, _, later @ ..] = rest {
        if is_taken(matching, pattern.as_bytes(), text, later) {
            return body_from(rest);
        }
        rest = later;
    }
    b""
}

// Whether a pattern before these matches; the last one may be `default`.
fn is_taken(matching: Matching, pattern: &[u8], text: &[u8], later: &[Text]) -> bool
    ensures { result ≡ choices.is_taken matching pattern.now text.now later.now }
{
    (later.is_empty() && pattern == b"default".as_slice()) || is_alike(matching, pattern, text)
}

fn is_alike(matching: Matching, pattern: &[u8], text: &[u8]) -> bool
    ensures { result ≡ is_alike matching pattern.now text.now }
{
    match matching {
        Matching::Exact => text == pattern,
        Matching::Glob => glob(pattern, text),
    }
}

// The first body that doesn't stand for the next one, or no bytes.
fn body_from(pairs: &[Text]) -> &[u8]
    ensures { result.now ≡ choices.body_from pairs.now }
{
    let mut rest = pairs;
    while let [_, body, later @ ..] = rest {
        if !falls_through(body.as_bytes()) {
            return body.as_bytes();
        }
        rest = later;
    }
    b""
}
