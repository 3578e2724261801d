ghost use Rattle.std.specs.Prelude.{◌≡◌, ◌<◌, ◌≤◌, length, IfOk, drop, take, take_while};
ghost use Rattle.tt_text.specs.Braces.{matching_brace};
ghost use Rattle.tt_text.specs.Characters.{without_white_front};
ghost use Rattle.tt_lists.specs.ListText.{is_no_white_space, is_quote};
ghost use Rattle.tt_lists.specs.Reading.{IsSplit, split_of, item_at, in_braces, in_quotes, is_separated, front_run};

use crate::items::{ListFault, Split};
use crate::run::{Stop, read_run};
use std::alloc::Global;
use tt_text::{NoMemory, Text, Texts, is_white_space, matching_brace, without_white_front};

/// One item and how many bytes write it, or what is wrong there.
#[derive(Drop)]
pub(crate) enum Reading {
    Item(Text, usize),
    Wrong(ListFault),
}

/// Splits a text into the items of a list (Tcl(n), lists; lindex(n)).
///
/// Items are separated by white space. `{` opens an item that is taken as it is up to the brace that
/// matches, `"` one up to the next quote, and any other byte one up to the next white space; in the two
/// latter backslash sequences are replaced. `Bad` has the first item that can't be read.
///
/// `NoMemory` if the memory for the items is refused.
#[tactic(auto, using(crate::proofs::SplitLaw::split_by))]
pub fn split(alloc: Global, text: &[u8]) -> Result<Split, NoMemory>
    ensures answer { IfOk result (λ split. split ≡ split_of text.now) }
    ensures by_grammar { IfOk result (IsSplit text.now) }
{
    let mut items = Texts::new(alloc);
    let mut rest = without_white_front(text);
    while !rest.is_empty() {
        match item_at(alloc, rest)? {
            Reading::Item(item, takes) => {
                items.push(item)?;
                rest = after_item(rest, takes);
            }
            Reading::Wrong(fault) => return Ok(Split::Bad(fault)),
        }
    }
    Ok(Split::Items(items))
}

fn after_item(text: &[u8], takes: usize) -> &[u8]
    requires { takes ≤ length text.now }
    ensures { result.now ≡ without_white_front (drop takes text.now) }
{
    without_white_front(&text[takes..])
}

#[tactic(auto, unfolding(crate::specs::Reading::item_at))]
fn item_at(alloc: Global, text: &[u8]) -> Result<Reading, NoMemory>
    ensures { IfOk result (λ read. read ≡ item_at text.now) }
{
    match text {
        [b'{', after @ ..] => in_braces(alloc, after),
        [b'"', after @ ..] => in_quotes(alloc, after),
        _ => {
            let bare = read_run(alloc, text, Stop::WhiteSpace)?;
            Ok(Reading::Item(bare.value, bare.takes))
        }
    }
}

fn in_braces(alloc: Global, text: &[u8]) -> Result<Reading, NoMemory>
    ensures { IfOk result (λ read. read ≡ in_braces text.now (matching_brace text.now)) }
{
    let Some(place) = matching_brace(text) else {
        return Ok(Reading::Wrong(ListFault::OpenBrace));
    };
    let after = &text[place + 1..];
    if !is_separated(after) {
        return Ok(Reading::Wrong(ListFault::AfterBrace(word_front(alloc, after)?)));
    }
    let item = Text::from_bytes(alloc, &text[..place])?;
    Ok(Reading::Item(item, place + 2))
}

fn in_quotes(alloc: Global, text: &[u8]) -> Result<Reading, NoMemory>
    ensures { IfOk result (λ read. read ≡ in_quotes text.now (front_run is_quote 0 text.now)) }
{
    let quoted = read_run(alloc, text, Stop::Quote)?;
    if quoted.takes >= text.len() {
        return Ok(Reading::Wrong(ListFault::OpenQuote));
    }
    let after = &text[quoted.takes + 1..];
    if !is_separated(after) {
        return Ok(Reading::Wrong(ListFault::AfterQuote(word_front(alloc, after)?)));
    }
    Ok(Reading::Item(quoted.value, quoted.takes + 2))
}

fn is_separated(after: &[u8]) -> bool
    ensures { result ≡ is_separated after.now }
{
    match after {
        [first, ..] => is_white_space(*first),
        [] => true,
    }
}

// The bytes up to the next white space, at most 20.
#[tactic(auto, using(crate::proofs::Splits::take_told))]
fn word_front(alloc: Global, after: &[u8]) -> Result<Text, NoMemory>
    ensures { IfOk result (λ front. front ≡ take 20 (take_while is_no_white_space after.now)) }
{
    Text::from_bytes(alloc, &after[..word_length(after).min(20)])
}

fn word_length(text: &[u8]) -> usize
    ensures { result ≡ length (take_while is_no_white_space text.now) }
{
    text.iter().take_while(|b| !is_white_space(**b)).count()
}
