//! Subcommands that answer a part of a text, or a text of the same length.
ghost use Rattle.std.specs.Prelude.{◌≡◌, IfOk, decimal, length};
ghost use Rattle.std.specs.Option.{option_map};
ghost use Rattle.tt_text.specs.Characters.{characters};
ghost use Rattle.tt_lists.specs.Indices.{index_of};
ghost use Rattle.tt_lists.specs.Messages.{bad_index_message};
ghost use Rattle.tt_lists.specs.Places.{place_in};
ghost use Rattle.tt_pure.specs.Strings as answers;
ghost use Rattle.tt_pure.specs.Usages.{wrong_number};

use crate::usages::wrong_number;
use std::alloc::Global;
use tt_lists::{ListAnswer, bad_index, count_text, index};
use tt_strings::{Side, WHITE_SPACE, character_in, lower, range_in, reversed, trim, upper};
use tt_text::{NoMemory, Text};

fn made_text(alloc: Global, text: &[u8]) -> Result<ListAnswer, NoMemory>
    ensures { IfOk result (λ answer. answer ≡ ListAnswer.Made text.now) }
{
    let text = Text::from_bytes(alloc, text)?;
    Ok(ListAnswer::Made(text))
}

fn no_index(alloc: Global, word: &[u8]) -> Result<ListAnswer, NoMemory>
    ensures { IfOk result (λ answer. answer ≡ ListAnswer.Bad (bad_index_message word.now)) }
{
    let message = bad_index(alloc, word)?;
    Ok(ListAnswer::Bad(message))
}

// The place of a character that a word names.
fn place_in(text: &Text, word: &[u8]) -> Option<i128>
    ensures { result ≡ option_map (λ index. place_in index (length (characters text.now))) (index_of word.now) }
{
    index(word).map(|index| index.place(text.char_count()))
}

pub(crate) fn length_answer(
    alloc: Global,
    usage: &[u8],
    words: &[Text],
) -> Result<ListAnswer, NoMemory>
    ensures { IfOk result (λ answer. answer ≡ answers.length_answer (wrong_number usage.now) words.now) }
{
    match words {
        [text] => count_answer(alloc, text),
        _ => wrong_number(alloc, usage),
    }
}

fn count_answer(alloc: Global, text: &Text) -> Result<ListAnswer, NoMemory>
    ensures { IfOk result (λ answer. answer ≡ ListAnswer.Made (decimal (length (characters text.now)))) }
{
    let count = count_text(alloc, text.char_count())?;
    Ok(ListAnswer::Made(count))
}

pub(crate) fn index_answer(
    alloc: Global,
    usage: &[u8],
    words: &[Text],
) -> Result<ListAnswer, NoMemory>
    ensures { IfOk result (λ answer. answer ≡ answers.index_answer (wrong_number usage.now) words.now) }
{
    match words {
        [text, word] => character_answer(alloc, text, word.as_bytes()),
        _ => wrong_number(alloc, usage),
    }
}

fn character_answer(alloc: Global, text: &Text, word: &[u8]) -> Result<ListAnswer, NoMemory>
    ensures { IfOk result (λ answer. answer ≡ answers.character_answer text.now word.now) }
{
    match place_in(text, word) {
        Some(place) => made_text(alloc, character_in(text, place)),
        None => no_index(alloc, word),
    }
}

pub(crate) fn range_answer(
    alloc: Global,
    usage: &[u8],
    words: &[Text],
) -> Result<ListAnswer, NoMemory>
    ensures { IfOk result (λ answer. answer ≡ answers.range_answer (wrong_number usage.now) words.now) }
{
    match words {
        [text, first, last] => { part_answer(alloc, text, first.as_bytes(), last.as_bytes()) }
        _ => wrong_number(alloc, usage),
    }
}

fn part_answer(
    alloc: Global,
    text: &Text,
    first: &[u8],
    last: &[u8],
) -> Result<ListAnswer, NoMemory>
    ensures { IfOk result (λ answer. answer ≡ answers.part_answer text.now first.now last.now) }
{
    let Some(from) = place_in(text, first) else {
        return no_index(alloc, first);
    };
    let Some(to) = place_in(text, last) else {
        return no_index(alloc, last);
    };
    made_text(alloc, range_in(text, from, to))
}

pub(crate) fn reverse_answer(
    alloc: Global,
    usage: &[u8],
    words: &[Text],
) -> Result<ListAnswer, NoMemory>
    ensures { IfOk result (λ answer. answer ≡ answers.reverse_answer (wrong_number usage.now) words.now) }
{
    match words {
        [text] => Ok(ListAnswer::Made(reversed(alloc, text.as_bytes())?)),
        _ => wrong_number(alloc, usage),
    }
}

pub(crate) fn lower_answer(
    alloc: Global,
    usage: &[u8],
    words: &[Text],
) -> Result<ListAnswer, NoMemory>
    ensures { IfOk result (λ answer. answer ≡ answers.lower_answer (wrong_number usage.now) words.now) }
{
    match words {
        [text] => Ok(ListAnswer::Made(lower(alloc, text.as_bytes())?)),
        _ => wrong_number(alloc, usage),
    }
}

pub(crate) fn upper_answer(
    alloc: Global,
    usage: &[u8],
    words: &[Text],
) -> Result<ListAnswer, NoMemory>
    ensures { IfOk result (λ answer. answer ≡ answers.upper_answer (wrong_number usage.now) words.now) }
{
    match words {
        [text] => Ok(ListAnswer::Made(upper(alloc, text.as_bytes())?)),
        _ => wrong_number(alloc, usage),
    }
}

pub(crate) fn trim_answer(
    alloc: Global,
    side: Side,
    usage: &[u8],
    words: &[Text],
) -> Result<ListAnswer, NoMemory>
    ensures { IfOk result (λ answer. answer ≡ answers.trim_answer side (wrong_number usage.now) words.now) }
{
    match words {
        [text] => made_text(alloc, trim(text.as_bytes(), WHITE_SPACE, side)),
        [text, trimmed] => made_text(alloc, trim(text.as_bytes(), trimmed.as_bytes(), side)),
        _ => wrong_number(alloc, usage),
    }
}
