//! Subcommands that compare texts.
ghost use Rattle.std.specs.Prelude.{◌≡◌, ◌↔◌, IfOk, IsTrue, Option};
ghost use Rattle.tt_pure.specs.Strings as answers;
ghost use Rattle.tt_pure.specs.Usages.{wrong_number};

use crate::usages::wrong_number;
use std::alloc::Global;
use tt_lists::{ListAnswer, count_text};
use tt_number::whole_text;
use tt_strings::{compare, first_place, last_place};
use tt_text::{NoMemory, Text, glob};

fn truth(alloc: Global, so: bool) -> Result<ListAnswer, NoMemory>
    ensures { IfOk result (λ answer. answer ≡ ListAnswer.Made (answers.truth so)) }
{
    let text = Text::from_bytes(alloc, if so { b"1" } else { b"0" })?;
    Ok(ListAnswer::Made(text))
}

fn place_answer(alloc: Global, place: Option<usize>) -> Result<ListAnswer, NoMemory>
    ensures { IfOk result (λ answer. answer ≡ ListAnswer.Made (answers.place_text place)) }
{
    let text = match place {
        Some(place) => count_text(alloc, place)?,
        None => Text::from_bytes(alloc, b"-1")?,
    };
    Ok(ListAnswer::Made(text))
}

pub(crate) fn compare_answer(
    alloc: Global,
    usage: &[u8],
    words: &[Text],
) -> Result<ListAnswer, NoMemory>
    ensures { IfOk result (λ answer. answer ≡ answers.compare_answer (wrong_number usage.now) words.now) }
{
    match words {
        [text, other] => {
            let number = compare(text.as_bytes(), other.as_bytes());
            Ok(ListAnswer::Made(whole_text(alloc, number)?))
        }
        _ => wrong_number(alloc, usage),
    }
}

pub(crate) fn equal_answer(
    alloc: Global,
    usage: &[u8],
    words: &[Text],
) -> Result<ListAnswer, NoMemory>
    ensures { IfOk result (λ answer. answer ≡ answers.equal_answer (wrong_number usage.now) words.now) }
{
    match words {
        [text, other] => truth(alloc, text.as_bytes() == other.as_bytes()),
        _ => wrong_number(alloc, usage),
    }
}

pub(crate) fn match_answer(
    alloc: Global,
    usage: &[u8],
    words: &[Text],
) -> Result<ListAnswer, NoMemory>
    ensures { IfOk result (answers.IsMatchAnswer (wrong_number usage.now) words.now) }
{
    match words {
        [pattern, text] => truth(alloc, glob(pattern.as_bytes(), text.as_bytes())),
        _ => wrong_number(alloc, usage),
    }
}

pub(crate) fn first_answer(
    alloc: Global,
    usage: &[u8],
    words: &[Text],
) -> Result<ListAnswer, NoMemory>
    ensures { IfOk result (answers.IsFirstAnswer (wrong_number usage.now) words.now) }
{
    match words {
        [needle, text] => { place_answer(alloc, first_place(needle.as_bytes(), text.as_bytes())) }
        _ => wrong_number(alloc, usage),
    }
}

pub(crate) fn last_answer(
    alloc: Global,
    usage: &[u8],
    words: &[Text],
) -> Result<ListAnswer, NoMemory>
    ensures { IfOk result (answers.IsLastAnswer (wrong_number usage.now) words.now) }
{
    match words {
        [needle, text] => { place_answer(alloc, last_place(needle.as_bytes(), text.as_bytes())) }
        _ => wrong_number(alloc, usage),
    }
}
