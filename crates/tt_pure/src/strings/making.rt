//! Subcommands that make other texts.
ghost use Rattle.std.specs.Prelude.{◌≡◌, IfOk};
ghost use Rattle.tt_number.specs.Numerals.{whole_of};
ghost use Rattle.tt_lists.specs.Reading.{split_of};
ghost use Rattle.tt_pure.specs.Strings as answers;
ghost use Rattle.tt_pure.specs.Usages.{wrong_number};

use crate::usages::wrong_number;
use std::alloc::Global;
use tt_lists::{ListAnswer, Split, split};
use tt_number::read_whole;
use tt_strings::{Repetition, mapped, repeated};
use tt_text::{NoMemory, Text};

pub(crate) fn repeat_answer(
    alloc: Global,
    usage: &[u8],
    words: &[Text],
) -> Result<ListAnswer, NoMemory>
    ensures { IfOk result (answers.IsRepeatAnswer (wrong_number usage.now) words.now) }
{
    match words {
        [text, count] => repeated_by(alloc, text.as_bytes(), count.as_bytes()),
        _ => wrong_number(alloc, usage),
    }
}

fn repeated_by(alloc: Global, text: &[u8], count: &[u8]) -> Result<ListAnswer, NoMemory>
    ensures { IfOk result (answers.IsRepeatedBy (whole_of count.now) text.now count.now) }
{
    match read_whole(count) {
        Ok(number) => times(alloc, text, number),
        Err(fault) => Ok(ListAnswer::Bad(fault.message(alloc, count)?)),
    }
}

fn times(alloc: Global, text: &[u8], number: i64) -> Result<ListAnswer, NoMemory>
    ensures { IfOk result (answers.IsTimes text.now number) }
{
    let came = repeated(alloc, text, number)?;
    repetition_answer(alloc, came)
}

fn repetition_answer(alloc: Global, came: Repetition) -> Result<ListAnswer, NoMemory>
    ensures { IfOk result (λ answer. answer ≡ answers.repetition_answer came) }
{
    match came {
        Repetition::Made(text) => Ok(ListAnswer::Made(text)),
        Repetition::TooLong => Ok(ListAnswer::Bad(Text::from_bytes(alloc, b"result too long")?)),
    }
}

pub(crate) fn map_answer(
    alloc: Global,
    usage: &[u8],
    words: &[Text],
) -> Result<ListAnswer, NoMemory>
    ensures { IfOk result (answers.IsMapAnswer (wrong_number usage.now) words.now) }
{
    match words {
        [list, text] => mapped_by(alloc, split(alloc, list.as_bytes())?, text.as_bytes()),
        _ => wrong_number(alloc, usage),
    }
}

fn mapped_by(alloc: Global, split: Split, text: &[u8]) -> Result<ListAnswer, NoMemory>
    ensures { IfOk result (answers.IsMappedBy split text.now) }
{
    match split {
        Split::Items(pairs) => mapped_if(alloc, pairs.as_slice(), text),
        Split::Bad(fault) => Ok(ListAnswer::Bad(fault.message(alloc)?)),
    }
}

fn mapped_if(alloc: Global, pairs: &[Text], text: &[u8]) -> Result<ListAnswer, NoMemory>
    ensures { IfOk result (answers.IsMappedIf (answers.is_paired pairs.now) pairs.now text.now) }
{
    if !is_paired(pairs) {
        let message = Text::from_bytes(alloc, b"list must have an even number of elements")?;
        return Ok(ListAnswer::Bad(message));
    }
    let made = mapped(alloc, pairs, text)?;
    Ok(ListAnswer::Made(made))
}

fn is_paired(items: &[Text]) -> bool
    ensures { result ≡ answers.is_paired items.now }
{
    items.len() % 2 == 0
}
