//! Answers, and lists of texts.
ghost use Rattle.std.specs.Prelude.{◌≡◌, IfOk, filter};
ghost use Rattle.std.specs.Option.{option_copied};
ghost use Rattle.tt_calls.specs.Outcomes.{fine};
ghost use Rattle.tt_dict.specs.Telling as telling;
ghost use Rattle.tt_lists.specs.Spelling.{list_of};
ghost use Rattle.tt_pairs.specs.Pairs.{text_of};
ghost use Rattle.tt_text.specs.Characters.{characters};
ghost use Rattle.tt_text.specs.GlobFunction.{is_match};

use std::alloc::Global;
use tt_calls::Outcome;
use tt_pairs::Dictionary;
use tt_text::{NoMemory, Text, Texts, glob};
use tt_value::Value;

/// A dictionary in its canonical text.
pub(crate) fn whole(alloc: Global, pairs: Dictionary) -> Result<Outcome, NoMemory>
    ensures { IfOk result (λ outcome. outcome ≡ fine (text_of pairs)) }
{
    let value = Value::from_pairs(alloc, pairs)?;
    Ok(Outcome::with_result(alloc, value))
}

/// The same of what was read.
pub(crate) fn whole_of(
    alloc: Global,
    reading: Result<Dictionary, Text>,
) -> Result<Outcome, NoMemory>
    ensures { IfOk result (λ outcome. outcome ≡ telling.text_answer text_of reading) }
{
    match reading {
        Ok(pairs) => whole(alloc, pairs),
        Err(message) => Outcome::failed(message),
    }
}

/// What was found, or the error.
pub(crate) fn answered(alloc: Global, found: Result<Text, Text>) -> Result<Outcome, NoMemory>
    ensures { IfOk result (λ outcome. outcome ≡ telling.text_outcome found) }
{
    match found {
        Ok(text) => Ok(Outcome::fine(alloc, text)),
        Err(message) => Outcome::failed(message),
    }
}

/// `1` for what is so, else `0`.
pub(crate) fn truth(alloc: Global, is: bool) -> Result<Outcome, NoMemory>
    ensures { IfOk result (λ outcome. outcome ≡ fine (telling.truth is)) }
{
    let digit: &[u8] = if is { b"1" } else { b"0" };
    let text = Text::from_bytes(alloc, digit)?;
    Ok(Outcome::fine(alloc, text))
}

/// The list of the texts that match the pattern, if there is one.
pub(crate) fn like(
    alloc: Global,
    pattern: Option<&Text>,
    texts: &[Text],
) -> Result<Outcome, NoMemory>
    ensures { IfOk result (λ outcome. outcome ≡ fine (telling.like (option_copied pattern.entry) texts.now)) }
{
    match pattern {
        Some(pattern) => list(alloc, matching(alloc, pattern, texts)?.as_slice()),
        None => list(alloc, texts),
    }
}

fn list(alloc: Global, texts: &[Text]) -> Result<Outcome, NoMemory>
    ensures { IfOk result (λ outcome. outcome ≡ fine (list_of texts.now)) }
{
    let value = Value::from_copies(alloc, texts)?;
    Ok(Outcome::with_result(alloc, value))
}

fn matching(alloc: Global, pattern: &Text, texts: &[Text]) -> Result<Texts, NoMemory>
    ensures { IfOk result (λ like.
        like ≡ filter (λ text. is_match (characters pattern.now) (characters text)) texts.now) }
{
    let mut like = Texts::new(alloc);
    for text in texts {
        if glob(pattern.as_bytes(), text.as_bytes()) {
            like.push(text.copy()?)?;
        }
    }
    Ok(like)
}
