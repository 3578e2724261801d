//! Subcommands that change no variable.
ghost use Rattle.std.specs.Prelude.{◌≡◌, [], IfOk, decimal, is_ok, length, map};
ghost use Rattle.std.specs.Map.{keys_of, values_of};
ghost use Rattle.std.specs.Option.{option_copied};
ghost use Rattle.tt_calls.specs.Outcomes.{error_outcome};
ghost use Rattle.tt_calls.specs.Usages.{wrong_number};
ghost use Rattle.tt_dict.specs.Paths as paths;
ghost use Rattle.tt_dict.specs.Rows.{reads};
ghost use Rattle.tt_dict.specs.Telling as telling;
ghost use Rattle.tt_pairs.specs.Pairs.{joined_pairs, text_of};
ghost use Rattle.tt_pairs.specs.Reading.{reading_of};

use crate::answers::{answered, like, truth, whole, whole_of};
use crate::paths::value_on;
use std::alloc::Global;
use tt_calls::Outcome;
use tt_lists::count_text;
use tt_pairs::{Dictionary, paired};
use tt_text::{NoMemory, Text};
use tt_value::{Value, texts_of};

/// `dict create`.
pub(crate) fn create(alloc: Global, usage: &[u8], words: &[Value]) -> Result<Outcome, NoMemory>
    ensures { IfOk result (λ outcome. outcome ≡ telling.create (error_outcome (wrong_number usage.now)) words.now) }
{
    let words = texts_of(alloc, words)?;
    match paired(alloc, words.as_slice())? {
        Some(pairs) => whole(alloc, pairs),
        None => Outcome::wrong_number(alloc, usage),
    }
}

/// `dict get`.
pub(crate) fn get(alloc: Global, usage: &[u8], words: &[Value]) -> Result<Outcome, NoMemory>
    ensures { IfOk result (λ outcome. outcome ≡ reads telling.get (error_outcome (wrong_number usage.now)) words.now) }
{
    match words {
        [dictionary] => canonical(alloc, dictionary),
        [dictionary, key, keys @ ..] => {
            let key = key.to_text(alloc)?;
            let keys = texts_of(alloc, keys)?;
            get_at(alloc, dictionary, &key, keys.as_slice())
        }
        [] => Outcome::wrong_number(alloc, usage),
    }
}

fn canonical(alloc: Global, dictionary: &Value) -> Result<Outcome, NoMemory>
    ensures { IfOk result (λ outcome. outcome ≡ telling.text_answer text_of (reading_of dictionary.now)) }
{
    match dictionary.to_pairs(alloc)? {
        Ok(pairs) => whole(alloc, pairs.dictionary().copy()?),
        Err(message) => Outcome::failed(message),
    }
}

fn get_at(alloc: Global, dictionary: &Value, key: &Text, keys: &[Text]) -> Result<Outcome, NoMemory>
    ensures { IfOk result (λ outcome.
        outcome ≡ telling.text_outcome
        (paths.for_pairs (λ pairs. paths.value_at pairs key.now keys.now) (reading_of dictionary.now))) }
{
    match dictionary.to_pairs(alloc)? {
        Ok(pairs) => answered(alloc, value_on(alloc, pairs.dictionary(), key, keys)?),
        Err(message) => Outcome::failed(message),
    }
}

/// `dict exists`.
pub(crate) fn exists(alloc: Global, usage: &[u8], words: &[Value]) -> Result<Outcome, NoMemory>
    ensures { IfOk result (λ outcome.
        outcome ≡ reads telling.exists (error_outcome (wrong_number usage.now)) words.now) }
{
    match words {
        [dictionary, key, keys @ ..] => {
            let key = key.to_text(alloc)?;
            let keys = texts_of(alloc, keys)?;
            exists_at(alloc, dictionary, &key, keys.as_slice())
        }
        _ => Outcome::wrong_number(alloc, usage),
    }
}

fn exists_at(
    alloc: Global,
    dictionary: &Value,
    key: &Text,
    keys: &[Text],
) -> Result<Outcome, NoMemory>
    ensures { IfOk result (λ outcome.
        outcome ≡ telling.text_answer (λ pairs. telling.truth (is_ok (paths.value_at pairs key.now keys.now)))
        (reading_of dictionary.now)) }
{
    match dictionary.to_pairs(alloc)? {
        Ok(pairs) => truth(
            alloc,
            value_on(alloc, pairs.dictionary(), key, keys)?.is_ok(),
        ),
        Err(message) => Outcome::failed(message),
    }
}

/// `dict size`.
pub(crate) fn size(alloc: Global, usage: &[u8], words: &[Value]) -> Result<Outcome, NoMemory>
    ensures { IfOk result (λ outcome. outcome ≡ reads telling.size (error_outcome (wrong_number usage.now)) words.now) }
{
    match words {
        [dictionary] => size_of(alloc, dictionary),
        _ => Outcome::wrong_number(alloc, usage),
    }
}

fn size_of(alloc: Global, dictionary: &Value) -> Result<Outcome, NoMemory>
    ensures { IfOk result (λ outcome.
        outcome ≡ telling.text_answer (λ pairs. decimal (length pairs)) (reading_of dictionary.now)) }
{
    match dictionary.to_pairs(alloc)? {
        Ok(pairs) => {
            let count = count_text(alloc, pairs.dictionary().len())?;
            Ok(Outcome::fine(alloc, count))
        }
        Err(message) => Outcome::failed(message),
    }
}

/// `dict keys`.
pub(crate) fn keys(alloc: Global, usage: &[u8], words: &[Value]) -> Result<Outcome, NoMemory>
    ensures { IfOk result (λ outcome. outcome ≡ reads telling.keys (error_outcome (wrong_number usage.now)) words.now) }
{
    match words {
        [dictionary] => keys_like(alloc, dictionary, None),
        [dictionary, pattern] => {
            let pattern = pattern.to_text(alloc)?;
            keys_like(alloc, dictionary, Some(&pattern))
        }
        _ => Outcome::wrong_number(alloc, usage),
    }
}

fn keys_like(alloc: Global, dictionary: &Value, pattern: Option<&Text>) -> Result<Outcome, NoMemory>
    ensures { IfOk result (λ outcome.
        outcome ≡ telling.text_answer (λ pairs. telling.like (option_copied pattern.entry) (keys_of pairs))
        (reading_of dictionary.now)) }
{
    match dictionary.to_pairs(alloc)? {
        Ok(pairs) => like(alloc, pattern, pairs.dictionary().keys()?.as_slice()),
        Err(message) => Outcome::failed(message),
    }
}

/// `dict values`.
pub(crate) fn values(alloc: Global, usage: &[u8], words: &[Value]) -> Result<Outcome, NoMemory>
    ensures { IfOk result (λ outcome.
        outcome ≡ reads telling.values (error_outcome (wrong_number usage.now)) words.now) }
{
    match words {
        [dictionary] => values_like(alloc, dictionary, None),
        [dictionary, pattern] => {
            let pattern = pattern.to_text(alloc)?;
            values_like(alloc, dictionary, Some(&pattern))
        }
        _ => Outcome::wrong_number(alloc, usage),
    }
}

fn values_like(
    alloc: Global,
    dictionary: &Value,
    pattern: Option<&Text>,
) -> Result<Outcome, NoMemory>
    ensures { IfOk result (λ outcome.
        outcome ≡ telling.text_answer (λ pairs. telling.like (option_copied pattern.entry) (values_of pairs))
        (reading_of dictionary.now)) }
{
    match dictionary.to_pairs(alloc)? {
        Ok(pairs) => like(alloc, pattern, pairs.dictionary().values()?.as_slice()),
        Err(message) => Outcome::failed(message),
    }
}

/// `dict remove`.
pub(crate) fn remove(alloc: Global, usage: &[u8], words: &[Value]) -> Result<Outcome, NoMemory>
    ensures { IfOk result (λ outcome.
        outcome ≡ reads telling.remove (error_outcome (wrong_number usage.now)) words.now) }
{
    match words {
        [dictionary, keys @ ..] => {
            let keys = texts_of(alloc, keys)?;
            remove_from(alloc, dictionary, keys.as_slice())
        }
        [] => Outcome::wrong_number(alloc, usage),
    }
}

fn remove_from(alloc: Global, dictionary: &Value, keys: &[Text]) -> Result<Outcome, NoMemory>
    ensures { IfOk result (λ outcome.
        outcome ≡ telling.text_answer (λ pairs.
        text_of (telling.without_keys pairs keys.now)) (reading_of dictionary.now)) }
{
    match dictionary.to_pairs(alloc)? {
        Ok(pairs) => {
            let mut pairs = pairs.dictionary().copy()?;
            remove_keys(&mut pairs, keys);
            whole(alloc, pairs)
        }
        Err(message) => Outcome::failed(message),
    }
}

fn remove_keys(pairs: &mut Dictionary, keys: &[Text])
    ensures { pairs.new ≡ telling.without_keys pairs.old keys.now }
{
    for key in keys {
        pairs.remove(key);
    }
}

/// `dict replace`.
pub(crate) fn replace(alloc: Global, usage: &[u8], words: &[Value]) -> Result<Outcome, NoMemory>
    ensures { IfOk result (λ outcome.
        outcome ≡ reads telling.replace (error_outcome (wrong_number usage.now)) words.now) }
{
    match words {
        [dictionary, words @ ..] => replace_in(alloc, usage, dictionary, words),
        [] => Outcome::wrong_number(alloc, usage),
    }
}

fn replace_in(
    alloc: Global,
    usage: &[u8],
    dictionary: &Value,
    words: &[Value],
) -> Result<Outcome, NoMemory>
    ensures { IfOk result (λ outcome.
        outcome ≡ telling.replace (error_outcome (wrong_number usage.now)) (reading_of dictionary.now) words.now) }
{
    let words = texts_of(alloc, words)?;
    match paired(alloc, words.as_slice())? {
        Some(more) => join_to(alloc, dictionary, &more),
        None => Outcome::wrong_number(alloc, usage),
    }
}

fn join_to(alloc: Global, dictionary: &Value, more: &Dictionary) -> Result<Outcome, NoMemory>
    ensures { IfOk result (λ outcome.
        outcome ≡ telling.text_answer (λ pairs. text_of (joined_pairs pairs more.now)) (reading_of dictionary.now)) }
{
    match dictionary.to_pairs(alloc)? {
        Ok(pairs) => {
            let mut pairs = pairs.dictionary().copy()?;
            pairs.join(more)?;
            whole(alloc, pairs)
        }
        Err(message) => Outcome::failed(message),
    }
}

/// `dict merge`.
pub(crate) fn merge(alloc: Global, words: &[Value]) -> Result<Outcome, NoMemory>
    ensures { IfOk result (λ outcome.
        outcome ≡ telling.text_answer text_of (telling.merge_of [] (map reading_of words.now))) }
{
    let all = merged(alloc, words)?;
    whole_of(alloc, all)
}

#[tactic(auto, using(crate::proofs::Merging::merge_more, crate::proofs::Merging::merge_stops, crate::proofs::Merging::merge_last))]
fn merged(alloc: Global, words: &[Value]) -> Result<Result<Dictionary, Text>, NoMemory>
    ensures { IfOk result (λ all. all ≡ telling.merge_of [] (map reading_of words.now)) }
{
    let mut all = Dictionary::new(alloc);
    let mut rest = words;
    while let Some((word, later)) = rest.split_first() {
        match word.to_pairs(alloc)? {
            Ok(more) => all.join(more.dictionary())?,
            Err(message) => return Ok(Err(message)),
        }
        rest = later;
    }
    Ok(Ok(all))
}
