//! Lists in elements.
ghost use Rattle.std.specs.Prelude.{◌≡◌, IfOk, Some};
ghost use Rattle.tt_lists.specs.Commands.{count_answer, insert_answer, item_answer, range_answer};
ghost use Rattle.tt_tsv.specs.Elements as table;
ghost use Rattle.tt_tsv.specs.declared.change.Change.TheVariants.{Kept};
ghost use Rattle.tt_tsv.specs.inside.Changed.{value_left};

use crate::change::{Change, not_asked, puts};
use crate::words::matching_of;
use std::alloc::Global;
use tt_lists::{ListAnswer, Matching, Search, count_text, find, insert, item, replace};
use tt_text::{NoMemory, Text};
use tt_value::Value;

pub(crate) fn count_of(alloc: Global, value: &mut Value) -> Result<Change, NoMemory>
    ensures change { IfOk result (λ change. change ≡ Kept (count_answer value.old)) }
    ensures value { IfOk result (λ change. value.new ≡ value_left change value.old) }
{
    let answer = counted(alloc, value)?;
    Ok(Change::Kept(answer))
}

#[tactic(auto, using(crate::proofs::ListAnswers::is_count, crate::proofs::ListAnswers::is_no_count))]
fn counted(alloc: Global, value: &mut Value) -> Result<ListAnswer, NoMemory>
    ensures answer { IfOk result (λ answer. answer ≡ count_answer value.old) }
    ensures same { value.new ≡ value.old }
{
    match value.len(alloc)? {
        Ok(count) => Ok(ListAnswer::Made(count_text(alloc, count)?)),
        Err(fault) => Ok(ListAnswer::Bad(fault.message(alloc)?)),
    }
}

pub(crate) fn item_of(alloc: Global, value: &mut Value, words: &[Text]) -> Result<Change, NoMemory>
    ensures change { IfOk result (λ change. change ≡ Kept (item_answer value.old words.now)) }
    ensures value { IfOk result (λ change. value.new ≡ value_left change value.old) }
{
    let answer = item_answer(alloc, value, words)?;
    Ok(Change::Kept(answer))
}

// One index is looked up among the items that the value keeps.
#[tactic(auto, using(crate::proofs::ListAnswers::one_item))]
fn item_answer(alloc: Global, value: &mut Value, words: &[Text]) -> Result<ListAnswer, NoMemory>
    ensures answer { IfOk result (λ answer. answer ≡ item_answer value.old words.now) }
    ensures same { value.new ≡ value.old }
{
    match words {
        [word] => value.item(alloc, word.as_bytes()),
        words => {
            let text = value.text(alloc)?;
            item(alloc, text.as_bytes(), words)
        }
    }
}

pub(crate) fn range_of(alloc: Global, value: &mut Value, words: &[Text]) -> Result<Change, NoMemory>
    ensures change { IfOk result (λ change. change ≡ table.ranges value.old words.now) }
    ensures value { IfOk result (λ change. value.new ≡ value_left change value.old) }
{
    match words {
        [first, last] => {
            let items = range_answer(alloc, value, first.as_bytes(), last.as_bytes())?;
            Ok(Change::Kept(items))
        }
        _ => not_asked(alloc),
    }
}

#[tactic(auto, using(crate::proofs::ListAnswers::is_made, crate::proofs::ListAnswers::is_refused))]
fn range_answer(
    alloc: Global,
    value: &mut Value,
    first: &[u8],
    last: &[u8],
) -> Result<ListAnswer, NoMemory>
    ensures answer { IfOk result (λ answer. answer ≡ range_answer value.old first.now last.now) }
    ensures same { value.new ≡ value.old }
{
    match value.range(alloc, first, last)? {
        Ok(items) => Ok(ListAnswer::Made(items.into_text(alloc)?)),
        Err(message) => Ok(ListAnswer::Bad(message)),
    }
}

// The place of the first item that matches.
fn place_of(
    alloc: Global,
    value: &mut Value,
    matching: Matching,
    pattern: &Text,
) -> Result<Change, NoMemory>
    ensures change { IfOk result (λ change. change ≡ table.searches_with value.old pattern.now (Some matching)) }
    ensures value { IfOk result (λ change. value.new ≡ value_left change value.old) }
{
    let how = Search {
        matching,
        all: false,
        inline: false,
        not: false,
    };
    let text = value.text(alloc)?;
    let place = find(alloc, how, text.as_bytes(), pattern.as_bytes())?;
    Ok(Change::Kept(place))
}

pub(crate) fn search(alloc: Global, value: &mut Value, words: &[Text]) -> Result<Change, NoMemory>
    ensures change { IfOk result (λ change. change ≡ table.searches value.old words.now) }
    ensures value { IfOk result (λ change. value.new ≡ value_left change value.old) }
{
    match words {
        [pattern] => place_of(alloc, value, Matching::Glob, pattern),
        _ => not_asked(alloc),
    }
}

pub(crate) fn search_by(
    alloc: Global,
    value: &mut Value,
    words: &[Text],
) -> Result<Change, NoMemory>
    ensures change { IfOk result (λ change. change ≡ table.searches_by value.old words.now) }
    ensures value { IfOk result (λ change. value.new ≡ value_left change value.old) }
{
    let [mode, pattern] = words else {
        return not_asked(alloc);
    };
    match matching_of(mode.as_bytes()) {
        Some(matching) => place_of(alloc, value, matching, pattern),
        None => not_asked(alloc),
    }
}

// Items before the one of an index.
fn insert_at(
    alloc: Global,
    value: &mut Value,
    index: &[u8],
    items: &[Text],
) -> Result<Change, NoMemory>
    ensures change { IfOk result (λ change. change ≡ table.puts (insert_answer value.old index.now items.now)) }
    ensures value { IfOk result (λ change. value.new ≡ value_left change value.old) }
{
    let text = value.text(alloc)?;
    let list = insert(alloc, text.as_bytes(), index, items)?;
    puts(value, list)
}

pub(crate) fn insert_into(
    alloc: Global,
    value: &mut Value,
    words: &[Text],
) -> Result<Change, NoMemory>
    ensures change { IfOk result (λ change. change ≡ table.inserts value.old words.now) }
    ensures value { IfOk result (λ change. value.new ≡ value_left change value.old) }
{
    match words {
        [index, items @ ..] => insert_at(alloc, value, index.as_bytes(), items),
        [] => not_asked(alloc),
    }
}

pub(crate) fn replace_in(
    alloc: Global,
    value: &mut Value,
    words: &[Text],
) -> Result<Change, NoMemory>
    ensures change { IfOk result (λ change. change ≡ table.replaces value.old words.now) }
    ensures value { IfOk result (λ change. value.new ≡ value_left change value.old) }
{
    match words {
        [first, last, items @ ..] => {
            let text = value.text(alloc)?;
            let list = replace(
                alloc,
                text.as_bytes(),
                first.as_bytes(),
                last.as_bytes(),
                items,
            )?;
            puts(value, list)
        }
        _ => not_asked(alloc),
    }
}

/// An item more, at the front or before the item of an index.
pub(crate) fn push(alloc: Global, value: &mut Value, words: &[Text]) -> Result<Change, NoMemory>
    ensures change { IfOk result (λ change. change ≡ table.pushes value.old words.now) }
    ensures value { IfOk result (λ change. value.new ≡ value_left change value.old) }
{
    match words {
        [_] => insert_at(alloc, value, b"0", words),
        [_, index] => insert_at(alloc, value, index.as_bytes(), &words[..1]),
        _ => not_asked(alloc),
    }
}
