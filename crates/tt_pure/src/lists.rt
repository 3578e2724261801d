//! What the commands on lists answer to words, by their usages.
ghost use Rattle.std.specs.Prelude.{◌≡◌, IfOk};
ghost use Rattle.tt_lists.specs.Commands.{count_answer, insert_answer, for_made, item_answer};
ghost use Rattle.tt_lists.specs.Commands.{range_answer, replace_answer};
ghost use Rattle.tt_list_commands.specs.Joining.{join_answer};
ghost use Rattle.tt_list_commands.specs.Reversing.{reverse_answer};
ghost use Rattle.tt_pure.specs.Lists as answers;
ghost use Rattle.tt_pure.specs.Texts.{join};
ghost use Rattle.tt_pure.specs.Usages.{wrong_number};

use crate::made::{listed, no_list, refuse};
use std::alloc::Global;
use tt_list_commands::{repeat, reversed};
use tt_lists::{ListAnswer, count_text, insert_among, item_among, range_among, replace_among};
use tt_text::{NoMemory, Text};
use tt_value::{Made, Value, texts_of};

pub(crate) fn list(alloc: Global, words: &[Value]) -> Result<Made, NoMemory>
    ensures { IfOk result (λ made. made ≡ answers.list words.now) }
{
    let items = texts_of(alloc, words)?;
    let value = Value::from_items(items.into_vec())?;
    Ok(Made::value(value))
}

pub(crate) fn llength(alloc: Global, usage: &[u8], words: &[Value]) -> Result<Made, NoMemory>
    ensures { IfOk result (λ made. made ≡ answers.llength (wrong_number usage.now) words.now) }
{
    match words {
        [list] => count(alloc, list),
        _ => refuse(alloc, usage),
    }
}

fn count(alloc: Global, list: &Value) -> Result<Made, NoMemory>
    ensures { IfOk result (λ made. made ≡ count_answer list.now) }
{
    match list.to_items(alloc)? {
        Ok(items) => {
            let text = count_text(alloc, items.as_slice().len())?;
            Ok(Made::value(Value::from_text(text)))
        }
        Err(fault) => no_list(alloc, &fault),
    }
}

pub(crate) fn lreverse(alloc: Global, usage: &[u8], words: &[Value]) -> Result<Made, NoMemory>
    ensures { IfOk result (λ made. made ≡ answers.lreverse (wrong_number usage.now) words.now) }
{
    match words {
        [list] => reverse(alloc, list),
        _ => refuse(alloc, usage),
    }
}

fn reverse(alloc: Global, list: &Value) -> Result<Made, NoMemory>
    ensures { IfOk result (λ made. made ≡ reverse_answer list.now) }
{
    match list.to_items(alloc)? {
        Ok(items) => {
            let items = reversed(alloc, items.as_slice())?;
            listed(Ok(items))
        }
        Err(fault) => no_list(alloc, &fault),
    }
}

pub(crate) fn lindex(alloc: Global, usage: &[u8], words: &[Value]) -> Result<Made, NoMemory>
    ensures { IfOk result (λ made. made ≡ answers.lindex (wrong_number usage.now) words.now) }
{
    match words {
        [list, indices @ ..] => item(alloc, list, indices),
        [] => refuse(alloc, usage),
    }
}

fn item(alloc: Global, list: &Value, indices: &[Value]) -> Result<Made, NoMemory>
    ensures { IfOk result (λ made. made ≡ item_answer list.now indices.now) }
{
    let [index, later @ ..] = indices else {
        return Ok(Made::value(list.copy()?));
    };
    match list.to_items(alloc)? {
        Ok(items) => {
            let index = index.to_text(alloc)?;
            let first = item_among(alloc, items.as_slice(), index.as_bytes())?;
            item_in(alloc, first, later)
        }
        Err(fault) => no_list(alloc, &fault),
    }
}

// The item that later indices name in one that was found.
fn item_in(alloc: Global, found: ListAnswer, indices: &[Value]) -> Result<Made, NoMemory>
    ensures { IfOk result (λ made.
        made ≡ for_made (λ item. item_answer item indices.now) found) }
{
    match (found, indices) {
        (ListAnswer::Made(item), []) => Ok(Made::value(Value::from_text(item))),
        (ListAnswer::Made(item), indices) => {
            let indices = texts_of(alloc, indices)?;
            let answer = tt_lists::item(alloc, item.as_bytes(), indices.as_slice())?;
            Ok(Made::from_answer(answer))
        }
        (ListAnswer::Bad(message), _) => Ok(Made::bad(message)),
    }
}

pub(crate) fn lrange(alloc: Global, usage: &[u8], words: &[Value]) -> Result<Made, NoMemory>
    ensures { IfOk result (λ made. made ≡ answers.lrange (wrong_number usage.now) words.now) }
{
    match words {
        [list, first, last] => {
            let first = first.to_text(alloc)?;
            let last = last.to_text(alloc)?;
            range(alloc, list, first.as_bytes(), last.as_bytes())
        }
        _ => refuse(alloc, usage),
    }
}

fn range(alloc: Global, list: &Value, first: &[u8], last: &[u8]) -> Result<Made, NoMemory>
    ensures { IfOk result (λ made. made ≡ range_answer list.now first.now last.now) }
{
    let items = match list.to_items(alloc)? {
        Ok(items) => items,
        Err(fault) => return no_list(alloc, &fault),
    };
    match range_among(alloc, items.as_slice(), first, last)? {
        Ok(part) => Ok(Made::value(Value::from_copies(alloc, part)?)),
        Err(message) => Ok(Made::bad(message)),
    }
}

pub(crate) fn linsert(alloc: Global, usage: &[u8], words: &[Value]) -> Result<Made, NoMemory>
    ensures { IfOk result (λ made. made ≡ answers.linsert (wrong_number usage.now) words.now) }
{
    match words {
        [list, index, others @ ..] => {
            let index = index.to_text(alloc)?;
            let others = texts_of(alloc, others)?;
            insert(alloc, list, index.as_bytes(), others.as_slice())
        }
        _ => refuse(alloc, usage),
    }
}

fn insert(alloc: Global, list: &Value, index: &[u8], others: &[Text]) -> Result<Made, NoMemory>
    ensures { IfOk result (λ made. made ≡ insert_answer list.now index.now others.now) }
{
    match list.to_items(alloc)? {
        Ok(items) => listed(insert_among(alloc, items.as_slice(), index, others)?),
        Err(fault) => no_list(alloc, &fault),
    }
}

pub(crate) fn lreplace(alloc: Global, usage: &[u8], words: &[Value]) -> Result<Made, NoMemory>
    ensures { IfOk result (λ made. made ≡ answers.lreplace (wrong_number usage.now) words.now) }
{
    match words {
        [list, first, last, others @ ..] => {
            let first = first.to_text(alloc)?;
            let last = last.to_text(alloc)?;
            let others = texts_of(alloc, others)?;
            replace(
                alloc,
                list,
                first.as_bytes(),
                last.as_bytes(),
                others.as_slice(),
            )
        }
        _ => refuse(alloc, usage),
    }
}

fn replace(
    alloc: Global,
    list: &Value,
    first: &[u8],
    last: &[u8],
    others: &[Text],
) -> Result<Made, NoMemory>
    ensures { IfOk result (λ made. made ≡ replace_answer list.now first.now last.now others.now) }
{
    match list.to_items(alloc)? {
        Ok(items) => {
            let replaced = replace_among(alloc, items.as_slice(), first, last, others)?;
            listed(replaced)
        }
        Err(fault) => no_list(alloc, &fault),
    }
}

pub(crate) fn lrepeat(alloc: Global, usage: &[u8], words: &[Value]) -> Result<Made, NoMemory>
    ensures { IfOk result (λ made. made ≡ answers.lrepeat (wrong_number usage.now) words.now) }
{
    match words {
        [count, values @ ..] => {
            let count = count.to_text(alloc)?;
            let values = texts_of(alloc, values)?;
            listed(repeat(alloc, count.as_bytes(), values.as_slice())?)
        }
        [] => refuse(alloc, usage),
    }
}

pub(crate) fn join(alloc: Global, usage: &[u8], words: &[Value]) -> Result<Made, NoMemory>
    ensures { IfOk result (λ made. made ≡ join (wrong_number usage.now) words.now) }
{
    match words {
        [list] => join_by(alloc, list, b" "),
        [list, separator] => {
            let separator = separator.to_text(alloc)?;
            join_by(alloc, list, separator.as_bytes())
        }
        _ => refuse(alloc, usage),
    }
}

fn join_by(alloc: Global, list: &Value, separator: &[u8]) -> Result<Made, NoMemory>
    ensures { IfOk result (λ made. made ≡ join_answer list.now separator.now) }
{
    match list.to_items(alloc)? {
        Ok(items) => {
            let text = tt_list_commands::join(alloc, separator, items.as_slice())?;
            Ok(Made::value(Value::from_text(text)))
        }
        Err(fault) => no_list(alloc, &fault),
    }
}
