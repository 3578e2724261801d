ghost use Rattle.std.specs.Prelude.{◌≡◌, IfOk, IfErr, decimal};
ghost use Rattle.std.specs.Option.{option_map};
ghost use Rattle.tt_lists.specs.Commands.{count_answer, insert_among, insert_answer, item_among, item_answer, item_of};
ghost use Rattle.tt_lists.specs.Commands.{list_or_message, range_among, range_answer, replace_among, replace_answer};
ghost use Rattle.tt_lists.specs.Indices.{index_of};
ghost use Rattle.tt_lists.specs.Messages.{bad_index_message, list_message};
ghost use Rattle.tt_lists.specs.Places.{place_in};
ghost use Rattle.tt_lists.specs.Spelling.{list_of};

use crate::answer::ListAnswer;
use crate::indices::index;
use crate::items::{ListFault, Split};
use crate::messages::bad_index;
use crate::parts;
use crate::spelling::join_list;
use crate::splitting::split;
use itoa::Buffer;
use std::alloc::Global;
use tt_text::{NoMemory, Text, Texts};

/// How many items the list has, in decimal (llength(n)).
///
/// `Bad` if the text is no list. `NoMemory` if memory is refused.
pub fn count(alloc: Global, list: &[u8]) -> Result<ListAnswer, NoMemory>
    ensures answer { IfOk result (λ answer. answer ≡ count_answer list.now) }
{
    match split(alloc, list)? {
        Split::Items(items) => {
            let count = count_text(alloc, items.as_slice().len())?;
            Ok(ListAnswer::Made(count))
        }
        Split::Bad(fault) => no_list(alloc, &fault),
    }
}

/// The item that the indices name, each in the item that those before it named (lindex(n)). Outside a list it is
/// empty. Without indices it is the text as it is.
///
/// `Bad` for the first from the left of a text that is no list and a word that is no index; a list is read before its
/// index. `NoMemory` if memory is refused.
pub fn item(alloc: Global, list: &[u8], words: &[Text]) -> Result<ListAnswer, NoMemory>
    ensures answer { IfOk result (λ answer. answer ≡ item_answer list.now words.now) }
{
    let mut item = Text::from_bytes(alloc, list)?;
    for word in words {
        match item_of(alloc, item.as_bytes(), word.as_bytes())? {
            ListAnswer::Made(inner) => item = inner,
            ListAnswer::Bad(message) => return Ok(ListAnswer::Bad(message)),
        }
    }
    Ok(ListAnswer::Made(item))
}

fn item_of(alloc: Global, list: &[u8], word: &[u8]) -> Result<ListAnswer, NoMemory>
    ensures { IfOk result (λ answer. answer ≡ item_of list.now word.now) }
{
    match split(alloc, list)? {
        Split::Items(items) => item_among(alloc, items.as_slice(), word),
        Split::Bad(fault) => no_list(alloc, &fault),
    }
}

/// Of these items the one that the index names (lindex(n)), in constant time. Outside the list it is empty.
///
/// `Bad` if the word is no index. `NoMemory` if memory is refused.
pub fn item_among(alloc: Global, items: &[Text], word: &[u8]) -> Result<ListAnswer, NoMemory>
    ensures answer { IfOk result (λ answer. answer ≡ item_among items.now word.now) }
{
    let Some(place) = place_in(word, items.len()) else {
        return no_index(alloc, word);
    };
    let item = parts::item_in(alloc, items, place)?;
    Ok(ListAnswer::Made(item))
}

pub(crate) fn no_list(alloc: Global, fault: &ListFault) -> Result<ListAnswer, NoMemory>
    ensures { IfOk result (λ answer. answer ≡ ListAnswer.Bad (list_message fault.now)) }
{
    let message = fault.message(alloc)?;
    Ok(ListAnswer::Bad(message))
}

/// A count or a place, in decimal.
///
/// `NoMemory` if the memory for it is refused.
pub fn count_text(alloc: Global, count: usize) -> Result<Text, NoMemory>
    ensures written { IfOk result (λ text. text ≡ decimal count) }
{
    let mut buffer = Buffer::new();
    Text::from_bytes(alloc, buffer.format(count).as_bytes())
}

fn no_index(alloc: Global, word: &[u8]) -> Result<ListAnswer, NoMemory>
    ensures { IfOk result (λ answer. answer ≡ ListAnswer.Bad (bad_index_message word.now)) }
{
    let message = bad_index(alloc, word)?;
    Ok(ListAnswer::Bad(message))
}

fn made_list(alloc: Global, items: &[Text]) -> Result<ListAnswer, NoMemory>
    ensures { IfOk result (λ answer. answer ≡ ListAnswer.Made (list_of items.now)) }
{
    let text = join_list(alloc, items)?;
    Ok(ListAnswer::Made(text))
}

fn place_in(word: &[u8], count: usize) -> Option<i128>
    ensures { result ≡ option_map (λ index. place_in index count) (index_of word.now) }
{
    index(word).map(|index| index.place(count))
}

/// The list of the items from the first index up to the last one (lrange(n)).
///
/// `Bad` if the text is no list or a word is no index, tested in this order. `NoMemory` if memory is refused.
pub fn range(alloc: Global, list: &[u8], first: &[u8], last: &[u8]) -> Result<ListAnswer, NoMemory>
    ensures answer { IfOk result (λ answer. answer ≡ range_answer list.now first.now last.now) }
{
    match split(alloc, list)? {
        Split::Items(items) => range_of(alloc, items.as_slice(), first, last),
        Split::Bad(fault) => no_list(alloc, &fault),
    }
}

fn range_of(
    alloc: Global,
    items: &[Text],
    first: &[u8],
    last: &[u8],
) -> Result<ListAnswer, NoMemory>
    ensures { IfOk result (λ answer. answer ≡ range_among items.now first.now last.now) }
{
    match range_among(alloc, items, first, last)? {
        Ok(part) => made_list(alloc, part),
        Err(message) => Ok(ListAnswer::Bad(message)),
    }
}

/// Of these items those from the first index up to the last one (lrange(n)), or the message if a word is no index.
///
/// `NoMemory` if the memory for the message is refused.
pub fn range_among<'a>(
    alloc: Global,
    items: &'a [Text],
    first: &[u8],
    last: &[u8],
) -> Result<Result<&'a [Text], Text>, NoMemory>
    ensures part { IfOk result (λ found. IfOk found (λ part.
        range_among items.now first.now last.now ≡ ListAnswer.Made (list_of part.now))) }
    ensures bad { IfOk result (λ found. IfErr found (λ message.
        range_among items.now first.now last.now ≡ ListAnswer.Bad message)) }
{
    let Some(from) = place_in(first, items.len()) else {
        return Ok(Err(bad_index(alloc, first)?));
    };
    let Some(to) = place_in(last, items.len()) else {
        return Ok(Err(bad_index(alloc, last)?));
    };
    Ok(Ok(parts::range(items, from, to)))
}

/// The list with others put before the item at the index, if `end` is the place after the last item (linsert(n)).
///
/// `Bad` if the text is no list or the word no index, tested in this order. `NoMemory` if memory is refused.
pub fn insert(
    alloc: Global,
    list: &[u8],
    word: &[u8],
    others: &[Text],
) -> Result<ListAnswer, NoMemory>
    ensures answer { IfOk result (λ answer. answer ≡ insert_answer list.now word.now others.now) }
{
    match split(alloc, list)? {
        Split::Items(items) => insert_of(alloc, items.as_slice(), word, others),
        Split::Bad(fault) => no_list(alloc, &fault),
    }
}

fn insert_of(
    alloc: Global,
    items: &[Text],
    word: &[u8],
    others: &[Text],
) -> Result<ListAnswer, NoMemory>
    ensures { IfOk result (λ answer. answer ≡ insert_among items.now word.now others.now) }
{
    let made = insert_among(alloc, items, word, others)?;
    listed(alloc, made)
}

fn listed(alloc: Global, made: Result<Texts, Text>) -> Result<ListAnswer, NoMemory>
    ensures { IfOk result (λ answer. answer ≡ list_or_message made) }
{
    match made {
        Ok(items) => made_list(alloc, items.as_slice()),
        Err(message) => Ok(ListAnswer::Bad(message)),
    }
}

/// These items with others put before the one at the index, if `end` is the place after the last item (linsert(n)); or
/// the message if the word is no index.
///
/// `NoMemory` if memory is refused.
pub fn insert_among(
    alloc: Global,
    items: &[Text],
    word: &[u8],
    others: &[Text],
) -> Result<Result<Texts, Text>, NoMemory>
    ensures made { IfOk result (λ made. list_or_message made ≡ insert_among items.now word.now others.now) }
{
    let Some(place) = place_in(word, items.len() + 1) else {
        return Ok(Err(bad_index(alloc, word)?));
    };
    let all = parts::with_items(alloc, items, place, others)?;
    Ok(Ok(all))
}

/// The list with others in place of the items from the first index up to the last one (lreplace(n)).
///
/// `Bad` if the text is no list or a word is no index, tested in this order. `NoMemory` if memory is refused.
pub fn replace(
    alloc: Global,
    list: &[u8],
    first: &[u8],
    last: &[u8],
    others: &[Text],
) -> Result<ListAnswer, NoMemory>
    ensures answer { IfOk result (λ answer. answer ≡ replace_answer list.now first.now last.now others.now) }
{
    match split(alloc, list)? {
        Split::Items(items) => replace_of(alloc, items.as_slice(), first, last, others),
        Split::Bad(fault) => no_list(alloc, &fault),
    }
}

fn replace_of(
    alloc: Global,
    items: &[Text],
    first: &[u8],
    last: &[u8],
    others: &[Text],
) -> Result<ListAnswer, NoMemory>
    ensures { IfOk result (λ answer. answer ≡ replace_among items.now first.now last.now others.now) }
{
    let made = replace_among(alloc, items, first, last, others)?;
    listed(alloc, made)
}

/// These items with others in place of those from the first index up to the last one (lreplace(n)); or the message if a
/// word is no index.
///
/// `NoMemory` if memory is refused.
pub fn replace_among(
    alloc: Global,
    items: &[Text],
    first: &[u8],
    last: &[u8],
    others: &[Text],
) -> Result<Result<Texts, Text>, NoMemory>
    ensures made { IfOk result (λ made. list_or_message made ≡ replace_among items.now first.now last.now others.now) }
{
    let Some(from) = place_in(first, items.len()) else {
        return Ok(Err(bad_index(alloc, first)?));
    };
    let Some(to) = place_in(last, items.len()) else {
        return Ok(Err(bad_index(alloc, last)?));
    };
    let all = parts::with_replaced(alloc, items, from, to, others)?;
    Ok(Ok(all))
}
