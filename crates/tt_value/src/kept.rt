ghost use Rattle.std.specs.Prelude.{◌≡◌, ◌++◌, IfOk, IfErr, IsTrue, OnErr, OnOk};
ghost use Rattle.std.specs.Arc.{arc_value};
ghost use Rattle.std.specs.Fmt.{signed_decimal};
ghost use Rattle.std.specs.List.{flat_map};
ghost use Rattle.tt_lists.specs.Reading.{split_of};
ghost use Rattle.tt_number.specs.Numerals.{whole_of};
ghost use Rattle.tt_value.specs.Growing.{list_with_texts};
ghost use Rattle.tt_value.specs.Reading.{items_of};
ghost use Rattle.tt_value.specs.inside.KeptText.{text_of};
ghost use Rattle.tt_value.specs.inside.Listed.{canonical};

use crate::items::Items;
use crate::listing::Listing;
use crate::pairing::Pairing;
use itoa::Buffer;
use std::alloc::Global;
use std::sync::Arc;
use tt_lists::{ListAnswer, ListFault, Split, split};
use tt_number::{NumberFault, read_whole, whole_text};
use tt_text::{NoMemory, Text};

/// What a value keeps.
#[derive(Debug, Drop)]
pub(crate) enum Kept {
    /// A whole number. Its text is the decimal one, which is made when it is asked for.
    Number(i64),
    /// A text.
    Text(Text),
    /// A list, which its copies share.
    List(Arc<Listing>),
    /// A dictionary, likewise.
    Pairs(Arc<Pairing>),
}

/// The text.
pub(crate) fn text_of(alloc: Global, kept: &Kept) -> Result<Text, NoMemory>
    ensures text { IfOk result (λ text. text ≡ text_of kept.now) }
{
    match kept {
        Kept::Number(number) => whole_text(alloc, *number),
        Kept::Text(text) => text.copy(),
        Kept::List(list) => list.text(alloc),
        Kept::Pairs(pairs) => pairs.text(),
    }
}

/// The same, kept from then on if there is memory for that.
pub(crate) fn kept_text(alloc: Global, kept: &mut Kept) -> Result<Text, NoMemory>
    ensures text { IfOk result (λ text. text ≡ text_of kept.old) }
    ensures same { text_of kept.new ≡ text_of kept.old }
{
    if let Kept::List(list) = kept {
        return list_text(alloc, list);
    }
    text_of(alloc, kept)
}

fn list_text(alloc: Global, list: &mut Arc<Listing>) -> Result<Text, NoMemory>
    ensures text { IfOk result (λ text. text ≡ (arc_value list.old).text) }
    ensures same { arc_value list.new ≡ arc_value list.old }
{
    if let Some(list) = Arc::get_mut(list) {
        return list.kept_text(alloc);
    }
    write_own(alloc, list);
    list.text(alloc)
}

// A list that is shared takes its text in a copy of its own, if it has none and there is memory for that.
fn write_own(alloc: Global, list: &mut Arc<Listing>)
    ensures same { arc_value list.new ≡ arc_value list.old }
{
    if list.is_written() {
        return;
    }
    if let Ok(own) = written(alloc, list) {
        *list = own;
    }
}

fn written(alloc: Global, list: &Listing) -> Result<Arc<Listing>, NoMemory>
    ensures { IfOk result (λ own. arc_value own ≡ list.now) }
{
    let mut own = list.copy()?;
    own.kept_text(alloc)?;
    Ok(Arc::new(alloc, own)?)
}

/// The number that is read, which takes the text's place if that is its decimal one.
#[tactic(auto, using(tt_number::proofs::Reading::Decimal::decimal_law))]
pub(crate) fn whole_of(alloc: Global, kept: &mut Kept) -> Result<Result<i64, NumberFault>, NoMemory>
    ensures answer { IfOk result (λ answer. answer ≡ whole_of (text_of kept.old)) }
    ensures same { text_of kept.new ≡ text_of kept.old }
{
    match kept {
        Kept::Number(number) => Ok(Ok(*number)),
        Kept::Text(text) => {
            let answer = read_whole(text.as_bytes());
            if let Ok(number) = answer {
                keep_number(kept, number);
            }
            Ok(answer)
        }
        Kept::List(list) => {
            let text = list.text(alloc)?;
            Ok(read_whole(text.as_bytes()))
        }
        Kept::Pairs(pairs) => {
            let text = pairs.text()?;
            Ok(read_whole(text.as_bytes()))
        }
    }
}

// A number takes the place of its decimal text, and of no other.
fn keep_number(kept: &mut Kept, number: i64)
    ensures same { text_of kept.new ≡ text_of kept.old }
{
    match kept {
        Kept::Text(text) if is_decimal(text, number) => *kept = Kept::Number(number),
        _ => {}
    }
}

// Whether a text is the decimal one of a number.
fn is_decimal(text: &Text, number: i64) -> bool
    ensures { IsTrue result → text.now ≡ signed_decimal number }
{
    let mut buffer = Buffer::new();
    text.as_bytes() == buffer.format(number).as_bytes()
}

/// The items, which a text keeps from then on. A number stays one.
pub(crate) fn items_of(alloc: Global, kept: &mut Kept) -> Result<Result<Items, ListFault>, NoMemory>
    ensures answer { IfOk result (λ answer. answer ≡ items_of (text_of kept.old)) }
    ensures same { text_of kept.new ≡ text_of kept.old }
{
    match listing_of(alloc, kept)? {
        Ok(list) => {
            let items = shared_items(&list)?;
            keep_list(kept, list);
            Ok(Ok(items))
        }
        Err(fault) => Ok(Err(fault)),
    }
}

/// The same, which only the answer keeps if the value is no list yet.
pub(crate) fn own_items(alloc: Global, kept: &Kept) -> Result<Result<Items, ListFault>, NoMemory>
    ensures items { IfOk result (λ read. IfOk read (λ items. split_of (text_of kept.now) ≡ Split.Items items)) }
    ensures fault { IfOk result (λ read. IfErr read (λ fault. split_of (text_of kept.now) ≡ Split.Bad fault)) }
{
    match listing_of(alloc, kept)? {
        Ok(list) => {
            let items = shared_items(&list)?;
            Ok(Ok(items))
        }
        Err(fault) => Ok(Err(fault)),
    }
}

// The list, which is shared if it is kept.
fn listing_of(alloc: Global, kept: &Kept) -> Result<Result<Arc<Listing>, ListFault>, NoMemory>
    ensures text { IfOk result (λ read. IfOk read (λ list. (arc_value list).text ≡ text_of kept.now)) }
    ensures fault { IfOk result (λ read. IfErr read (λ fault. split_of (text_of kept.now) ≡ Split.Bad fault)) }
{
    if let Kept::List(list) = kept {
        return Ok(Ok(Arc::try_clone(list)?));
    }
    match read_list(alloc, kept)? {
        Ok(list) => Ok(Ok(Arc::new(alloc, list)?)),
        Err(fault) => Ok(Err(fault)),
    }
}

fn keep_list(kept: &mut Kept, list: Arc<Listing>)
    requires { (arc_value list).text ≡ text_of kept.old }
    ensures same { text_of kept.new ≡ text_of kept.old }
{
    match kept {
        Kept::Text(_) => *kept = Kept::List(list),
        Kept::Number(_) | Kept::List(_) | Kept::Pairs(_) => {}
    }
}

fn shared_items(list: &Arc<Listing>) -> Result<Items, NoMemory>
    ensures { IfOk result (λ items. split_of (arc_value list.now).text ≡ Split.Items items) }
{
    list.is_split();
    let list = Arc::try_clone(list)?;
    Ok(Items::of(list))
}

// A list of its own.
fn read_list(alloc: Global, kept: &Kept) -> Result<Result<Listing, ListFault>, NoMemory>
    ensures text { IfOk result (λ read. IfOk read (λ list. list.text ≡ text_of kept.now)) }
    ensures split { IfOk result (λ read. IfOk read (λ list. split_of (text_of kept.now) ≡ Split.Items list.items)) }
    ensures fault { IfOk result (λ read. IfErr read (λ fault. split_of (text_of kept.now) ≡ Split.Bad fault)) }
{
    let text = text_of(alloc, kept)?;
    match split(alloc, text.as_bytes())? {
        Split::Items(items) => Ok(Ok(Listing::from_text(text, items.into_vec()))),
        Split::Bad(fault) => Ok(Err(fault)),
    }
}

/// Puts texts at the end of the text.
pub(crate) fn append(alloc: Global, kept: &mut Kept, texts: &[Text]) -> Result<(), NoMemory>
    ensures { OnOk result (text_of kept.new ≡ text_of kept.old ++ flat_map (λ text. text) texts.now) }
{
    if let Kept::Text(text) = kept {
        push_bytes(text, texts)?;
        return Ok(());
    }
    let mut text = text_of(alloc, kept)?;
    push_bytes(&mut text, texts)?;
    *kept = Kept::Text(text);
    Ok(())
}

fn push_bytes(text: &mut Text, texts: &[Text]) -> Result<(), NoMemory>
    ensures { OnOk result (text.new ≡ text.old ++ flat_map (λ text. text) texts.now) }
{
    for more in texts {
        text.push_bytes(more.as_bytes())?;
    }
    Ok(())
}

/// Puts items at the end of the list, whose text is canonical then, or says why it is none.
#[tactic(auto, using(crate::proofs::AtEnd::list_grows))]
pub(crate) fn push(
    alloc: Global,
    kept: &mut Kept,
    items: &[Text],
) -> Result<Result<(), ListFault>, NoMemory>
    ensures pushed { IfOk result (λ pushed. OnOk pushed
        (list_with_texts items.now (text_of kept.old) ≡ ListAnswer.Made (text_of kept.new))) }
    ensures fault { IfOk result (λ pushed. IfErr pushed (λ fault. split_of (text_of kept.old) ≡ Split.Bad fault)) }
    ensures stays { IfOk result (λ pushed. OnErr pushed (text_of kept.new ≡ text_of kept.old)) }
{
    if let Kept::List(list) = kept {
        list.is_split();
        push_shared(alloc, list, items)?;
        return Ok(Ok(()));
    }
    match read_list(alloc, kept)? {
        Ok(mut list) => {
            list.push_all(alloc, items)?;
            *kept = Kept::List(Arc::new(alloc, list)?);
            Ok(Ok(()))
        }
        Err(fault) => Ok(Err(fault)),
    }
}

// In place, if no other value shares the list.
fn push_shared(alloc: Global, list: &mut Arc<Listing>, items: &[Text]) -> Result<(), NoMemory>
    ensures pushed { OnOk result (arc_value list.new ≡ canonical ((arc_value list.old).items ++ items.now)) }
{
    match Arc::get_mut(list) {
        Some(list) => list.push_all(alloc, items),
        None => {
            let mut own = list.copy()?;
            own.push_all(alloc, items)?;
            *list = Arc::new(alloc, own)?;
            Ok(())
        }
    }
}

/// A second one of the same text.
pub(crate) fn copy(kept: &Kept) -> Result<Kept, NoMemory>
    ensures copied { IfOk result (λ copy. text_of copy ≡ text_of kept.now) }
{
    match kept {
        Kept::Number(number) => Ok(Kept::Number(*number)),
        Kept::Text(text) => Ok(Kept::Text(text.copy()?)),
        Kept::List(list) => Ok(Kept::List(Arc::try_clone(list)?)),
        Kept::Pairs(pairs) => Ok(Kept::Pairs(Arc::try_clone(pairs)?)),
    }
}
